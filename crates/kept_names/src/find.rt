// The names that `var` declares in a statement.
ghost use Rattle.std.specs.Prelude.{◌≡◌, ◌++◌, IfOk, map};
ghost use Rattle.js_syntax.specs.Node.{row, forest_of};
ghost use Rattle.js_tree.specs.Names.{names_declared};
ghost use Rattle.kept_names.specs.Kept as kept;

use js_syntax::{NodeKind, VariableKind};
use js_tree::{Node, bound_names};
use std::alloc::{AllocError, Global};

fn is_var(kind: &NodeKind) -> bool
    ensures { result ≡ kept.is_var kind.now }
{
    matches!(kind, NodeKind::VariableDeclaration(VariableKind::Var))
}

fn holds_statements(kind: &NodeKind) -> bool
    ensures { result ≡ kept.holds_statements kind.now }
{
    match kind {
        NodeKind::Statements
        | NodeKind::BlockStatement
        | NodeKind::IfStatement
        | NodeKind::ForStatement
        | NodeKind::ForInStatement
        | NodeKind::ForOfStatement
        | NodeKind::WhileStatement
        | NodeKind::DoWhileStatement
        | NodeKind::LabeledStatement(_)
        | NodeKind::SwitchStatement
        | NodeKind::Cases
        | NodeKind::SwitchCase
        | NodeKind::TryStatement
        | NodeKind::CatchClause
        | NodeKind::WithStatement => true,
        _ => false,
    }
}

// ---- declarators

fn append<'a>(names: Vec<&'a Node>, more: &[&'a Node]) -> Result<Vec<&'a Node>, AllocError>
    ensures { IfOk result (λ v. map (λ n. n.now) v.items ≡ map (λ n. n.now) names.entry.items ++ map (λ n. n.now) more.now) }
{
    let mut names = names;
    names.extend_from_slice(more)?;
    Ok(names)
}

fn pattern_names<'a>(
    alloc: Global,
    names: Vec<&'a Node>,
    declarator: &'a Node,
) -> Result<Vec<&'a Node>, AllocError>
    ensures { IfOk result (λ v. map (λ n. n.now) v.items ≡ map (λ n. n.now) names.entry.items ++ names_declared declarator.now.below) }
{
    match declarator.children().first() {
        Some(Some(pattern)) => append(names, bound_names(alloc, pattern)?.as_slice()),
        _ => Ok(names),
    }
}

#[cycle(declared)]
fn declared_in<'a>(
    alloc: Global,
    names: Vec<&'a Node>,
    node: &'a Node,
) -> Result<Vec<&'a Node>, AllocError>
    ensures { IfOk result (λ v. map (λ n. n.now) v.items ≡ map (λ n. n.now) names.entry.items ++ kept.declared_of node.now.kind node.now.below (kept.declared node.now.below)) }
{
    match node.kind() {
        NodeKind::Declarators => declared_in_row(alloc, names, node.children()),
        NodeKind::VariableDeclarator => pattern_names(alloc, names, node),
        _ => Ok(names),
    }
}

#[cycle(declared)]
fn declared_in_row<'a>(
    alloc: Global,
    names: Vec<&'a Node>,
    children: &'a [Option<Node>],
) -> Result<Vec<&'a Node>, AllocError>
    ensures { IfOk result (λ v. map (λ n. n.now) v.items ≡ map (λ n. n.now) names.entry.items ++ kept.declared (row children.now)) }
{
    let mut names = names;
    let mut rest = children;
    while let [first, others @ ..] = rest {
        if let Some(node) = first {
            names = declared_in(alloc, names, node)?;
        }
        rest = others;
    }
    Ok(names)
}

// ---- statements

#[cycle(kept)]
fn kept_in<'a>(
    alloc: Global,
    names: Vec<&'a Node>,
    node: &'a Node,
) -> Result<Vec<&'a Node>, AllocError>
    ensures { IfOk result (λ v. map (λ n. n.now) v.items ≡ map (λ n. n.now) names.entry.items ++ kept.kept_of node.now.kind node.now.below (kept.kept node.now.below)) }
{
    if is_var(node.kind()) {
        return declared_in_row(alloc, names, node.children());
    }
    if holds_statements(node.kind()) {
        kept_in_row(alloc, names, node.children())
    } else {
        Ok(names)
    }
}

#[cycle(kept)]
fn kept_in_row<'a>(
    alloc: Global,
    names: Vec<&'a Node>,
    children: &'a [Option<Node>],
) -> Result<Vec<&'a Node>, AllocError>
    ensures { IfOk result (λ v. map (λ n. n.now) v.items ≡ map (λ n. n.now) names.entry.items ++ kept.kept (row children.now)) }
{
    let mut names = names;
    let mut rest = children;
    while let [first, others @ ..] = rest {
        if let Some(node) = first {
            names = kept_in(alloc, names, node)?;
        }
        rest = others;
    }
    Ok(names)
}

/// The names that `var` declares in a statement and in the statements in it, in order of places and with repeats: each the
/// node of the tree, which has its span and, in a marked tree, its symbol.
pub fn kept_names(alloc: Global, statement: &Node) -> Result<Vec<&Node>, AllocError>
    ensures names { IfOk result (λ v. map (λ n. n.now) v.items ≡ kept.kept (forest_of statement.now)) }
{
    kept_in(alloc, Vec::new(alloc), statement)
}
