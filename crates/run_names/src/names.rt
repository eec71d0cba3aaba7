// Names in rows of nodes (ECMA-262 8.2).
ghost use Rattle.std.specs.Prelude.{◌≡◌, ◌++◌, IfOk, OnOk, map};
ghost use Rattle.js_syntax.specs.Node.{row};
ghost use Rattle.js_meaning.specs.Scope.{first_of, behind, declared_name, first_name, names_of, bound_names, vars_of, var_names, module_text};
ghost use Rattle.run_names.specs.Held.{held, maybe_held};

use js_syntax::{ModuleName, NodeKind, VariableKind};
use js_tree::Node;
use std::alloc::{AllocError, Global};

/// The first field of a row alone.
pub fn first_of(nodes: &[Option<Node>]) -> &[Option<Node>]
    ensures { row result.now ≡ first_of (row nodes.now) }
{
    match nodes {
        [Some(_), ..] => &nodes[..1],
        _ => &[],
    }
}

/// What stands behind the first field of a row.
pub fn behind(nodes: &[Option<Node>]) -> &[Option<Node>]
    ensures { row result.now ≡ behind (row nodes.now) }
{
    match nodes {
        [_, others @ ..] => others,
        [] => &[],
    }
}

fn declared_name(kind: &NodeKind) -> Option<&str>
    ensures { maybe_held result ≡ declared_name kind.now }
{
    match kind {
        NodeKind::BindingName(name) => Some(name.as_str()),
        _ => None,
    }
}

/// The name that a function, class or import specifier declares, by the row below it.
pub fn first_name(nodes: &[Option<Node>]) -> Option<&str>
    ensures { maybe_held result ≡ first_name (row nodes.now) }
{
    match nodes {
        [Some(first), ..] => declared_name(first.kind()),
        _ => None,
    }
}

/// A name under which modules import and export.
pub fn module_text(name: &ModuleName) -> &str
    ensures { result.now ≡ module_text name.now }
{
    match name {
        ModuleName::Name(name) => name.as_str(),
        ModuleName::Text(text) => text.as_str(),
    }
}

// The names of a node (8.2.1), behind those that are there.
#[cycle(bound)]
fn bound_of_node<'a>(found: Vec<&'a str>, node: &'a Node) -> Result<Vec<&'a str>, AllocError>
    ensures { IfOk result (λ v. held v.items ≡ held found.entry.items ++ names_of node.now.kind (bound_names node.now.below)) }
{
    let mut found = found;
    match node.kind() {
        NodeKind::BindingName(name) => {
            found.push(name.as_str())?;
            Ok(found)
        }
        NodeKind::VariableDeclaration(VariableKind::Let) => Ok(found),
        NodeKind::VariableDeclaration(VariableKind::Const) => Ok(found),
        NodeKind::Function { .. } => Ok(found),
        NodeKind::Class(_) => Ok(found),
        _ => bound_of_row(found, node.children()),
    }
}

#[cycle(bound)]
fn bound_of_row<'a>(
    found: Vec<&'a str>,
    nodes: &'a [Option<Node>],
) -> Result<Vec<&'a str>, AllocError>
    ensures { IfOk result (λ v. held v.items ≡ held found.entry.items ++ bound_names (row nodes.now)) }
{
    let mut found = found;
    let mut rest = nodes;
    while let [first, others @ ..] = rest {
        if let Some(node) = first {
            found = bound_of_node(found, node)?;
        }
        rest = others;
    }
    Ok(found)
}

/// BoundNames (8.2.1) of patterns, declarators and parameters.
pub fn bound_names(alloc: Global, nodes: &[Option<Node>]) -> Result<Vec<&str>, AllocError>
    ensures { IfOk result (λ v. held v.items ≡ bound_names (row nodes.now)) }
{
    bound_of_row(Vec::new(alloc), nodes)
}

// The names that a node declares by `var`, not those of functions and classes inside (8.2.6), behind
// those that are there.
#[cycle(vars)]
fn vars_of_node<'a>(found: Vec<&'a str>, node: &'a Node) -> Result<Vec<&'a str>, AllocError>
    ensures { IfOk result (λ v. held v.items ≡ held found.entry.items ++ vars_of node.now.kind node.now.below (var_names node.now.below)) }
{
    match node.kind() {
        NodeKind::VariableDeclaration(VariableKind::Var) => {
            let found = bound_of_row(found, node.children())?;
            vars_of_row(found, node.children())
        }
        NodeKind::VariableDeclaration(VariableKind::Let) => Ok(found),
        NodeKind::VariableDeclaration(VariableKind::Const) => Ok(found),
        NodeKind::Function { .. } => Ok(found),
        NodeKind::Class(_) => Ok(found),
        _ => vars_of_row(found, node.children()),
    }
}

#[cycle(vars)]
fn vars_of_row<'a>(
    found: Vec<&'a str>,
    nodes: &'a [Option<Node>],
) -> Result<Vec<&'a str>, AllocError>
    ensures { IfOk result (λ v. held v.items ≡ held found.entry.items ++ var_names (row nodes.now)) }
{
    let mut found = found;
    let mut rest = nodes;
    while let [first, others @ ..] = rest {
        if let Some(node) = first {
            found = vars_of_node(found, node)?;
        }
        rest = others;
    }
    Ok(found)
}

/// VarDeclaredNames (8.2.6).
pub fn var_names(alloc: Global, nodes: &[Option<Node>]) -> Result<Vec<&str>, AllocError>
    ensures { IfOk result (λ v. held v.items ≡ var_names (row nodes.now)) }
{
    vars_of_row(Vec::new(alloc), nodes)
}
