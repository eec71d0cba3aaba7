// The names that a scope declares, in order of places (ECMA-262 8.2).
ghost use Rattle.std.specs.Prelude.{◌≡◌, ◌+◌, ◌^◌, ◌<◌, ◌++◌, IfOk, OnOk};
ghost use Rattle.std.specs.Option.{option_to_list};
ghost use Rattle.js_syntax.specs.Node.{row};
ghost use Rattle.js_tree.specs.Count.{node_count};
ghost use Rattle.form_rules.specs.Scope.{bound_below, variables_below, scope_below, function_below, catch_below, sought_below, declared_here, declared};
ghost use Rattle.form_declared.specs.Sought.{sort_of};

use form_rules::{Declared, Sort, Sought};
use js_syntax::{ClassKind, FunctionKind, VariableKind};
use js_tree::{Node, NodeKind, count_of_kind, place_behind};
use std::alloc::AllocError;

// BoundNames (8.2.1): keys and defaults are expressions, and bind nothing.
fn bound_below(sort: Sort, kind: &NodeKind) -> Sought
    ensures { result ≡ bound_below sort kind.now }
{
    match kind {
        NodeKind::Declarators
        | NodeKind::VariableDeclarator
        | NodeKind::Parameters
        | NodeKind::BindingObject
        | NodeKind::Properties
        | NodeKind::BindingProperty(_)
        | NodeKind::BindingArray
        | NodeKind::Elements
        | NodeKind::BindingDefault
        | NodeKind::BindingRest
        | NodeKind::Specifiers
        | NodeKind::ImportSpecifier(_)
        | NodeKind::ImportDefaultSpecifier
        | NodeKind::ImportNamespaceSpecifier => Sought::Bound(sort),
        _ => Sought::Nothing,
    }
}

// VarDeclaredNames (8.2.6): through statements of all sorts, and into no function or class.
fn variables_below(kind: &NodeKind) -> Sought
    ensures { result ≡ variables_below kind.now }
{
    match kind {
        NodeKind::VariableDeclaration(VariableKind::Var) => Sought::Bound(Sort::Variable),
        NodeKind::Statements
        | NodeKind::BlockStatement
        | NodeKind::IfStatement
        | NodeKind::WithStatement
        | NodeKind::LabeledStatement(_)
        | NodeKind::SwitchStatement
        | NodeKind::Cases
        | NodeKind::SwitchCase
        | NodeKind::TryStatement
        | NodeKind::CatchClause
        | NodeKind::WhileStatement
        | NodeKind::DoWhileStatement
        | NodeKind::ForStatement
        | NodeKind::ForInStatement
        | NodeKind::ForOfStatement
        | NodeKind::ExportNamedDeclaration(_) => Sought::Variables,
        _ => Sought::Nothing,
    }
}

// LexicallyDeclaredNames (8.2.4), with those declared by `var`.
fn scope_below(functions: Sort, kind: &NodeKind) -> Sought
    ensures { result ≡ scope_below functions kind.now }
{
    match kind {
        NodeKind::Statements
        | NodeKind::SwitchCase
        | NodeKind::ExportNamedDeclaration(_)
        | NodeKind::ExportDefaultDeclaration => Sought::Scope(functions),
        NodeKind::VariableDeclaration(VariableKind::Let)
        | NodeKind::VariableDeclaration(VariableKind::Const)
        | NodeKind::ImportDeclaration(_) => Sought::Bound(Sort::Lexical),
        NodeKind::Class(ClassKind::Declaration) => Sought::Names(Sort::Lexical),
        NodeKind::Function {
            kind: FunctionKind::Declaration,
            ..
        } => Sought::Names(functions),
        _ => variables_below(kind),
    }
}

// A function's own name, which stands before its parameters, is none of its scope.
fn function_below(kind: &NodeKind) -> Sought
    ensures { result ≡ function_below kind.now }
{
    match kind {
        NodeKind::Parameters => Sought::Bound(Sort::Parameter),
        NodeKind::FunctionBody => Sought::Scope(Sort::Hoisted),
        _ => Sought::Nothing,
    }
}

fn catch_below(functions: Sort, kind: &NodeKind) -> Sought
    ensures { result ≡ catch_below functions kind.now }
{
    match kind {
        NodeKind::BlockStatement => Sought::Scope(functions),
        _ => bound_below(Sort::CatchParameter, kind),
    }
}

// What is sought below a node of a row in which this is sought.
fn sought_below(sought: Sought, kind: &NodeKind) -> Sought
    ensures { result ≡ sought_below sought kind.now }
{
    match sought {
        Sought::Nothing => Sought::Nothing,
        Sought::Names(_) => Sought::Nothing,
        Sought::Bound(sort) => bound_below(sort, kind),
        Sought::Scope(functions) => scope_below(functions, kind),
        Sought::Variables => variables_below(kind),
        Sought::FunctionScope => function_below(kind),
        Sought::CatchScope(functions) => catch_below(functions, kind),
    }
}

// How a name is declared that stands among nodes in which this is sought.
fn sort_of(sought: Sought) -> Option<Sort>
    ensures { result ≡ sort_of sought }
{
    match sought {
        Sought::Names(sort) => Some(sort),
        Sought::Bound(sort) => Some(sort),
        Sought::CatchScope(_) => Some(Sort::CatchParameter),
        _ => None,
    }
}

// The name that a node at a place declares.
fn declared_here<'a>(sought: Sought, place: u32, kind: &'a NodeKind) -> Option<Declared<'a>>
    ensures { option_to_list result ≡ declared_here sought place kind.now }
{
    match kind {
        NodeKind::BindingName(name) => match sort_of(sought) {
            Some(sort) => Some(Declared::new(name.as_str(), place, sort)),
            None => None,
        },
        _ => None,
    }
}

/// Adds what is sought among nodes, the first of which stands at `place`, and answers the place behind
/// them. The recursion goes as deep as the trees.
pub fn add_declared<'a>(
    sought: Sought,
    place: u32,
    nodes: &'a [Option<Node>],
    found: &mut Vec<Declared<'a>>,
) -> Result<u32, AllocError>
    requires fits { place + node_count (row nodes.now) < 2 ^ 32 }
    ensures behind { IfOk result (λ p. p ≡ place + node_count (row nodes.now)) }
    ensures found { OnOk result (found.new.items ≡ found.old.items ++ declared sought place (row nodes.now)) }
{
    let mut next = place;
    for node in nodes {
        if let Some(node) = node {
            if let Some(name) = declared_here(sought, next, node.kind()) {
                found.push(name)?;
            }
            let below = next + count_of_kind(node.kind());
            next = match sought_below(sought, node.kind()) {
                Sought::Nothing => place_behind(below, node.children()),
                inner => add_declared(inner, below, node.children(), found)?,
            };
        }
    }
    Ok(next)
}
