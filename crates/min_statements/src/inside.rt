// What declares no name around it. Each recursion goes as deep as the tree.
ghost use Rattle.std.specs.Prelude.{◌≡◌};
ghost use Rattle.js_syntax.specs.Node.{row};
ghost use Rattle.steps.specs.Allowed.Branches.{is_handler, lets_only_at, lets_only, stays_inside_at, inside_from, none_from};
ghost use Rattle.min_statements.specs.Ifs.{declares_no_name};

use js_syntax::{ClassKind, FunctionKind, NodeKind, VariableKind};
use js_tree::Node;

// ---- the declarators of `let` and `const`

#[cycle(lets)]
fn lets_only_at(node: &Node) -> bool
    ensures { result ≡ lets_only_at node.now.kind (lets_only node.now.below) }
{
    match node.kind() {
        NodeKind::VariableDeclaration(_) => false,
        NodeKind::Function { kind, .. } => !matches!(kind, FunctionKind::Declaration),
        NodeKind::Class(kind) => !matches!(kind, ClassKind::Declaration),
        _ => lets_only(node.children()),
    }
}

#[cycle(lets)]
fn lets_only(children: &[Option<Node>]) -> bool
    ensures { result ≡ lets_only (row children.now) }
{
    let mut rest = children;
    while let [first, others @ ..] = rest {
        if let Some(node) = first {
            if !lets_only_at(node) {
                return false;
            }
        }
        rest = others;
    }
    true
}

// ---- what stands in a block

#[cycle(inside)]
fn stays_inside_at(node: &Node) -> bool
    ensures { result ≡ stays_inside_at node.now.kind (lets_only node.now.below) (inside_from (is_handler node.now.kind) node.now.below) }
{
    match node.kind() {
        NodeKind::BindingName(_) => false,
        NodeKind::VariableDeclaration(VariableKind::Var) => false,
        NodeKind::VariableDeclaration(VariableKind::Let) => lets_only(node.children()),
        NodeKind::VariableDeclaration(VariableKind::Const) => lets_only(node.children()),
        NodeKind::Function { kind, .. } => !matches!(kind, FunctionKind::Declaration),
        NodeKind::Class(_) => true,
        NodeKind::CatchClause => inside_from(true, node.children()),
        _ => inside_from(false, node.children()),
    }
}

// `is_parameter` says whether a handler's parameter stands first.
#[cycle(inside)]
fn inside_from(is_parameter: bool, children: &[Option<Node>]) -> bool
    ensures { result ≡ inside_from is_parameter (row children.now) }
{
    let mut is_first = is_parameter;
    let mut rest = children;
    while let [first, others @ ..] = rest {
        if let Some(node) = first {
            let stays = if is_first {
                lets_only_at(node)
            } else {
                stays_inside_at(node)
            };
            if !stays {
                return false;
            }
        }
        is_first = false;
        rest = others;
    }
    true
}

// ---- anything

// Whether nothing declares a name around it, outside of functions and classes.
#[cycle(declares)]
pub(crate) fn declares_no_name(node: &Node) -> bool
    ensures { result ≡ declares_no_name node.now }
{
    match node.kind() {
        NodeKind::BindingName(_) => false,
        NodeKind::VariableDeclaration(VariableKind::Var) => false,
        NodeKind::Function { kind, .. } => !matches!(kind, FunctionKind::Declaration),
        NodeKind::Class(kind) => !matches!(kind, ClassKind::Declaration),
        NodeKind::BlockStatement
        | NodeKind::ForStatement
        | NodeKind::ForInStatement
        | NodeKind::ForOfStatement => inside_from(false, node.children()),
        NodeKind::CatchClause => none_from(true, node.children()),
        _ => none_from(false, node.children()),
    }
}

#[cycle(declares)]
fn none_from(is_parameter: bool, children: &[Option<Node>]) -> bool
    ensures { result ≡ none_from is_parameter (row children.now) }
{
    let mut is_first = is_parameter;
    let mut rest = children;
    while let [first, others @ ..] = rest {
        if let Some(node) = first {
            let declares_none = if is_first {
                lets_only_at(node)
            } else {
                declares_no_name(node)
            };
            if !declares_none {
                return false;
            }
        }
        is_first = false;
        rest = others;
    }
    true
}
