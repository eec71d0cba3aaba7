// What `var` declares in a statement, outside of functions and classes, and what else is declared around it. Each recursion goes as deep as
// the tree.
ghost use Rattle.std.specs.Prelude.{◌≡◌};
ghost use Rattle.js_syntax.specs.Node.{row};
ghost use Rattle.kept_names.specs.Kept as kept;
ghost use Rattle.steps.specs.Allowed.Branches.{is_handler, lets_only_at, lets_only, stays_inside_at, inside_from, declares_no_name, none_from};
ghost use Rattle.steps.specs.VarNames.Declared.{without_vars};
ghost use Rattle.steps.specs.VarNames.Plain.{binds_name, bind_names, has_names, vars_bind_names_at, vars_bind_names};
ghost use Rattle.steps.specs.VarNames.Has.{has_node, has_declarator, has_vars_at, has_vars};
ghost use Rattle.min_statements.specs.Vars.{is_name_alone, starts_with_name, without_vars_below};

use js_syntax::{ClassKind, FunctionKind, NodeKind, VariableKind};
use js_tree::Node;

fn is_var(kind: &NodeKind) -> bool
    ensures { result ≡ kept.is_var kind.now }
{
    matches!(kind, NodeKind::VariableDeclaration(VariableKind::Var))
}

fn holds_statements(kind: &NodeKind) -> bool
    ensures { result ≡ kept.holds_statements kind.now }
{
    match kind {
        NodeKind::Statements
        | NodeKind::BlockStatement
        | NodeKind::IfStatement
        | NodeKind::ForStatement
        | NodeKind::ForInStatement
        | NodeKind::ForOfStatement
        | NodeKind::WhileStatement
        | NodeKind::DoWhileStatement
        | NodeKind::LabeledStatement(_)
        | NodeKind::SwitchStatement
        | NodeKind::Cases
        | NodeKind::SwitchCase
        | NodeKind::TryStatement
        | NodeKind::CatchClause
        | NodeKind::WithStatement => true,
        _ => false,
    }
}

// ---- whether names alone are declared, and no patterns

fn is_name_alone(node: &Node) -> bool
    ensures { result ≡ is_name_alone node.now.kind node.now.below }
{
    match node.kind() {
        NodeKind::BindingName(_) => node.children().is_empty(),
        _ => false,
    }
}

fn starts_with_name(children: &[Option<Node>]) -> bool
    ensures { result ≡ starts_with_name (row children.now) }
{
    match children {
        [Some(target), ..] => is_name_alone(target),
        [None, ..] => false,
        [] => false,
    }
}

fn binds_name(node: &Node) -> bool
    ensures { result ≡ binds_name node.now.kind node.now.below }
{
    match node.kind() {
        NodeKind::VariableDeclarator => starts_with_name(node.children()),
        _ => false,
    }
}

fn bind_names(declarators: &[Option<Node>]) -> bool
    ensures { result ≡ bind_names (row declarators.now) }
{
    let mut rest = declarators;
    while let [first, others @ ..] = rest {
        if let Some(node) = first {
            if !binds_name(node) {
                return false;
            }
        }
        rest = others;
    }
    true
}

fn has_names(children: &[Option<Node>]) -> bool
    ensures { result ≡ has_names (row children.now) }
{
    match children {
        [Some(list)] => matches!(list.kind(), NodeKind::Declarators) && bind_names(list.children()),
        _ => false,
    }
}

#[cycle(plain)]
fn vars_bind_names_at(node: &Node) -> bool
    ensures { result ≡ vars_bind_names_at node.now.kind node.now.below (vars_bind_names node.now.below) }
{
    if is_var(node.kind()) {
        has_names(node.children())
    } else if holds_statements(node.kind()) {
        vars_bind_names(node.children())
    } else {
        true
    }
}

#[cycle(plain)]
pub(crate) fn vars_bind_names(children: &[Option<Node>]) -> bool
    ensures { result ≡ vars_bind_names (row children.now) }
{
    let mut rest = children;
    while let [first, others @ ..] = rest {
        if let Some(node) = first {
            if !vars_bind_names_at(node) {
                return false;
            }
        }
        rest = others;
    }
    true
}

// ---- whether there is a name

fn has_node(children: &[Option<Node>]) -> bool
    ensures { result ≡ has_node (row children.now) }
{
    let mut rest = children;
    while let [first, others @ ..] = rest {
        if let Some(_) = first {
            return true;
        }
        rest = others;
    }
    false
}

fn has_declarator(children: &[Option<Node>]) -> bool
    ensures { result ≡ has_declarator (row children.now) }
{
    match children {
        [Some(list), ..] => matches!(list.kind(), NodeKind::Declarators)
            && has_node(list.children()),
        [None, ..] => false,
        [] => false,
    }
}

#[cycle(vars)]
fn has_vars_at(node: &Node) -> bool
    ensures { result ≡ has_vars_at node.now.kind node.now.below (has_vars node.now.below) }
{
    if is_var(node.kind()) {
        has_declarator(node.children())
    } else {
        holds_statements(node.kind()) && has_vars(node.children())
    }
}

#[cycle(vars)]
pub(crate) fn has_vars(children: &[Option<Node>]) -> bool
    ensures { result ≡ has_vars (row children.now) }
{
    let mut rest = children;
    while let [first, others @ ..] = rest {
        if let Some(node) = first {
            if has_vars_at(node) {
                return true;
            }
        }
        rest = others;
    }
    false
}

// ---- what else is declared around, by `let` and `const` first

#[cycle(lets)]
fn lets_only_at(node: &Node) -> bool
    ensures { result ≡ lets_only_at node.now.kind (lets_only (without_vars_below node.now.kind node.now.below)) }
{
    match node.kind() {
        NodeKind::VariableDeclaration(_) => false,
        NodeKind::Function { kind, .. } => !matches!(kind, FunctionKind::Declaration),
        NodeKind::Class(kind) => !matches!(kind, ClassKind::Declaration),
        _ => lets_only(node.children()),
    }
}

#[cycle(lets)]
fn lets_only(children: &[Option<Node>]) -> bool
    ensures { result ≡ lets_only (without_vars (row children.now)) }
{
    let mut rest = children;
    while let [first, others @ ..] = rest {
        if let Some(node) = first {
            if !is_var(node.kind()) && !lets_only_at(node) {
                return false;
            }
        }
        rest = others;
    }
    true
}

// ---- in a block

#[cycle(inside)]
fn stays_inside_at(node: &Node) -> bool
    ensures { result ≡ stays_inside_at node.now.kind (lets_only (without_vars_below node.now.kind node.now.below)) (inside_from (is_handler node.now.kind) (without_vars_below node.now.kind node.now.below)) }
{
    match node.kind() {
        NodeKind::BindingName(_) => false,
        NodeKind::VariableDeclaration(VariableKind::Var) => false,
        NodeKind::VariableDeclaration(VariableKind::Let) => lets_only(node.children()),
        NodeKind::VariableDeclaration(VariableKind::Const) => lets_only(node.children()),
        NodeKind::Function { kind, .. } => !matches!(kind, FunctionKind::Declaration),
        NodeKind::Class(_) => true,
        NodeKind::CatchClause => inside_from(true, node.children()),
        _ => inside_from(false, node.children()),
    }
}

// `is_parameter` says whether a handler's parameter stands first.
#[cycle(inside)]
fn inside_from(is_parameter: bool, children: &[Option<Node>]) -> bool
    ensures { result ≡ inside_from is_parameter (without_vars (row children.now)) }
{
    let mut is_first = is_parameter;
    let mut rest = children;
    while let [first, others @ ..] = rest {
        if let Some(node) = first {
            let stays = if is_var(node.kind()) {
                true
            } else if is_first {
                lets_only_at(node)
            } else {
                stays_inside_at(node)
            };
            if !stays {
                return false;
            }
        }
        is_first = false;
        rest = others;
    }
    true
}

// ---- anywhere

// Whether nothing declares a name around it but `var`, outside of functions and classes.
#[cycle(declares)]
pub(crate) fn declares_vars_alone(node: &Node) -> bool
    ensures { result ≡ declares_no_name node.now.kind (without_vars_below node.now.kind node.now.below) }
{
    match node.kind() {
        NodeKind::BindingName(_) => false,
        NodeKind::VariableDeclaration(VariableKind::Var) => false,
        NodeKind::Function { kind, .. } => !matches!(kind, FunctionKind::Declaration),
        NodeKind::Class(kind) => !matches!(kind, ClassKind::Declaration),
        NodeKind::BlockStatement
        | NodeKind::ForStatement
        | NodeKind::ForInStatement
        | NodeKind::ForOfStatement => inside_from(false, node.children()),
        NodeKind::CatchClause => none_from(true, node.children()),
        _ => none_from(false, node.children()),
    }
}

#[cycle(declares)]
fn none_from(is_parameter: bool, children: &[Option<Node>]) -> bool
    ensures { result ≡ none_from is_parameter (without_vars (row children.now)) }
{
    let mut is_first = is_parameter;
    let mut rest = children;
    while let [first, others @ ..] = rest {
        if let Some(node) = first {
            let declares_none = if is_var(node.kind()) {
                true
            } else if is_first {
                lets_only_at(node)
            } else {
                declares_vars_alone(node)
            };
            if !declares_none {
                return false;
            }
        }
        is_first = false;
        rest = others;
    }
    true
}
