// The bits of scopes and references.
ghost use Rattle.std.specs.Prelude.{◌≡◌, ◌≤◌, is_some};
ghost use Rattle.js_syntax.specs.Node.{row};
ghost use Rattle.form_rules.specs.Context.{behind_first};
ghost use Rattle.js_tree.specs.Names.{eval_of_call};
ghost use Rattle.scope_rules.specs.Context.{opens, is_there};
ghost use Rattle.scope_rules.specs.Site.{has_eval, scope_row, function_bits, form_bits, bit, scope_bits, target_bits, read_bits};
ghost use Rattle.scope_context.specs.Frame.{frame_of};

use crate::context::Context;
use crate::frame::Frame;
use js_syntax::FunctionKind;
use js_tree::{Node, NodeKind, as_direct_eval_call};
use scope_rules::Role;

fn behind_first(nodes: &[Option<Node>]) -> &[Option<Node>]
    ensures { row result.now ≡ behind_first (row nodes.now) }
{
    match nodes {
        [_, rest @ ..] => rest,
        [] => nodes,
    }
}

fn is_there(nodes: &[Option<Node>]) -> bool
    ensures { result ≡ is_there (row nodes.now) }
{
    match nodes {
        [Some(_), ..] => true,
        _ => false,
    }
}

/// Whether a node makes a scope.
pub fn opens(node: &Node) -> bool
    ensures opens { result ≡ opens node.now.kind node.now.below }
{
    match node.kind() {
        NodeKind::Program(_)
        | NodeKind::Function { .. }
        | NodeKind::Class(_)
        | NodeKind::StaticBlock
        | NodeKind::BlockStatement
        | NodeKind::ForStatement
        | NodeKind::ForInStatement
        | NodeKind::ForOfStatement
        | NodeKind::SwitchStatement
        | NodeKind::CatchClause
        | NodeKind::WithStatement => true,
        NodeKind::PropertyDefinition { .. } => is_there(behind_first(node.children())),
        _ => false,
    }
}

fn is_direct_eval(node: &Node) -> bool
    ensures { result ≡ is_some (eval_of_call node.now.kind node.now.below) }
{
    match as_direct_eval_call(node) {
        Some(_) => true,
        None => false,
    }
}

// Whether a call of `eval` by name stands anywhere among these nodes. The recursion goes as deep as the
// tree.
fn has_eval(nodes: &[Option<Node>]) -> bool
    ensures { result ≡ has_eval (row nodes.now) }
{
    for node in nodes {
        if let Some(node) = node {
            if is_direct_eval(node) || has_eval(node.children()) {
                return true;
            }
        }
    }
    false
}

// What lies in the scope that a node makes.
fn scope_row(node: &Node) -> &[Option<Node>]
    ensures { row result.now ≡ scope_row node.now.kind node.now.below }
{
    match node.kind() {
        NodeKind::SwitchStatement | NodeKind::WithStatement | NodeKind::PropertyDefinition { .. } =>
            behind_first(node.children()),
        _ => node.children(),
    }
}

/// Whether a direct call of `eval` stands in the scope that a node makes.
pub fn has_eval_inside(node: &Node) -> bool
    ensures inside { result ≡ has_eval (scope_row node.now.kind node.now.below) }
{
    has_eval(scope_row(node))
}

fn function_bits(how: FunctionKind, constructs: bool) -> u16
    ensures bits { result ≡ function_bits how constructs }
    ensures small { result ≤ 36 }
{
    match how {
        FunctionKind::Arrow => 12,
        _ => { if constructs { 36 } else { 4 } }
    }
}

fn form_bits(kind: &NodeKind, constructs: bool) -> u16
    ensures bits { result ≡ form_bits kind.now constructs }
    ensures small { result ≤ 256 }
{
    match kind {
        NodeKind::Program(_) => 2,
        NodeKind::Function { kind, .. } => function_bits(*kind, constructs),
        NodeKind::StaticBlock => 16,
        NodeKind::BlockStatement
        | NodeKind::SwitchStatement
        | NodeKind::ForStatement
        | NodeKind::ForInStatement
        | NodeKind::ForOfStatement => 64,
        NodeKind::CatchClause => 128,
        NodeKind::WithStatement => 256,
        _ => 0,
    }
}

fn bit(set: bool, n: u16) -> u16
    ensures bit { result ≡ bit set n }
    ensures small { result ≤ n }
{
    if set { n } else { 0 }
}

/// The bits of the flags of the scope that a node of this context and this frame makes.
pub fn scope_bits(context: &Context, frame: &Frame, node: &Node) -> u16
    requires frame { frame.now ≡ frame_of context.now frame.now.scope node.now }
    ensures bits { result ≡ scope_bits context.now node.now.kind node.now.below }
{
    let strict = bit(frame.strict(), 1);
    let form = form_bits(node.kind(), context.constructs());
    let eval = bit(has_eval_inside(node), 512);
    strict + form + eval
}

/// The bits of a name that is assigned.
pub fn target_bits(role: Role) -> u8
    ensures bits { result ≡ target_bits role }
{
    match role {
        Role::ReadAndWrite => 3,
        _ => 2,
    }
}

/// The bits of a name that is read.
pub fn read_bits(role: Role) -> u8
    ensures bits { result ≡ read_bits role }
{
    match role {
        Role::Object => 5,
        _ => 1,
    }
}
