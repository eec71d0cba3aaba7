// What stands in its list behind a jump, or behind what cuts off as one does, never runs, and some statements do nothing whatever they hold.
// They leave, where they declare no name around them.
ghost use Rattle.std.specs.Prelude.{◌≡◌, true, false};
ghost use Rattle.js_syntax.specs.declared.node_kind.NodeKind.TheVariants.{EmptyStatement as empty_statement};
ghost use Rattle.js_syntax.specs.Node.{nothing, row};
ghost use Rattle.js_meaning_near.specs.Near.{at_any, at_first, at_branches, at_both, row_cuts, cuts_off};
ghost use Rattle.scope_counts.specs.Counts.{ids};
ghost use Rattle.min_context.specs.Edited.{evals, Leaves};
ghost use Rattle.steps.specs.Allowed.Unreached.{only_runs};
ghost use Rattle.rules.specs.Expressions.Lists.{new_note};
ghost use Rattle.rules.specs.Expressions.Jumps.{is_inert, emptied_behind, has_inert};
ghost use Rattle.min_statements.specs.Shed.{inert_shed};
ghost use Rattle.min_statements.specs.Behind.{jumped_behind, empty_if_inert};

use crate::idle::does_nothing;
use crate::inside::declares_no_name;
use js_syntax::NodeKind;
use js_tree::Node;
use min_context::MinifierTraverseCtx;
use std::alloc::Global;

// ---- one statement

// A jump, a block in whose list one stands, or an `if` of which both branches are such. The recursion goes as deep as the tree.
#[cycle(cuts)]
fn cuts_off(node: &Node) -> bool
    ensures { result ≡ cuts_off node.now.kind node.now.below }
{
    match node.kind() {
        NodeKind::BreakStatement(_)
        | NodeKind::ContinueStatement(_)
        | NodeKind::ReturnStatement
        | NodeKind::ThrowStatement => true,
        NodeKind::BlockStatement => first_cuts(node.children()),
        NodeKind::Statements => any_cuts(node.children()),
        NodeKind::IfStatement => branches_cut(node.children()),
        _ => false,
    }
}

#[cycle(cuts)]
fn any_cuts(children: &[Option<Node>]) -> bool
    ensures { result ≡ row_cuts at_any (row children.now) }
{
    let mut rest = children;
    while let [first, others @ ..] = rest {
        if let Some(node) = first {
            if cuts_off(node) {
                return true;
            }
        }
        rest = others;
    }
    false
}

#[cycle(cuts)]
fn first_cuts(children: &[Option<Node>]) -> bool
    ensures { result ≡ row_cuts at_first (row children.now) }
{
    match children {
        [Some(node), ..] => cuts_off(node),
        [None, ..] => false,
        [] => false,
    }
}

#[cycle(cuts)]
fn both_cut(children: &[Option<Node>]) -> bool
    ensures { result ≡ row_cuts at_both (row children.now) }
{
    match children {
        [Some(node), others @ ..] => cuts_off(node) && first_cuts(others),
        [None, ..] => false,
        [] => false,
    }
}

// Of what stands behind a test.
#[cycle(cuts)]
fn branches_cut(children: &[Option<Node>]) -> bool
    ensures { result ≡ row_cuts at_branches (row children.now) }
{
    match children {
        [Some(_), others @ ..] => both_cut(others),
        [None, ..] => false,
        [] => false,
    }
}

// A statement that is no declaration.
pub(crate) fn only_runs(kind: &NodeKind) -> bool
    ensures { result ≡ only_runs kind.now }
{
    match kind {
        NodeKind::ExpressionStatement
        | NodeKind::BlockStatement
        | NodeKind::LabeledStatement(_)
        | NodeKind::IfStatement
        | NodeKind::BreakStatement(_)
        | NodeKind::ContinueStatement(_)
        | NodeKind::ReturnStatement
        | NodeKind::ThrowStatement
        | NodeKind::WhileStatement
        | NodeKind::DoWhileStatement
        | NodeKind::ForStatement
        | NodeKind::ForInStatement
        | NodeKind::ForOfStatement
        | NodeKind::SwitchStatement
        | NodeKind::TryStatement
        | NodeKind::WithStatement
        | NodeKind::DebuggerStatement => true,
        _ => false,
    }
}

// `jumped` says whether what cuts off stands before it in its list.
fn is_inert(jumped: bool, node: &Node, alloc: Global) -> bool
    ensures { result ≡ is_inert jumped node.now.kind node.now.below }
{
    (jumped || does_nothing(node, alloc)) && (only_runs(node.kind()) && declares_no_name(node))
}

// ---- a list

/// Whether anything of a list of statements never runs for what stands before it, or does nothing.
pub(crate) fn has_inert(children: &[Option<Node>], alloc: Global) -> bool
    ensures { result ≡ has_inert false (row children.now) }
{
    let mut jumped = false;
    let mut rest = children;
    while let [first, others @ ..] = rest {
        if let Some(node) = first {
            if is_inert(jumped, node, alloc) {
                return true;
            }
            jumped = jumped || cuts_off(node);
        }
        rest = others;
    }
    false
}

// Tells the context of all that never runs or does nothing.
fn drop_inert(items: &[Option<Node>], ctx: &mut MinifierTraverseCtx)
    requires asked { ctx.old.requested ≡ true }
    ensures left { Leaves ctx.old (λ r. inert_shed (ids r) false (row items.now)) (inert_shed evals false (row items.now)) ctx.new }
{
    let mut jumped = false;
    let mut rest = items;
    while let [first, others @ ..] = rest {
        if let Some(node) = first {
            if is_inert(jumped, node, ctx.alloc()) {
                ctx.drop_statement(node);
            } else {
                jumped = jumped || cuts_off(node);
            }
        }
        rest = others;
    }
}

// ---- and then it is let go

fn jumped_behind(jumped: bool, child: &Option<Node>) -> bool
    ensures { result ≡ jumped_behind jumped child.now }
{
    match child {
        Some(node) => jumped || cuts_off(node),
        None => jumped,
    }
}

fn empty(alloc: Global, node: &mut Node)
    ensures { node.new ≡ record { kind = empty_statement; note = new_note node.old.note; below = nothing } }
{
    *node = Node::new(NodeKind::EmptyStatement, node.span(), Vec::new(alloc));
}

fn empty_child(alloc: Global, jumped: bool, child: &mut Option<Node>)
    ensures { child.new ≡ empty_if_inert jumped child.old }
{
    if let Some(node) = child {
        if is_inert(jumped, node, alloc) {
            empty(alloc, node);
        }
    }
}

fn empty_each(alloc: Global, items: &mut [Option<Node>])
    ensures { row items.new ≡ emptied_behind false (row items.old) }
{
    let mut jumped = false;
    for item in items.iter_mut() {
        let behind = jumped_behind(jumped, item);
        empty_child(alloc, jumped, item);
        jumped = behind;
    }
}

// An empty statement comes in the place of each that never runs or does nothing.
fn empty_inert(alloc: Global, node: &mut Node)
    ensures { node.new ≡ record node.old { below = emptied_behind false node.old.below } }
{
    let mut items = node.replace_children(Vec::new(alloc));
    empty_each(alloc, items.as_mut_slice());
    node.replace_children(items);
}

/// The same, where there is any; the context is told before.
pub(crate) fn clear_inert(node: &mut Node, ctx: &mut MinifierTraverseCtx)
    requires asked { ctx.old.requested ≡ true }
    ensures left { Leaves ctx.old (λ r. inert_shed (ids r) false node.old.below) (inert_shed evals false node.old.below) ctx.new }
    ensures emptied { node.new ≡ record node.old { below = emptied_behind false node.old.below } }
{
    if has_inert(node.children(), ctx.alloc()) {
        drop_inert(node.children(), ctx);
        empty_inert(ctx.alloc(), node);
    }
}
