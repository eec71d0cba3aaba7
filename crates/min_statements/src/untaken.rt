// Of a branch that isn't taken, what declares no name around it leaves its lists, and the values of declarations become zeros.
ghost use Rattle.std.specs.Prelude.{◌≡◌, Some, true, false};
ghost use Rattle.js_syntax.specs.Node.{row};
ghost use Rattle.scope_counts.specs.Counts.{ids};
ghost use Rattle.min_context.specs.Edited.{evals, Leaves};
ghost use Rattle.min_expressions.specs.Kept.{kept_if};
ghost use Rattle.steps.specs.Allowed.Untaken.{runs_inside};
ghost use Rattle.rules.specs.Expressions.Untaken.{is_list, may_go, row_loses, branch_left, branch_loses};
ghost use Rattle.min_statements.specs.Untaken.{by_truth, among, untaken_at, row_shed, inside_shed, one_shed, shed_of, shed_at, goes_there, kept_of, each_rid, rid_one, rid_at};

use crate::inert::only_runs;
use crate::inside::declares_no_name;
use crate::values::{tell_values, values_drop_inside, zero_values};
use js_syntax::NodeKind;
use js_tree::Node;
use min_context::MinifierTraverseCtx;
use min_expressions::truth_given;
use std::alloc::Global;

// ---- one statement

pub(crate) fn is_list(kind: &NodeKind) -> bool
    ensures { result ≡ is_list kind.now }
{
    matches!(kind, NodeKind::Statements)
}

// Statements, and what they hold that is run where they are.
pub(crate) fn runs_inside(kind: &NodeKind) -> bool
    ensures { result ≡ runs_inside kind.now }
{
    match kind {
        NodeKind::Statements
        | NodeKind::BlockStatement
        | NodeKind::IfStatement
        | NodeKind::LabeledStatement(_)
        | NodeKind::WhileStatement
        | NodeKind::DoWhileStatement
        | NodeKind::ForStatement
        | NodeKind::ForInStatement
        | NodeKind::ForOfStatement
        | NodeKind::WithStatement
        | NodeKind::SwitchStatement
        | NodeKind::Cases
        | NodeKind::SwitchCase
        | NodeKind::TryStatement
        | NodeKind::CatchClause => true,
        _ => false,
    }
}

// `listed` says whether it is an item of a list.
fn may_go(listed: bool, node: &Node) -> bool
    ensures { result ≡ may_go listed node.now.kind node.now.below }
{
    listed && (only_runs(node.kind()) && declares_no_name(node))
}

// ---- whether something goes. The recursion goes as deep as the tree.

#[cycle(loses)]
fn branch_loses(node: &Node) -> bool
    ensures { result ≡ branch_loses node.now.kind node.now.below }
{
    if runs_inside(node.kind()) {
        row_loses(is_list(node.kind()), node.children())
    } else {
        values_drop_inside(node)
    }
}

#[cycle(loses)]
fn row_loses(listed: bool, children: &[Option<Node>]) -> bool
    ensures { result ≡ row_loses listed (row children.now) }
{
    let mut rest = children;
    while let [first, others @ ..] = rest {
        if let Some(node) = first {
            if may_go(listed, node) {
                return true;
            }
            if branch_loses(node) {
                return true;
            }
        }
        rest = others;
    }
    false
}

// ---- which branch

fn index_where(holds: bool, at: usize) -> Option<usize>
    ensures { result ≡ kept_if holds at }
{
    if holds { Some(at) } else { None }
}

fn untaken_consequent(branches: &[Option<Node>]) -> Option<usize>
    ensures { result ≡ by_truth (Some false) (row branches.now) }
{
    match branches {
        [Some(consequent), ..] => index_where(branch_loses(consequent), 1),
        [None, ..] => None,
        [] => None,
    }
}

fn untaken_alternate(branches: &[Option<Node>]) -> Option<usize>
    ensures { result ≡ by_truth (Some true) (row branches.now) }
{
    match branches {
        [Some(_), Some(alternate), ..] => index_where(branch_loses(alternate), 2),
        [Some(_), None, ..] => None,
        [Some(_)] => None,
        [None, ..] => None,
        [] => None,
    }
}

fn by_truth(truth: Option<bool>, branches: &[Option<Node>]) -> Option<usize>
    ensures { result ≡ by_truth truth (row branches.now) }
{
    match truth {
        Some(true) => untaken_alternate(branches),
        Some(false) => untaken_consequent(branches),
        None => None,
    }
}

fn among(parts: &[Option<Node>], alloc: Global) -> Option<usize>
    ensures { result ≡ among (row parts.now) }
{
    match parts {
        [Some(test), branches @ ..] => by_truth(truth_given(test, alloc), branches),
        [None, ..] => None,
        [] => None,
    }
}

/// The branch that isn't taken, where something goes of it, by its index.
pub(crate) fn untaken_at(node: &Node, alloc: Global) -> Option<usize>
    ensures { result ≡ untaken_at node.now.kind node.now.below }
{
    let NodeKind::IfStatement = node.kind() else {
        return None;
    };
    among(node.children(), alloc)
}

// ---- the context is told

#[cycle(drops)]
fn drop_inside(node: &Node, ctx: &mut MinifierTraverseCtx)
    requires asked { ctx.old.requested ≡ true }
    ensures left { Leaves ctx.old (λ r. inside_shed (ids r) node.now.kind node.now.below) (inside_shed evals node.now.kind node.now.below) ctx.new }
{
    if runs_inside(node.kind()) {
        drop_row(is_list(node.kind()), node.children(), ctx);
    } else {
        tell_values(node, ctx);
    }
}

#[cycle(drops)]
fn drop_item(listed: bool, node: &Node, ctx: &mut MinifierTraverseCtx)
    requires asked { ctx.old.requested ≡ true }
    ensures left { Leaves ctx.old (λ r. one_shed (ids r) listed node.now) (one_shed evals listed node.now) ctx.new }
{
    if may_go(listed, node) {
        ctx.drop_statement(node);
    } else {
        drop_inside(node, ctx);
    }
}

#[cycle(drops)]
fn drop_row(listed: bool, children: &[Option<Node>], ctx: &mut MinifierTraverseCtx)
    requires asked { ctx.old.requested ≡ true }
    ensures left { Leaves ctx.old (λ r. row_shed (ids r) listed (row children.now)) (row_shed evals listed (row children.now)) ctx.new }
{
    let mut rest = children;
    while let [first, others @ ..] = rest {
        if let Some(node) = first {
            drop_item(listed, node, ctx);
        }
        rest = others;
    }
}

fn drop_child(child: &Option<Node>, ctx: &mut MinifierTraverseCtx)
    requires asked { ctx.old.requested ≡ true }
    ensures left { Leaves ctx.old (λ r. shed_of (ids r) child.now) (shed_of evals child.now) ctx.new }
{
    if let Some(node) = child {
        drop_inside(node, ctx);
    }
}

/// Tells the context of all that goes of a branch.
pub(crate) fn drop_branch(parts: &[Option<Node>], at: usize, ctx: &mut MinifierTraverseCtx)
    requires asked { ctx.old.requested ≡ true }
    ensures left { Leaves ctx.old (λ r. shed_at (ids r) at (row parts.now)) (shed_at evals at (row parts.now)) ctx.new }
{
    if at < parts.len() {
        drop_child(&parts[at], ctx);
    }
}

// ---- and then it is let go

fn goes_there(listed: bool, item: &Option<Node>) -> bool
    ensures { result ≡ goes_there listed item.now }
{
    match item {
        Some(node) => may_go(listed, node),
        None => false,
    }
}

fn keep_items(listed: bool, items: &mut Vec<Option<Node>>)
    ensures { row items.new.items ≡ kept_of listed (row items.old.items) }
{
    items.retain(|item| !goes_there(listed, item));
}

#[cycle(rid)]
fn rid_inside(alloc: Global, node: &mut Node)
    ensures { node.new ≡ record node.old { below = branch_left node.old.kind node.old.below } }
{
    if runs_inside(node.kind()) {
        let listed = is_list(node.kind());
        let mut items = node.replace_children(Vec::new(alloc));
        keep_items(listed, &mut items);
        rid_each(alloc, items.as_mut_slice());
        node.replace_children(items);
    } else {
        zero_values(alloc, node);
    }
}

#[cycle(rid)]
fn rid_each(alloc: Global, items: &mut [Option<Node>])
    ensures { row items.new ≡ each_rid (row items.old) }
{
    for item in items.iter_mut() {
        rid_child(alloc, item);
    }
}

#[cycle(rid)]
fn rid_child(alloc: Global, child: &mut Option<Node>)
    ensures { child.new ≡ rid_one child.old }
{
    if let Some(node) = child {
        rid_inside(alloc, node);
    }
}

fn rid_among(alloc: Global, parts: &mut [Option<Node>], at: usize)
    ensures { row parts.new ≡ rid_at at (row parts.old) }
{
    if at < parts.len() {
        rid_child(alloc, &mut parts[at]);
    }
}

/// A branch without what goes of it.
pub(crate) fn rid_branch(alloc: Global, node: &mut Node, at: usize)
    ensures { node.new ≡ record node.old { below = rid_at at node.old.below } }
{
    let mut parts = node.replace_children(Vec::new(alloc));
    rid_among(alloc, parts.as_mut_slice(), at);
    node.replace_children(parts);
}
