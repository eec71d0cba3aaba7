// Which child of an expression comes out of it, and how.
ghost use Rattle.std.specs.Prelude.{◌≡◌, ◌<◌, length, slice_set, slice_index_or, is_some, Some, None, true, false};
ghost use Rattle.js_syntax.specs.Node.{row};
ghost use Rattle.scope_counts.specs.Counts.{ids};
ghost use Rattle.min_context.specs.Edited.{evals, Leaves, Edited};
ghost use Rattle.steps.specs.Allowed.KnownConditional.{truth_known};
ghost use Rattle.steps.specs.Allowed.KnownSide.{side_known};
ghost use Rattle.rules.specs.Expressions.Uses.{spot_of};
ghost use Rattle.min_expressions.specs.Kept.{child_at, kept_if, branch_kept, conditional_keeps, side_kept, logical_keeps, is_call, stands_at};

use crate::bare::may_stand_bare;
use crate::known::{side_known, truth_known};
use crate::parts::{Parts, parts_of};
use js_syntax::{LogicalOperator, NodeKind};
use js_tree::{Node, take};
use min_context::MinifierTraverseCtx;

fn kept_if(node: &Node, at: usize, ctx: &MinifierTraverseCtx) -> Option<usize>
    ensures { result ≡ kept_if (stands_at (spot_of ctx.now.place) node.now) at }
{
    if may_stand_bare(node, ctx) {
        Some(at)
    } else {
        None
    }
}

fn branch_kept(
    test: &Node,
    consequent: &Node,
    alternate: &Node,
    ctx: &MinifierTraverseCtx,
) -> Option<usize>
    ensures { result ≡ branch_kept (spot_of ctx.now.place) (truth_known test.now.kind test.now.note test.now.below) consequent.now alternate.now }
{
    match truth_known(test, ctx.alloc()) {
        Some(true) => kept_if(consequent, 1, ctx),
        Some(false) => kept_if(alternate, 2, ctx),
        None => None,
    }
}

// The branch of a conditional that takes its place.
pub(crate) fn conditional_keeps(node: &Node, ctx: &MinifierTraverseCtx) -> Option<usize>
    ensures { result ≡ conditional_keeps (spot_of ctx.now.place) node.now.kind node.now.below }
{
    let NodeKind::ConditionalExpression = node.kind() else {
        return None;
    };
    match parts_of(node.children()) {
        Parts::Triple(test, consequent, alternate) => branch_kept(test, consequent, alternate, ctx),
        Parts::Pair(_, _) => None,
        Parts::Others => None,
    }
}

fn side_kept(
    operator: LogicalOperator,
    left: &Node,
    right: &Node,
    ctx: &MinifierTraverseCtx,
) -> Option<usize>
    ensures { result ≡ side_kept (spot_of ctx.now.place) (side_known operator left.now.kind left.now.note left.now.below) left.now right.now }
{
    match side_known(operator, left, ctx.alloc()) {
        Some(true) => kept_if(right, 1, ctx),
        Some(false) => kept_if(left, 0, ctx),
        None => None,
    }
}

// The side of a logical expression that takes its place.
pub(crate) fn logical_keeps(node: &Node, ctx: &MinifierTraverseCtx) -> Option<usize>
    ensures { result ≡ logical_keeps (spot_of ctx.now.place) node.now.kind node.now.below }
{
    let NodeKind::LogicalExpression(operator) = node.kind() else {
        return None;
    };
    match parts_of(node.children()) {
        Parts::Pair(left, right) => side_kept(*operator, left, right, ctx),
        Parts::Triple(_, _, _) => None,
        Parts::Others => None,
    }
}

pub(crate) fn take_at(children: &mut [Option<Node>], at: usize) -> Option<Node>
    requires { at < length children.old }
    ensures taken { result ≡ slice_index_or children.old at None }
    ensures left { children.new ≡ slice_set children.old at None }
{
    take(&mut children[at])
}

// A child leaves its row, and the context is told of the others.
pub(crate) fn take_out(
    children: &mut [Option<Node>],
    at: usize,
    ctx: &mut MinifierTraverseCtx,
) -> Option<Node>
    requires { at < length children.old }
    ensures taken { result ≡ slice_index_or children.old at None }
    ensures left { Leaves ctx.old (λ r. ids r (row (slice_set children.old at None))) (evals (row (slice_set children.old at None))) ctx.new }
{
    let kept = take_at(children, at);
    ctx.mark_row(children);
    kept
}

/// A child takes the place of its parent, which is no call. The context is told of what leaves, and asked for another pass.
pub fn keep_child(node: &mut Node, at: usize, ctx: &mut MinifierTraverseCtx)
    requires there { is_some (child_at at node.old.below) ≡ true }
    requires call { is_call node.old.kind ≡ false }
    ensures kept { child_at at node.old.below ≡ Some node.new }
    ensures edited { Edited ctx.old node.old node.new true ctx.new }
{
    let mut children = node.replace_children(Vec::new(ctx.alloc()));
    if let Some(kept) = take_out(children.as_mut_slice(), at, ctx) {
        ctx.replace_expression(node, kept);
    }
}
