// What counts of an expression on a test that acts, behind that test.
ghost use Rattle.std.specs.Prelude.{◌≡◌, OnOk, OnErr, Some, true};
ghost use Rattle.js_syntax.specs.Node.{row};
ghost use Rattle.min_context.specs.Edited.{Edited};
ghost use Rattle.rules.specs.Expressions.Indirect.{test_and_part};
ghost use Rattle.min_expressions.specs.Kept.{parts_of};
ghost use Rattle.min_expressions.specs.BehindTest.{leaving, leaving_of, branch_leaves, is_so, follows_of, right_follows};

use crate::indirect::one_field;
use crate::known::{truth_beside, way_beside};
use crate::list::sequence;
use crate::one_sided::mark_branch;
use crate::parts::{Parts, parts_of};
use js_syntax::{LogicalOperator, NodeKind};
use js_tree::Node;
use min_context::MinifierTraverseCtx;
use std::alloc::{AllocError, Global};

// ---- of a conditional, the branch that leaves

fn leaving(truth: Option<bool>) -> Option<usize>
    ensures { result ≡ leaving truth }
{
    match truth {
        Some(true) => Some(2),
        Some(false) => Some(1),
        None => None,
    }
}

fn leaving_of(children: &[Option<Node>], alloc: Global) -> Option<usize>
    ensures { result ≡ leaving_of (parts_of (row children.now)) }
{
    match parts_of(children) {
        Parts::Triple(test, _, _) => leaving(truth_beside(test, alloc)),
        Parts::Pair(_, _) => None,
        Parts::Others => None,
    }
}

pub(crate) fn branch_leaves(node: &Node, alloc: Global) -> Option<usize>
    ensures { result ≡ branch_leaves node.now.kind node.now.below }
{
    match node.kind() {
        NodeKind::ConditionalExpression => leaving_of(node.children(), alloc),
        _ => None,
    }
}

// ---- of a logical expression, whether the right side follows

fn is_so(known: Option<bool>) -> bool
    ensures { result ≡ is_so known }
{
    match known {
        Some(holds) => holds,
        None => false,
    }
}

fn follows_of(operator: LogicalOperator, children: &[Option<Node>], alloc: Global) -> bool
    ensures { result ≡ follows_of operator (parts_of (row children.now)) }
{
    match parts_of(children) {
        Parts::Pair(left, _) => is_so(way_beside(operator, left, alloc)),
        Parts::Triple(_, _, _) => false,
        Parts::Others => false,
    }
}

pub(crate) fn right_follows(node: &Node, alloc: Global) -> bool
    ensures { result ≡ right_follows node.now.kind node.now.below }
{
    match node.kind() {
        NodeKind::LogicalExpression(operator) => follows_of(*operator, node.children(), alloc),
        _ => false,
    }
}

// ---- and the changes

// A sequence of the test and the branch that is taken, in the row that they stand in, takes the place of the whole. The context is told of
// the other branch. The new list stands in a row of one field, which takes memory. After an error all is as it was.
pub(crate) fn keep_branch(
    node: &mut Node,
    at: usize,
    ctx: &mut MinifierTraverseCtx,
) -> Result<(), AllocError>
    requires one { branch_leaves node.old.kind node.old.below ≡ Some at }
    ensures kept { OnOk result (test_and_part node.old.note node.old.kind node.old.below ≡ Some node.new) }
    ensures edited { OnOk result (Edited ctx.old node.old node.new true ctx.new) }
    ensures refused { OnErr result ((node.new ≡ node.old) × (ctx.new ≡ ctx.old)) }
{
    let field = one_field(ctx.alloc())?;
    let span = node.span();
    let mut children = node.replace_children(Vec::new(ctx.alloc()));
    let branch = children.remove(at);
    mark_branch(&branch, ctx);
    let kept = sequence(span, field, span, children);
    ctx.replace_expression(node, kept);
    Ok(())
}

// A sequence of both sides, likewise.
pub(crate) fn keep_both(node: &mut Node, ctx: &mut MinifierTraverseCtx) -> Result<(), AllocError>
    requires both { right_follows node.old.kind node.old.below ≡ true }
    ensures kept { OnOk result (test_and_part node.old.note node.old.kind node.old.below ≡ Some node.new) }
    ensures edited { OnOk result (Edited ctx.old node.old node.new true ctx.new) }
    ensures refused { OnErr result ((node.new ≡ node.old) × (ctx.new ≡ ctx.old)) }
{
    let field = one_field(ctx.alloc())?;
    let span = node.span();
    let sides = node.replace_children(Vec::new(ctx.alloc()));
    let kept = sequence(span, field, span, sides);
    ctx.replace_expression(node, kept);
    Ok(())
}
