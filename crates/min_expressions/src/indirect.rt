// What counts of an expression that a test decides which is known, behind a zero.
ghost use Rattle.std.specs.Prelude.{◌≡◌, ◌≤◌, [], ◌∷◌, length, Some, None, pos, OnOk, OnErr, IfOk, true, false, is_some};
ghost use Rattle.std.specs.Option.{option_map};
ghost use Rattle.js_syntax.specs.declared.node_kind.NodeKind.TheVariants.{Literal as literal};
ghost use Rattle.js_syntax.specs.declared.value.LiteralValue.TheVariants as value;
ghost use Rattle.js_syntax.specs.Node.{nothing, row};
ghost use Rattle.min_context.specs.Edited.{Edited};
ghost use Rattle.steps.specs.Allowed.KnownConditional.{truth_known};
ghost use Rattle.steps.specs.Allowed.KnownSide.{side_known};
ghost use Rattle.rules.specs.Expressions.Uses.{spot_of};
ghost use Rattle.min_expressions.specs.Kept.{child_at, kept_if, is_call, matters_at, parts_of};
ghost use Rattle.min_expressions.specs.Indirect.{branch_behind, branch_of, side_behind, side_of, goes_behind, put_behind};

use crate::bare::matters_here;
use crate::kept::take_out;
use crate::known::{side_known, truth_known};
use crate::list::sequence;
use crate::parts::{Parts, parts_of};
use js_syntax::{LiteralValue, LogicalOperator, NodeKind, Span};
use js_tree::{Node, put_child};
use min_context::MinifierTraverseCtx;
use std::alloc::{AllocError, Global};

// ---- which child

fn index_if_matters(node: &Node, at: usize, ctx: &MinifierTraverseCtx) -> Option<usize>
    ensures { result ≡ kept_if (matters_at (spot_of ctx.now.place) node.now) at }
{
    if matters_here(node, ctx) {
        Some(at)
    } else {
        None
    }
}

fn branch_behind(
    test: &Node,
    consequent: &Node,
    alternate: &Node,
    ctx: &MinifierTraverseCtx,
) -> Option<usize>
    ensures { result ≡ branch_behind (spot_of ctx.now.place) (truth_known test.now.kind test.now.note test.now.below) consequent.now alternate.now }
{
    match truth_known(test, ctx.alloc()) {
        Some(true) => index_if_matters(consequent, 1, ctx),
        Some(false) => index_if_matters(alternate, 2, ctx),
        None => None,
    }
}

fn branch_of(children: &[Option<Node>], ctx: &MinifierTraverseCtx) -> Option<usize>
    ensures { result ≡ branch_of (spot_of ctx.now.place) (parts_of (row children.now)) }
{
    match parts_of(children) {
        Parts::Triple(test, consequent, alternate) => {
            branch_behind(test, consequent, alternate, ctx)
        }
        Parts::Pair(_, _) => None,
        Parts::Others => None,
    }
}

fn side_behind(
    operator: LogicalOperator,
    left: &Node,
    right: &Node,
    ctx: &MinifierTraverseCtx,
) -> Option<usize>
    ensures { result ≡ side_behind (spot_of ctx.now.place) (side_known operator left.now.kind left.now.note left.now.below) right.now }
{
    match side_known(operator, left, ctx.alloc()) {
        Some(true) => index_if_matters(right, 1, ctx),
        Some(false) => None,
        None => None,
    }
}

fn side_of(
    operator: LogicalOperator,
    children: &[Option<Node>],
    ctx: &MinifierTraverseCtx,
) -> Option<usize>
    ensures { result ≡ side_of (spot_of ctx.now.place) operator (parts_of (row children.now)) }
{
    match parts_of(children) {
        Parts::Pair(left, right) => side_behind(operator, left, right, ctx),
        Parts::Triple(_, _, _) => None,
        Parts::Others => None,
    }
}

// The part that counts, if it matters that it doesn't stand there itself.
pub(crate) fn goes_behind(node: &Node, ctx: &MinifierTraverseCtx) -> Option<usize>
    ensures { result ≡ goes_behind (spot_of ctx.now.place) node.now.kind node.now.below }
{
    match node.kind() {
        NodeKind::ConditionalExpression => branch_of(node.children(), ctx),
        NodeKind::LogicalExpression(operator) => side_of(*operator, node.children(), ctx),
        _ => None,
    }
}

// ---- and the change

// The row of a node's one field, with nothing in it yet.
pub(crate) fn one_field(alloc: Global) -> Result<Vec<Option<Node>>, AllocError>
    ensures { IfOk result (λ field. length field.items ≡ 1) }
{
    let mut field = Vec::new(alloc);
    field.push(None)?;
    Ok(field)
}

fn put_two(places: &mut [Option<Node>], first: Node, second: Node)
    requires { length places.old ≡ 2 }
    ensures { places.new ≡ Some first ∷ Some second ∷ [] }
{
    put_child(&mut places[0], first);
    put_child(&mut places[1], second);
}

pub(crate) fn zero(alloc: Global, span: Span) -> Node
    ensures { result ≡ record { kind = literal (value.Number (pos 0)); note = record { span = span; id = None }; below = nothing } }
{
    Node::new(
        NodeKind::Literal(LiteralValue::Number(0)),
        span,
        Vec::new(alloc),
    )
}

// A sequence of a zero and this part, in the row of one field and in one of two places or more that are given.
pub(crate) fn behind_zero(
    alloc: Global,
    span: Span,
    field: Vec<Option<Node>>,
    mut parts: Vec<Option<Node>>,
    part: Node,
) -> Node
    requires field { length field.items ≡ 1 }
    requires parts { 2 ≤ length parts.items }
    ensures { result ≡ put_behind (record { span = span; id = None }) part }
{
    parts.truncate(2);
    put_two(parts.as_mut_slice(), zero(alloc, span), part);
    sequence(span, field, span, parts)
}

// A child comes to stand behind a zero in the place of its parent. The context is told of the others. After an error all is as it was.
pub(crate) fn keep_behind_zero(
    node: &mut Node,
    at: usize,
    ctx: &mut MinifierTraverseCtx,
) -> Result<(), AllocError>
    requires there { is_some (child_at at node.old.below) ≡ true }
    requires second { 1 ≤ at }
    requires call { is_call node.old.kind ≡ false }
    ensures kept { OnOk result (option_map (put_behind node.old.note) (child_at at node.old.below) ≡ Some node.new) }
    ensures edited { OnOk result (Edited ctx.old node.old node.new true ctx.new) }
    ensures refused { OnErr result ((node.new ≡ node.old) × (ctx.new ≡ ctx.old)) }
{
    let field = one_field(ctx.alloc())?;
    let span = node.span();
    let mut children = node.replace_children(Vec::new(ctx.alloc()));
    if let Some(part) = take_out(children.as_mut_slice(), at, ctx) {
        let kept = behind_zero(ctx.alloc(), span, field, children, part);
        ctx.replace_expression(node, kept);
    }
    Ok(())
}
