// An operation on two sides of which nobody takes the value, and of which both act. And a sum, of which one side does nothing but give a text
// and the other acts.
ghost use Rattle.std.specs.Prelude.{◌≡◌, ◌<◌, [], ◌∷◌, length, slice_index_or, slice_set, OnOk, OnErr, Some, None, true};
ghost use Rattle.std.specs.Option.{option_map};
ghost use Rattle.js_syntax.specs.Node.{row};
ghost use Rattle.scope_counts.specs.Counts.{ids};
ghost use Rattle.min_context.specs.Edited.{evals, Leaves, Edited};
ghost use Rattle.steps.specs.Allowed.TwoSides.{is_empty_text, is_text_type, gives_text, text_emptied, two_sides};
ghost use Rattle.rules.specs.Expressions.Lists.{new_note};
ghost use Rattle.rules.specs.Expressions.Uses.{spot_of};
ghost use Rattle.min_expressions.specs.Kept.{parts_of};
ghost use Rattle.min_expressions.specs.TwoSides as sides;

use crate::indirect::one_field;
use crate::list::{acts_or_is_list, sequence};
use crate::one_sided::mark_branch;
use crate::parts::{Parts, parts_of};
use crate::unused::acts;
use crate::uses::is_unused_from;
use js_effects::{BareContext, ValueType, only_combines, value_type};
use js_syntax::{BinaryOperator, LiteralValue, NodeKind, Text};
use js_tree::{Node, put_child, take};
use min_context::MinifierTraverseCtx;
use std::alloc::{AllocError, Global};

// ---- whether it becomes these

fn both_act(children: &[Option<Node>]) -> bool
    ensures { result ≡ sides.both_act (parts_of (row children.now)) }
{
    match parts_of(children) {
        Parts::Pair(left, right) => acts(left) && acts(right),
        Parts::Triple(_, _, _) => false,
        Parts::Others => false,
    }
}

fn sides_act(node: &Node) -> bool
    ensures { result ≡ sides.sides_act node.now.kind node.now.below }
{
    match node.kind() {
        NodeKind::BinaryExpression(_) => only_combines(node) && both_act(node.children()),
        _ => false,
    }
}

// The same where nobody takes the value of what stands where the walk is.
pub(crate) fn sides_go(node: &Node, ctx: &MinifierTraverseCtx) -> bool
    ensures { result ≡ sides.sides_go (spot_of ctx.now.place) node.now.kind node.now.below }
{
    is_unused_from(ctx.ancestors_above()) && sides_act(node)
}

// ---- and the change

// A sequence of the sides, in the row that they stand in, takes the place of the whole. The new list stands in a row of one field,
// which takes memory. After an error all is as it was.
pub(crate) fn keep_two_sides(
    node: &mut Node,
    ctx: &mut MinifierTraverseCtx,
) -> Result<(), AllocError>
    requires both { sides.sides_act node.old.kind node.old.below ≡ true }
    ensures kept { OnOk result (two_sides (new_note node.old.note) (new_note node.old.note) node.old.kind node.old.below ≡ Some node.new) }
    ensures edited { OnOk result (Edited ctx.old node.old node.new true ctx.new) }
    ensures refused { OnErr result ((node.new ≡ node.old) × (ctx.new ≡ ctx.old)) }
{
    let field = one_field(ctx.alloc())?;
    let span = node.span();
    let sides = node.replace_children(Vec::new(ctx.alloc()));
    let kept = sequence(span, field, span, sides);
    ctx.replace_expression(node, kept);
    Ok(())
}

// ---- which text of a sum becomes the empty one

fn is_empty_text(kind: &NodeKind) -> bool
    ensures { result ≡ is_empty_text kind.now }
{
    match kind {
        NodeKind::Literal(LiteralValue::Text(text)) => text.as_str() == "",
        _ => false,
    }
}

fn is_text_type(value: ValueType) -> bool
    ensures { result ≡ is_text_type value }
{
    matches!(value, ValueType::String)
}

// Whether it does nothing but give a text, as far as its form tells, and isn't the literal of the empty one.
fn gives_text(node: &Node, alloc: Global) -> bool
    ensures { result ≡ gives_text node.now.kind node.now.note node.now.below }
{
    !is_empty_text(node.kind())
        && (!acts_or_is_list(node) && is_text_type(value_type(node, &BareContext::new(alloc))))
}

fn text_between(left: &Node, right: &Node, alloc: Global) -> Option<usize>
    ensures { result ≡ sides.text_between left.now right.now }
{
    if gives_text(left, alloc) && acts(right) {
        Some(0)
    } else if gives_text(right, alloc) && acts(left) {
        Some(1)
    } else {
        None
    }
}

fn text_of_parts(children: &[Option<Node>], alloc: Global) -> Option<usize>
    ensures { result ≡ sides.text_of_parts (parts_of (row children.now)) }
{
    match parts_of(children) {
        Parts::Pair(left, right) => text_between(left, right, alloc),
        Parts::Triple(_, _, _) => None,
        Parts::Others => None,
    }
}

fn text_for(node: &Node, alloc: Global) -> Option<usize>
    ensures { result ≡ sides.text_for node.now.kind node.now.below }
{
    match node.kind() {
        NodeKind::BinaryExpression(BinaryOperator::Addition) => text_of_parts(
            node.children(),
            alloc,
        ),
        _ => None,
    }
}

// The same where nobody takes the value of what stands where the walk is: the index of the text.
pub(crate) fn text_goes(node: &Node, ctx: &MinifierTraverseCtx) -> Option<usize>
    ensures { result ≡ sides.text_goes (spot_of ctx.now.place) node.now.kind node.now.below }
{
    if is_unused_from(ctx.ancestors_above()) {
        text_for(node, ctx.alloc())
    } else {
        None
    }
}

// ---- and the change

// The empty text takes the place of a node. The context is told of that.
fn empty_field(field: &mut Option<Node>, ctx: &mut MinifierTraverseCtx)
    ensures emptied { field.new ≡ option_map sides.emptied field.old }
    ensures left { Leaves ctx.old (λ r. ids r (row (field.old ∷ []))) (evals (row (field.old ∷ []))) ctx.new }
{
    let taken = take(field);
    mark_branch(&taken, ctx);
    if let Some(text) = taken {
        let empty = LiteralValue::Text(Text::new(String::new(ctx.alloc())));
        let mut written = Node::new(NodeKind::Literal(empty), text.span(), Vec::new(ctx.alloc()));
        written.set_id(text.id());
        put_child(field, written);
    }
}

fn empty_at(children: &mut [Option<Node>], index: usize, ctx: &mut MinifierTraverseCtx)
    requires { index < length children.old }
    ensures emptied { children.new ≡ slice_set children.old index (option_map sides.emptied (slice_index_or children.old index None)) }
    ensures left { Leaves ctx.old (λ r. ids r (row (slice_index_or children.old index None ∷ []))) (evals (row (slice_index_or children.old index None ∷ []))) ctx.new }
{
    empty_field(&mut children[index], ctx);
}

// A sum of the empty text and the other side takes the place of the whole, in the row that they stand in.
pub(crate) fn empty_text(node: &mut Node, index: usize, ctx: &mut MinifierTraverseCtx)
    requires text { sides.text_for node.old.kind node.old.below ≡ Some index }
    ensures kept { text_emptied (new_note node.old.note) node.old.kind node.old.below ≡ Some node.new }
    ensures edited { Edited ctx.old node.old node.new true ctx.new }
{
    let span = node.span();
    let mut children = node.replace_children(Vec::new(ctx.alloc()));
    empty_at(children.as_mut_slice(), index, ctx);
    let sum = Node::new(
        NodeKind::BinaryExpression(BinaryOperator::Addition),
        span,
        children,
    );
    ctx.replace_expression(node, sum);
}
