// Which value an expression has, and whether it is true in a test.
ghost use Rattle.std.specs.Prelude.{◌≡◌, ◌++◌, IfOk};
ghost use Rattle.std.specs.Option.{option_map};
ghost use Rattle.js_syntax.specs.Node.{forest_of};
ghost use Rattle.js_effects.specs.Answers.{answers};
ghost use Rattle.js_effects.specs.Each.{inner_at, last};
ghost use Rattle.js_effects.specs.Kinds as kinds;
ghost use Rattle.js_effects.specs.Values as values;
ghost use Rattle.js_effects.specs.KnownValue.{known_view};

use crate::child::{child, inner, inner_child, last_place};
use crate::context::{ConstantEvaluationCtx, MayHaveSideEffectsContext};
use crate::form::{Form, form_of};
use crate::known::{KnownValue, conditional_known, logical_known, truth};
use crate::operator::{binary_known, unary_known};
use crate::types::{is_global_undefined, part_type};
use crate::value::ConstantValue;
use js_syntax::{BinaryOperator, LiteralValue, NodeKind, ReferenceId, Text, UnaryOperator};
use js_tree::Node;
use std::alloc::{AllocError, Global};

fn text_of_kind(kind: &NodeKind) -> Option<&str>
    ensures { option_map (λ s. s.now) result ≡ values.text_of_kind kind.now }
{
    match kind {
        NodeKind::Literal(LiteralValue::Text(text)) => Some(text.as_str()),
        _ => None,
    }
}

// The text of a literal.
fn text_of(node: &Node) -> Option<&str>
    ensures { option_map (λ s. s.now) result ≡ values.text_of (inner_at 0 (forest_of node.now)) }
{
    match inner(node) {
        Some(node) => text_of_kind(node.kind()),
        None => None,
    }
}

fn part_text(node: &Node, at: usize) -> Option<&str>
    ensures { option_map (λ s. s.now) result ≡ values.text_of (inner_at at node.now.below) }
{
    match inner_child(node, at) {
        Some(node) => text_of_kind(node.kind()),
        None => None,
    }
}

fn known_of_value<'a>(value: &'a LiteralValue) -> KnownValue<'a>
    ensures { known_view result ≡ values.exactly (values.literal_constant value.now) }
{
    match value {
        LiteralValue::Null => KnownValue::Null,
        LiteralValue::Boolean(truth) => KnownValue::Boolean(*truth),
        LiteralValue::Number(number) => KnownValue::Number(*number),
        LiteralValue::Text(text) => KnownValue::Text(text.as_str(), ""),
    }
}

fn known_of_literal<'a>(kind: &'a NodeKind) -> KnownValue<'a>
    ensures { known_view result ≡ values.known_of_literal kind.now }
{
    match kind {
        NodeKind::Literal(value) => known_of_value(value),
        _ => KnownValue::Unknown,
    }
}

fn known_of_constant<'a>(constant: &'a ConstantValue) -> KnownValue<'a>
    ensures { known_view result ≡ values.exactly constant.now }
{
    match constant {
        ConstantValue::Number(number) => KnownValue::Number(*number),
        ConstantValue::Text(text) => KnownValue::Text(text.as_str(), ""),
        ConstantValue::Boolean(truth) => KnownValue::Boolean(*truth),
        ConstantValue::Null => KnownValue::Null,
        ConstantValue::Undefined => KnownValue::Undefined,
    }
}

fn known_by_number<'a, C: MayHaveSideEffectsContext>(
    number: Option<u32>,
    ctx: &'a C,
) -> KnownValue<'a>
    ensures { known_view result ≡ values.known_by_number (C.names ctx.now).constant number }
{
    match number {
        Some(number) => match ctx.get_constant_value_for_reference_id(ReferenceId(number)) {
            Some(constant) => known_of_constant(constant),
            None => KnownValue::Unknown,
        },
        None => KnownValue::Unknown,
    }
}

fn known_of_name<'a, C: MayHaveSideEffectsContext>(node: &'a Node, ctx: &'a C) -> KnownValue<'a>
    ensures { known_view result ≡ values.known_of_name (answers (C.names ctx.now) (C.effects ctx.now)) node.now.kind node.now.note }
{
    if ctx.inside_with() {
        KnownValue::Unknown
    } else if is_global_undefined(node, ctx) {
        KnownValue::Undefined
    } else {
        known_by_number(node.id(), ctx)
    }
}

/// What is known of an expression's value. The recursion goes as deep as the tree.
#[cycle(known)]
fn known<'a, C: MayHaveSideEffectsContext>(node: &'a Node, ctx: &'a C) -> KnownValue<'a>
    ensures { known_view result ≡ values.known_of (answers (C.names ctx.now) (C.effects ctx.now)) (forest_of node.now) }
{
    match form_of(node.kind()) {
        Form::Literal => known_of_literal(node.kind()),
        Form::Object | Form::New => KnownValue::Truth(true),
        Form::Name => known_of_name(node, ctx),
        Form::First => part_known(node, 0, ctx),
        Form::Last => last_known(node, ctx),
        Form::Conditional => conditional_known(
            &part_known(node, 0, ctx),
            &part_known(node, 1, ctx),
            &part_known(node, 2, ctx),
        ),
        Form::Logical(operator) => logical_known(
            operator,
            &part_known(node, 0, ctx),
            &part_known(node, 1, ctx),
        ),
        Form::Unary(operator) => known_of_unary(node, operator, ctx),
        Form::Binary(operator) => known_of_binary(node, operator, ctx),
        Form::Template | Form::Right | Form::Other => KnownValue::Unknown,
    }
}

#[cycle(known)]
fn known_of_unary<'a, C: MayHaveSideEffectsContext>(
    node: &'a Node,
    operator: UnaryOperator,
    ctx: &'a C,
) -> KnownValue<'a>
    ensures { known_view result ≡ values.unary_known operator (kinds.part_type (answers (C.names ctx.now) (C.effects ctx.now)) 0 node.now.below) (values.part_known (answers (C.names ctx.now) (C.effects ctx.now)) 0 node.now.below) }
{
    let value_type = part_type(node, 0, ctx);
    unary_known(operator, value_type, &part_known(node, 0, ctx))
}

#[cycle(known)]
fn known_of_binary<'a, C: MayHaveSideEffectsContext>(
    node: &'a Node,
    operator: BinaryOperator,
    ctx: &'a C,
) -> KnownValue<'a>
    ensures { known_view result ≡ values.binary_known operator (values.text_of (inner_at 0 node.now.below)) (values.text_of (inner_at 1 node.now.below)) (values.part_known (answers (C.names ctx.now) (C.effects ctx.now)) 0 node.now.below) (values.part_known (answers (C.names ctx.now) (C.effects ctx.now)) 1 node.now.below) }
{
    let left = part_known(node, 0, ctx);
    let right = part_known(node, 1, ctx);
    binary_known(
        operator,
        part_text(node, 0),
        part_text(node, 1),
        &left,
        &right,
    )
}

// Of what stands last below a node.
#[cycle(known)]
fn last_known<'a, C: MayHaveSideEffectsContext>(node: &'a Node, ctx: &'a C) -> KnownValue<'a>
    ensures { known_view result ≡ last values.unknown (values.knowns (answers (C.names ctx.now) (C.effects ctx.now)) node.now.below) }
{
    part_known(node, last_place(node), ctx)
}

// Of what stands at a place below a node.
#[cycle(known)]
fn part_known<'a, C: MayHaveSideEffectsContext>(
    node: &'a Node,
    at: usize,
    ctx: &'a C,
) -> KnownValue<'a>
    ensures { known_view result ≡ values.part_known (answers (C.names ctx.now) (C.effects ctx.now)) at node.now.below }
{
    match child(node, at) {
        Some(part) => known(part, ctx),
        None => KnownValue::Unknown,
    }
}

fn text_in_two(alloc: Global, front: &str, back: &str) -> Result<Text, AllocError>
    ensures { IfOk result (λ s. s ≡ front.now ++ back.now) }
{
    let mut text = String::from_str(alloc, front)?;
    text.push_str(back)?;
    Ok(Text::new(text))
}

// The value, if it is known, on memory of its own.
fn own_value(alloc: Global, known: &KnownValue) -> Result<Option<ConstantValue>, AllocError>
    ensures { IfOk result (λ v. v ≡ values.value (known_view known.now)) }
{
    match known {
        KnownValue::Number(number) => Ok(Some(ConstantValue::Number(*number))),
        KnownValue::Text(front, back) => {
            let text = text_in_two(alloc, front, back)?;
            Ok(Some(ConstantValue::Text(text)))
        }
        KnownValue::Boolean(truth) => Ok(Some(ConstantValue::Boolean(*truth))),
        KnownValue::Null => Ok(Some(ConstantValue::Null)),
        KnownValue::Undefined => Ok(Some(ConstantValue::Undefined)),
        KnownValue::Truth(_) | KnownValue::Unknown => Ok(None),
    }
}

/// Which value an expression has, as far as its form and the context tell; none, where they don't. The only error is want
/// of memory, for a text.
pub fn evaluate_value<C: ConstantEvaluationCtx>(
    node: &Node,
    ctx: &C,
) -> Result<Option<ConstantValue>, AllocError>
    ensures of_expression { IfOk result (λ v. v ≡ values.value_of (answers (C.names ctx.now) (C.effects ctx.now)) (forest_of node.now)) }
{
    own_value(ctx.alloc(), &known(node, ctx))
}

/// Whether an expression is true in a test, as far as its form and the context tell.
pub fn evaluate_value_to_boolean<C: MayHaveSideEffectsContext>(node: &Node, ctx: &C) -> Option<bool>
    ensures of_expression { result ≡ values.truth_of (answers (C.names ctx.now) (C.effects ctx.now)) (forest_of node.now) }
{
    truth(&known(node, ctx))
}

/// Which value a binary operator gives of two operands, as `evaluate_value` tells it of the whole.
pub fn binary_operation_evaluate_value<C: ConstantEvaluationCtx>(
    operator: BinaryOperator,
    left: &Node,
    right: &Node,
    ctx: &C,
) -> Result<Option<ConstantValue>, AllocError>
    ensures of_operands { IfOk result (λ v. v ≡ values.value_of_binary (answers (C.names ctx.now) (C.effects ctx.now)) operator (forest_of left.now) (forest_of right.now)) }
{
    let left_known = known(left, ctx);
    let right_known = known(right, ctx);
    let both = binary_known(
        operator,
        text_of(left),
        text_of(right),
        &left_known,
        &right_known,
    );
    own_value(ctx.alloc(), &both)
}
