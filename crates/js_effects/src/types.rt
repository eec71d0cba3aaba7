// Of which type the value of an expression is.
ghost use Rattle.std.specs.Prelude.{◌≡◌, [], ◌∷◌};
ghost use Rattle.js_syntax.specs.Node.{forest_of, row};
ghost use Rattle.js_effects.specs.Answers.{answers};
ghost use Rattle.js_effects.specs.Each.{last};
ghost use Rattle.js_effects.specs.declared.value.ValueType.TheVariants.{Undetermined};
ghost use Rattle.js_effects.specs.Kinds as kinds;

use crate::child::{child, last_place};
use crate::context::MayHaveSideEffectsContext;
use crate::form::{Form, form_of};
use crate::value::ValueType;
use js_syntax::{BinaryOperator, LiteralValue, NodeKind, ReferenceId, UnaryOperator};
use js_tree::Node;

pub(crate) fn is_primitive(value_type: ValueType) -> bool
    ensures { result ≡ kinds.is_primitive value_type }
{
    !matches!(value_type, ValueType::Object | ValueType::Undetermined)
}

fn common(left: ValueType, right: ValueType) -> ValueType
    ensures { result ≡ kinds.common left right }
{
    if left == right {
        left
    } else {
        ValueType::Undetermined
    }
}

fn literal_type(value: &LiteralValue) -> ValueType
    ensures { result ≡ kinds.literal_type value.now }
{
    match value {
        LiteralValue::Null => ValueType::Null,
        LiteralValue::Boolean(_) => ValueType::Boolean,
        LiteralValue::Number(_) => ValueType::Number,
        LiteralValue::Text(_) => ValueType::String,
    }
}

fn type_of_literal(kind: &NodeKind) -> ValueType
    ensures { result ≡ kinds.type_of_literal kind.now }
{
    match kind {
        NodeKind::Literal(value) => literal_type(value),
        _ => ValueType::Undetermined,
    }
}

fn of_primitives(primitive: bool, value_type: ValueType) -> ValueType
    ensures { result ≡ kinds.of_primitives primitive value_type }
{
    if primitive {
        value_type
    } else {
        ValueType::Undetermined
    }
}

fn sum_type(left: ValueType, right: ValueType) -> ValueType
    ensures { result ≡ kinds.sum_type left right }
{
    if left == ValueType::String || right == ValueType::String {
        ValueType::String
    } else {
        ValueType::Number
    }
}

fn unary_type(operator: UnaryOperator, operand: ValueType) -> ValueType
    ensures { result ≡ kinds.unary_type operator operand }
{
    match operator {
        UnaryOperator::LogicalNot => ValueType::Boolean,
        UnaryOperator::Typeof => ValueType::String,
        UnaryOperator::Void => ValueType::Undefined,
        UnaryOperator::Delete => ValueType::Undetermined,
        UnaryOperator::UnaryNegation | UnaryOperator::UnaryPlus | UnaryOperator::BitwiseNot => {
            of_primitives(is_primitive(operand), ValueType::Number)
        }
    }
}

pub(crate) fn compares(operator: BinaryOperator) -> bool
    ensures { result ≡ kinds.compares operator }
{
    matches!(
        operator,
        BinaryOperator::Equality
            | BinaryOperator::Inequality
            | BinaryOperator::StrictEquality
            | BinaryOperator::StrictInequality
            | BinaryOperator::LessThan
            | BinaryOperator::LessEqualThan
            | BinaryOperator::GreaterThan
            | BinaryOperator::GreaterEqualThan
    )
}

pub(crate) fn asks_an_object(operator: BinaryOperator) -> bool
    ensures { result ≡ kinds.asks_an_object operator }
{
    matches!(operator, BinaryOperator::In | BinaryOperator::Instanceof)
}

fn arithmetic_type(operator: BinaryOperator, left: ValueType, right: ValueType) -> ValueType
    ensures { result ≡ kinds.arithmetic_type operator left right }
{
    match operator {
        BinaryOperator::Addition => sum_type(left, right),
        _ => ValueType::Number,
    }
}

fn binary_type(operator: BinaryOperator, left: ValueType, right: ValueType) -> ValueType
    ensures { result ≡ kinds.binary_type operator left right }
{
    if compares(operator) || asks_an_object(operator) {
        ValueType::Boolean
    } else {
        let primitive = is_primitive(left) && is_primitive(right);
        of_primitives(primitive, arithmetic_type(operator, left, right))
    }
}

/// Whether a node is the name `undefined`.
pub(crate) fn is_named_undefined(kind: &NodeKind) -> bool
    ensures { result ≡ kinds.is_named_undefined kind.now }
{
    match kind {
        NodeKind::ReferenceName(name) => name.as_str() == "undefined",
        _ => false,
    }
}

/// Whether a node is the global name `undefined`.
pub(crate) fn is_global_undefined<C: MayHaveSideEffectsContext>(node: &Node, ctx: &C) -> bool
    ensures { result ≡ kinds.is_global_undefined (answers (C.names ctx.now) (C.effects ctx.now)) node.now.kind node.now.note }
{
    is_named_undefined(node.kind()) && ctx.is_global_reference(node)
}

fn type_by_number<C: MayHaveSideEffectsContext>(number: Option<u32>, ctx: &C) -> ValueType
    ensures { result ≡ kinds.type_by_number (C.names ctx.now).constant_type number }
{
    match number {
        Some(number) => match ctx.value_type_for_reference_id(ReferenceId(number)) {
            Some(value_type) => value_type,
            None => ValueType::Undetermined,
        },
        None => ValueType::Undetermined,
    }
}

fn type_of_name<C: MayHaveSideEffectsContext>(node: &Node, ctx: &C) -> ValueType
    ensures { result ≡ kinds.type_of_name (answers (C.names ctx.now) (C.effects ctx.now)) node.now.kind node.now.note }
{
    if ctx.inside_with() {
        ValueType::Undetermined
    } else if is_global_undefined(node, ctx) {
        ValueType::Undefined
    } else {
        type_by_number(node.id(), ctx)
    }
}

/// Of which type the value of an expression is, as far as its form and the context tell. The recursion goes as deep as
/// the tree.
#[cycle(types)]
pub fn value_type<C: MayHaveSideEffectsContext>(node: &Node, ctx: &C) -> ValueType
    ensures of_expression { result ≡ kinds.type_of (answers (C.names ctx.now) (C.effects ctx.now)) (forest_of node.now) }
{
    match form_of(node.kind()) {
        Form::Literal => type_of_literal(node.kind()),
        Form::Object => ValueType::Object,
        Form::Template => ValueType::String,
        Form::Name => type_of_name(node, ctx),
        Form::First => part_type(node, 0, ctx),
        Form::Last => last_type(node, ctx),
        Form::Right => part_type(node, 1, ctx),
        Form::Conditional => common(part_type(node, 1, ctx), part_type(node, 2, ctx)),
        Form::Logical(_) => common(part_type(node, 0, ctx), part_type(node, 1, ctx)),
        Form::Unary(operator) => unary_type(operator, part_type(node, 0, ctx)),
        Form::Binary(operator) => {
            binary_type(operator, part_type(node, 0, ctx), part_type(node, 1, ctx))
        }
        Form::New | Form::Other => ValueType::Undetermined,
    }
}

// Of what stands last below a node.
#[cycle(types)]
fn last_type<C: MayHaveSideEffectsContext>(node: &Node, ctx: &C) -> ValueType
    ensures { result ≡ last Undetermined (kinds.types (answers (C.names ctx.now) (C.effects ctx.now)) node.now.below) }
{
    part_type(node, last_place(node), ctx)
}

/// Of which type the value is of what stands at a place below a node.
#[cycle(types)]
pub(crate) fn part_type<C: MayHaveSideEffectsContext>(node: &Node, at: usize, ctx: &C) -> ValueType
    ensures { result ≡ kinds.part_type (answers (C.names ctx.now) (C.effects ctx.now)) at node.now.below }
{
    match child(node, at) {
        Some(part) => value_type(part, ctx),
        None => ValueType::Undetermined,
    }
}

fn is_primitive_part<C: MayHaveSideEffectsContext>(part: &Option<Node>, ctx: &C) -> bool
    ensures { result ≡ kinds.all_primitive (kinds.types (answers (C.names ctx.now) (C.effects ctx.now)) (row (part.now ∷ []))) }
{
    match part {
        Some(node) => is_primitive(value_type(node, ctx)),
        None => false,
    }
}

fn all_primitive_in<C: MayHaveSideEffectsContext>(parts: &[Option<Node>], ctx: &C) -> bool
    ensures { result ≡ kinds.all_primitive (kinds.types (answers (C.names ctx.now) (C.effects ctx.now)) (row parts.now)) }
{
    for part in parts {
        if !is_primitive_part(part, ctx) {
            return false;
        }
    }
    true
}

/// Whether the values of all that stands below a node are primitive.
pub(crate) fn all_primitive<C: MayHaveSideEffectsContext>(node: &Node, ctx: &C) -> bool
    ensures { result ≡ kinds.all_primitive (kinds.types (answers (C.names ctx.now) (C.effects ctx.now)) node.now.below) }
{
    all_primitive_in(node.children(), ctx)
}
