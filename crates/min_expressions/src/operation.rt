// An operation of which the value is known.
ghost use Rattle.std.specs.Prelude.{◌≡◌, ℕ, suc, pos, nat_le, length, Some, None, true, IfOk, OnOk, OnErr};
ghost use Rattle.std.specs.Option.{option_map};
ghost use Rattle.js_syntax.specs.declared.node_kind.NodeKind.TheVariants.{Literal as literal, UnaryExpression as unary_expression};
ghost use Rattle.js_syntax.specs.declared.operator.UnaryOperator.TheVariants.{UnaryNegation};
ghost use Rattle.js_syntax.specs.declared.value.LiteralValue.TheVariants as value;
ghost use Rattle.js_syntax.specs.Node.{row, nothing, alone, forest_of};
ghost use Rattle.js_effects.specs.declared.value.ConstantValue.TheVariants.{Number};
ghost use Rattle.js_effects.specs.Answers.{bare_answers};
ghost use Rattle.js_effects.specs.Values.{largest, value_of};
ghost use Rattle.min_context.specs.Edited.{Edited};
ghost use Rattle.steps.specs.Allowed.KnownOperation as known;
ghost use Rattle.rules.specs.Expressions.Lists.{new_note};

use crate::indirect::one_field;
use crate::list::is_list;
use crate::unused::acts;
use js_effects::{BareContext, ConstantValue, evaluate_value};
use js_syntax::{LiteralValue, NodeKind, Span, UnaryOperator};
use js_tree::{Node, put_child};
use min_context::MinifierTraverseCtx;
use std::alloc::{AllocError, Global};

fn has_operand(operands: &[Option<Node>]) -> bool
    ensures { result ≡ known.has_operand (row operands.now) }
{
    match operands.first() {
        Some(Some(operand)) => !is_list(operand.kind()),
        _ => false,
    }
}

fn is_literal(operands: &[Option<Node>]) -> bool
    ensures { result ≡ known.is_literal (row operands.now) }
{
    match operands.first() {
        Some(Some(operand)) => matches!(operand.kind(), NodeKind::Literal(_)),
        _ => false,
    }
}

fn gives_negative(node: &Node) -> bool
    ensures { result ≡ known.gives_negative node.now.kind node.now.below }
{
    match node.kind() {
        NodeKind::UnaryExpression(_) => {
            has_operand(node.children()) && !is_literal(node.children())
        }
        NodeKind::BinaryExpression(_) => has_operand(node.children()),
        _ => false,
    }
}

// ---- the literal of a value

fn number_literal(number: i64) -> Option<LiteralValue>
    ensures { result ≡ known.as_literal (Some (Number number)) }
{
    if number < 0 {
        None
    } else {
        Some(LiteralValue::Number(number))
    }
}

fn literal_of(value: &ConstantValue, alloc: Global) -> Result<Option<LiteralValue>, AllocError>
    ensures { IfOk result (λ v. v ≡ known.as_literal (Some value.now)) }
{
    match value {
        ConstantValue::Number(number) => Ok(number_literal(*number)),
        ConstantValue::Text(text) => Ok(Some(LiteralValue::Text(text.try_clone(alloc)?))),
        ConstantValue::Boolean(truth) => Ok(Some(LiteralValue::Boolean(*truth))),
        ConstantValue::Null => Ok(Some(LiteralValue::Null)),
        ConstantValue::Undefined => Ok(None),
    }
}

// ---- the literal that an operation becomes

fn value_of(node: &Node, alloc: Global) -> Result<Option<ConstantValue>, AllocError>
    ensures { IfOk result (λ v. v ≡ value_of bare_answers (forest_of node.now)) }
{
    evaluate_value(node, &BareContext::new(alloc))
}

fn known_value(node: &Node, alloc: Global) -> Result<Option<LiteralValue>, AllocError>
    ensures { IfOk result (λ v. v ≡ known.as_literal (value_of bare_answers (forest_of node.now))) }
{
    match value_of(node, alloc)? {
        Some(value) => literal_of(&value, alloc),
        None => Ok(None),
    }
}

// The operator is asked first, then whether the operation acts, so that values are asked of what does nothing else.
pub(crate) fn known_literal(node: &Node, alloc: Global) -> Result<Option<LiteralValue>, AllocError>
    ensures { IfOk result (λ v. v ≡ known.known_literal node.now.kind node.now.note node.now.below) }
{
    match node.kind() {
        NodeKind::UnaryExpression(_) => {
            if acts(node) || !has_operand(node.children()) {
                Ok(None)
            } else {
                known_value(node, alloc)
            }
        }
        NodeKind::BinaryExpression(_) => {
            if acts(node) {
                Ok(None)
            } else {
                known_value(node, alloc)
            }
        }
        _ => Ok(None),
    }
}

// ---- the number on which it becomes unary minus

fn magnitude(number: i64) -> Option<i64>
    requires { (n : ℕ) → known.as_negative (Some (Number number)) ≡ Some n → nat_le (suc n) largest ≡ true }
    ensures { result ≡ option_map (λ n. pos (suc n)) (known.as_negative (Some (Number number))) }
{
    if number < 0 { Some(-number) } else { None }
}

fn magnitude_of(value: &ConstantValue) -> Option<i64>
    requires { (n : ℕ) → known.as_negative (Some value.now) ≡ Some n → nat_le (suc n) largest ≡ true }
    ensures { result ≡ option_map (λ n. pos (suc n)) (known.as_negative (Some value.now)) }
{
    match value {
        ConstantValue::Number(number) => magnitude(*number),
        _ => None,
    }
}

fn negative_value(node: &Node, alloc: Global) -> Result<Option<i64>, AllocError>
    requires { known.gives_negative node.now.kind node.now.below ≡ true }
    ensures { IfOk result (λ v. v ≡ option_map (λ n. pos (suc n)) (known.as_negative (value_of bare_answers (forest_of node.now)))) }
{
    match value_of(node, alloc)? {
        Some(value) => Ok(magnitude_of(&value)),
        None => Ok(None),
    }
}

pub(crate) fn known_negative(node: &Node, alloc: Global) -> Result<Option<i64>, AllocError>
    ensures { IfOk result (λ v. v ≡ option_map (λ n. pos (suc n)) (known.known_negative node.now.kind node.now.note node.now.below)) }
{
    if gives_negative(node) && !acts(node) {
        negative_value(node, alloc)
    } else {
        Ok(None)
    }
}

// ---- and the changes

// Unary minus on a literal, in the row of one field that is given.
fn minus(alloc: Global, span: Span, mut field: Vec<Option<Node>>, magnitude: i64) -> Node
    requires { length field.items ≡ 1 }
    ensures { result ≡ record { kind = unary_expression UnaryNegation; note = record { span = span; id = None }; below = alone (literal (value.Number magnitude)) (record { span = span; id = None }) nothing } }
{
    let written = Node::new(
        NodeKind::Literal(LiteralValue::Number(magnitude)),
        span,
        Vec::new(alloc),
    );
    put_child(&mut field.as_mut_slice()[0], written);
    Node::new(
        NodeKind::UnaryExpression(UnaryOperator::UnaryNegation),
        span,
        field,
    )
}

// Unary minus on a literal of this number takes the place of the whole. The context is told of all that stood there. After an error all
// is as it was.
pub(crate) fn put_negative(
    node: &mut Node,
    magnitude: i64,
    ctx: &mut MinifierTraverseCtx,
) -> Result<(), AllocError>
    ensures put { OnOk result (node.new ≡ record { kind = unary_expression UnaryNegation; note = new_note node.old.note; below = alone (literal (value.Number magnitude)) (new_note node.old.note) nothing }) }
    ensures edited { OnOk result (Edited ctx.old node.old node.new true ctx.new) }
    ensures refused { OnErr result ((node.new ≡ node.old) × (ctx.new ≡ ctx.old)) }
{
    let field = one_field(ctx.alloc())?;
    let written = minus(ctx.alloc(), node.span(), field, magnitude);
    ctx.replace_expression(node, written);
    Ok(())
}

// A literal takes the place of the whole. The context is told of all that stood there.
pub(crate) fn put_literal(node: &mut Node, value: LiteralValue, ctx: &mut MinifierTraverseCtx)
    ensures put { node.new ≡ record { kind = literal value; note = new_note node.old.note; below = nothing } }
    ensures edited { Edited ctx.old node.old node.new true ctx.new }
{
    let written = Node::new(NodeKind::Literal(value), node.span(), Vec::new(ctx.alloc()));
    ctx.replace_expression(node, written);
}
