// What operators give of values that are known (ECMA-262 13.5 to 13.12).
ghost use Rattle.std.specs.Prelude.{◌≡◌, neg_ℤ};
ghost use Rattle.std.specs.Option.{option_map};
ghost use Rattle.js_effects.specs.KnownValue.{known_view, number_view};
ghost use Rattle.js_effects.specs.Values as values;

use crate::arithmetic::{on_numbers, signed, whole};
use crate::known::{KnownValue, loosely_equal, negated, of_number, strictly_equal, tested, truth};
use crate::value::ValueType;
use js_syntax::{BinaryOperator, UnaryOperator};

fn on_known_numbers<'a>(
    operator: BinaryOperator,
    left: &KnownValue<'a>,
    right: &KnownValue<'a>,
) -> KnownValue<'a>
    ensures { known_view result ≡ values.on_known_numbers operator (known_view left.now) (known_view right.now) }
{
    match (left, right) {
        (KnownValue::Number(a), KnownValue::Number(b)) => on_numbers(operator, *a, *b),
        _ => KnownValue::Unknown,
    }
}

fn on_values<'a>(
    operator: BinaryOperator,
    left: &KnownValue<'a>,
    right: &KnownValue<'a>,
) -> KnownValue<'a>
    ensures { known_view result ≡ values.on_values operator (known_view left.now) (known_view right.now) }
{
    match operator {
        BinaryOperator::StrictEquality => tested(strictly_equal(left, right)),
        BinaryOperator::StrictInequality => tested(negated(strictly_equal(left, right))),
        BinaryOperator::Equality => tested(loosely_equal(left, right)),
        BinaryOperator::Inequality => tested(negated(loosely_equal(left, right))),
        _ => on_known_numbers(operator, left, right),
    }
}

fn is_addition(operator: BinaryOperator) -> bool
    ensures { result ≡ values.is_addition operator }
{
    matches!(operator, BinaryOperator::Addition)
}

/// What a binary operator gives of two operands, which may be literals that are texts.
pub(crate) fn binary_known<'a>(
    operator: BinaryOperator,
    left_text: Option<&'a str>,
    right_text: Option<&'a str>,
    left: &KnownValue<'a>,
    right: &KnownValue<'a>,
) -> KnownValue<'a>
    ensures { known_view result ≡ values.binary_known operator (option_map (λ s. s.now) left_text.entry) (option_map (λ s. s.now) right_text.entry) (known_view left.now) (known_view right.now) }
{
    if is_addition(operator) {
        if let Some(front) = left_text {
            if let Some(back) = right_text {
                return KnownValue::Text(front, back);
            }
        }
    }
    on_values(operator, left, right)
}

fn typeof_known<'a>(value_type: ValueType) -> KnownValue<'a>
    ensures { known_view result ≡ values.typeof_known value_type }
{
    match value_type {
        ValueType::Undefined => KnownValue::Text("undefined", ""),
        ValueType::Number => KnownValue::Text("number", ""),
        ValueType::Boolean => KnownValue::Text("boolean", ""),
        ValueType::String => KnownValue::Text("string", ""),
        ValueType::Null | ValueType::Object | ValueType::Undetermined => KnownValue::Unknown,
    }
}

fn minus_known<'a>(operand: &KnownValue<'a>) -> KnownValue<'a>
    ensures { known_view result ≡ values.minus_known (known_view operand.now) }
{
    match operand {
        KnownValue::Number(number) => of_number(signed(true, -(*number as i128))),
        _ => KnownValue::Unknown,
    }
}

fn plus_known<'a>(operand: &KnownValue<'a>) -> KnownValue<'a>
    ensures { known_view result ≡ values.plus_known (known_view operand.now) }
{
    match operand {
        KnownValue::Number(number) => of_number(whole(*number as i128)),
        _ => KnownValue::Unknown,
    }
}

/// What a unary operator gives of an operand, of which the type may be known without the value.
pub(crate) fn unary_known<'a>(
    operator: UnaryOperator,
    value_type: ValueType,
    operand: &KnownValue<'a>,
) -> KnownValue<'a>
    ensures { known_view result ≡ values.unary_known operator value_type (known_view operand.now) }
{
    match operator {
        UnaryOperator::LogicalNot => tested(negated(truth(operand))),
        UnaryOperator::Void => KnownValue::Undefined,
        UnaryOperator::Typeof => typeof_known(value_type),
        UnaryOperator::UnaryNegation => minus_known(operand),
        UnaryOperator::UnaryPlus => plus_known(operand),
        UnaryOperator::BitwiseNot | UnaryOperator::Delete => KnownValue::Unknown,
    }
}
