// Operators on values (ECMA-262 13.5 to 13.12), where they show nothing to the host.
ghost use Rattle.std.specs.Prelude.{◌≡◌, ◌||◌, Bool, true, neg_ℤ, codes, string_bytes, IfOk};
ghost use Rattle.std.specs.Option.{option_map};
ghost use Rattle.js_meaning.specs.State.{M};
ghost use Rattle.js_meaning.specs.Show.{has_identity};
ghost use Rattle.js_meaning.specs.Operator.{is_object, is_boolean, is_nullish, is_other, kind_name, known_binary, is_text, truthy, type_name, plain_text, plus_plain, plus, plain_eq, strictly_equal, same_type, loosely, binary_of, unary_of, on_number, updated, goes_right, integer_text, on_numbers, joined, answer_is, answer_not, compare, signed, whole};
ghost use Rattle.js_meaning.specs.Value.{literal_value};
ghost use Rattle.run_value.specs.Plain.{kind_of, plain_of};
ghost use Rattle.run_value.specs.View.{value_of};
ghost use Rattle.run_value.specs.Given.{gives_number, plain_gives, gives, tested, computed, number_in, text_in, concatenated};

use crate::number::{computed, same, signed, whole};
use crate::plain::{Plain, PrimitiveKind};
use crate::value::Value;
use js_syntax::{BinaryOperator, LiteralValue, LogicalOperator, UnaryOperator, UpdateOperator};
use std::alloc::{AllocError, Global};
use std::rc::Rc;

/// Whether a value is an object, of the host's or of the program's own.
pub fn is_object(value: &Value) -> bool
    ensures { result ≡ is_object (value_of value.now) }
{
    match value {
        Value::Plain(Plain::Host(..)) => true,
        Value::Plain(_) => false,
        _ => true,
    }
}

/// Whether a value is a truth value.
pub fn is_boolean(value: &Value) -> bool
    ensures { result ≡ is_boolean (value_of value.now) }
{
    matches!(value, Value::Plain(Plain::Boolean(_)))
}

fn is_nullish(value: &Value) -> bool
    ensures { result ≡ is_nullish (value_of value.now) }
{
    matches!(value, Value::Plain(Plain::Undefined | Plain::Null))
}

/// Whether a value is a primitive value of the host of which `typeof` and tests alone are known.
pub fn is_other(value: &Value) -> bool
    ensures { result ≡ is_other (value_of value.now) }
{
    matches!(value, Value::Plain(Plain::Other(..)))
}

/// Whether one of two values is such a one, so that nothing is said of an operator on them.
pub fn either_other(left: &Value, right: &Value) -> bool
    ensures { result ≡ (is_other (value_of left.now) || is_other (value_of right.now)) }
{
    is_other(left) || is_other(right)
}

/// ToBoolean (7.1.2).
pub fn truthy(value: &Value) -> bool
    ensures { result ≡ truthy (value_of value.now) }
{
    match value {
        Value::Plain(Plain::Undefined | Plain::Null) => false,
        Value::Plain(Plain::Boolean(b)) => *b,
        Value::Plain(Plain::Number(number)) => *number != 0,
        Value::Plain(Plain::Text(text)) => !text.is_empty(),
        Value::Plain(Plain::Other(_, _, truth)) => *truth,
        _ => true,
    }
}

fn kind_name(kind: PrimitiveKind) -> &'static str
    ensures { result.now ≡ kind_name (kind_of kind) }
{
    match kind {
        PrimitiveKind::Number => "number",
        PrimitiveKind::Bigint => "bigint",
        PrimitiveKind::Symbol => "symbol",
        PrimitiveKind::Text => "string",
    }
}

// What `typeof` says (13.5.3).
fn type_name(value: &Value) -> &'static str
    ensures { result.now ≡ type_name (value_of value.now) }
{
    match value {
        Value::Plain(Plain::Undefined) => "undefined",
        Value::Plain(Plain::Boolean(_)) => "boolean",
        Value::Plain(Plain::Number(_)) => "number",
        Value::Plain(Plain::Text(_)) => "string",
        Value::Plain(Plain::Host(_, true)) => "function",
        Value::Plain(Plain::Other(_, kind, _)) => kind_name(*kind),
        Value::Closure(..) => "function",
        _ => "object",
    }
}

fn plain_eq(left: &Plain, right: &Plain) -> bool
    ensures { result ≡ plain_eq (plain_of left.now) (plain_of right.now) }
{
    match (left, right) {
        (Plain::Undefined, Plain::Undefined) => true,
        (Plain::Null, Plain::Null) => true,
        (Plain::Boolean(a), Plain::Boolean(b)) => *a == *b,
        (Plain::Number(a), Plain::Number(b)) => same(*a, *b),
        (Plain::Text(a), Plain::Text(b)) => a.as_str() == b.as_str(),
        (Plain::Host(a, callable), Plain::Host(b, also)) => *a == *b && *callable == *also,
        _ => false,
    }
}

/// Whether a value is the own object of this number.
pub fn has_identity(value: &Value, number: usize) -> bool
    ensures { result ≡ has_identity (value_of value.now) number }
{
    match value {
        Value::Plain(_) => false,
        Value::Closure(own, ..) => *own == number,
        Value::Object(own, _) => *own == number,
        Value::Array(own, _) => *own == number,
        Value::Error(own, _) => *own == number,
    }
}

// IsStrictlyEqual (7.2.15).
fn strictly_equal(left: &Value, right: &Value) -> bool
    ensures { result ≡ strictly_equal (value_of left.now) (value_of right.now) }
{
    match left {
        Value::Plain(left) => match right {
            Value::Plain(right) => plain_eq(left, right),
            Value::Closure(..) | Value::Object(..) | Value::Array(..) | Value::Error(..) => false,
        },
        Value::Closure(number, ..) => has_identity(right, *number),
        Value::Object(number, _) => has_identity(right, *number),
        Value::Array(number, _) => has_identity(right, *number),
        Value::Error(number, _) => has_identity(right, *number),
    }
}

// The number that a value is.
fn number_in(value: &Value) -> Option<i64>
    ensures { result ≡ number_in (value_of value.now) }
{
    match value {
        Value::Plain(Plain::Number(number)) => Some(*number),
        _ => None,
    }
}

// Text of a primitive value (7.1.17).
fn integer_text(alloc: Global, number: i64) -> Result<String, AllocError>
    ensures { IfOk result (λ s. string_bytes s ≡ integer_text number) }
{
    format!(in alloc; "{number}")
}

fn plain_text(alloc: Global, plain: &Plain) -> Result<Option<String>, AllocError>
    ensures { IfOk result (λ s. text_in s ≡ plain_text (plain_of plain.now)) }
{
    match plain {
        Plain::Undefined => {
            let text = String::from_str(alloc, "undefined")?;
            Ok(Some(text))
        }
        Plain::Null => {
            let text = String::from_str(alloc, "null")?;
            Ok(Some(text))
        }
        Plain::Boolean(true) => {
            let text = String::from_str(alloc, "true")?;
            Ok(Some(text))
        }
        Plain::Boolean(false) => {
            let text = String::from_str(alloc, "false")?;
            Ok(Some(text))
        }
        Plain::Number(number) => {
            let text = integer_text(alloc, *number)?;
            Ok(Some(text))
        }
        Plain::Text(text) => {
            let text = String::from_str(alloc, text.as_str())?;
            Ok(Some(text))
        }
        Plain::Host(..) | Plain::Other(..) => Ok(None),
    }
}

fn is_text(plain: &Plain) -> bool
    ensures { result ≡ is_text (plain_of plain.now) }
{
    matches!(plain, Plain::Text(_))
}

fn joined(
    alloc: Global,
    left: Option<String>,
    right: Option<String>,
) -> Result<Option<Plain>, AllocError>
    ensures { IfOk result (λ p. plain_gives p ≡ joined (text_in left) (text_in right)) }
{
    match left {
        Some(mut text) => match right {
            Some(more) => {
                text.push_str(more.as_str())?;
                let text = Rc::new(alloc, text)?;
                Ok(Some(Plain::Text(text)))
            }
            None => Ok(None),
        },
        None => Ok(None),
    }
}

// A text and a primitive value, or two texts.
#[tactic(auto, unfolding(js_meaning::specs::State::choose))]
fn concatenated(alloc: Global, left: &Plain, right: &Plain) -> Result<Option<Plain>, AllocError>
    ensures { IfOk result (λ p. plain_gives p ≡ concatenated (plain_of left.now) (plain_of right.now)) }
{
    if is_text(left) || is_text(right) {
        let left = plain_text(alloc, left)?;
        let right = plain_text(alloc, right)?;
        joined(alloc, left, right)
    } else {
        Ok(None)
    }
}

// `+` (13.15.3).
fn plus_plain(alloc: Global, left: &Plain, right: &Plain) -> Result<Option<Plain>, AllocError>
    ensures { IfOk result (λ p. plain_gives p ≡ plus_plain (plain_of left.now) (plain_of right.now)) }
{
    match left {
        Plain::Number(a) => match right {
            Plain::Number(b) => Ok(computed(BinaryOperator::Addition, *a, *b)),
            Plain::Undefined
            | Plain::Null
            | Plain::Boolean(_)
            | Plain::Text(_)
            | Plain::Host(..)
            | Plain::Other(..) => concatenated(alloc, left, right),
        },
        Plain::Undefined
        | Plain::Null
        | Plain::Boolean(_)
        | Plain::Text(_)
        | Plain::Host(..)
        | Plain::Other(..) => concatenated(alloc, left, right),
    }
}

fn plus(alloc: Global, left: &Value, right: &Value) -> Result<Option<Plain>, AllocError>
    ensures { IfOk result (λ p. plain_gives p ≡ plus (value_of left.now) (value_of right.now)) }
{
    match left {
        Value::Plain(left) => match right {
            Value::Plain(right) => plus_plain(alloc, left, right),
            Value::Closure(..) | Value::Object(..) | Value::Array(..) | Value::Error(..) => Ok(
                None,
            ),
        },
        _ => Ok(None),
    }
}

// Values of one type, for `==`.
fn same_type(left: &Value, right: &Value) -> bool
    ensures { result ≡ same_type (value_of left.now) (value_of right.now) }
{
    match left {
        Value::Plain(Plain::Boolean(_)) => is_boolean(right),
        Value::Plain(Plain::Number(_)) => number_in(right).is_some(),
        Value::Plain(Plain::Text(_)) => matches!(right, Value::Plain(Plain::Text(_))),
        _ => is_object(left) && is_object(right),
    }
}

// IsLooselyEqual (7.2.14), without conversions.
#[tactic(auto, unfolding(js_meaning::specs::State::choose, js_meaning::specs::Operator::compare))]
fn loosely(left: &Value, right: &Value) -> Option<bool>
    ensures { (k : Bool → M) → loosely (value_of left.now) (value_of right.now) k ≡ tested result k }
{
    if is_nullish(left) || is_nullish(right) {
        return Some(is_nullish(left) && is_nullish(right));
    }
    if same_type(left, right) {
        return Some(strictly_equal(left, right));
    }
    None
}

fn answer_is(found: Option<bool>) -> Option<Plain>
    ensures { plain_gives result ≡ tested found answer_is }
{
    match found {
        Some(found) => Some(Plain::Boolean(found)),
        None => None,
    }
}

fn answer_not(found: Option<bool>) -> Option<Plain>
    ensures { plain_gives result ≡ tested found answer_not }
{
    match found {
        Some(found) => Some(Plain::Boolean(!found)),
        None => None,
    }
}

fn on_numbers(operator: BinaryOperator, left: &Value, right: &Value) -> Option<Plain>
    ensures { plain_gives result ≡ on_numbers (computed operator) (value_of left.now) (value_of right.now) }
{
    match left {
        Value::Plain(Plain::Number(a)) => match right {
            Value::Plain(Plain::Number(b)) => computed(operator, *a, *b),
            _ => None,
        },
        _ => None,
    }
}

#[tactic(auto, unfolding(js_meaning::specs::Operator::compare))]
fn strictly(left: &Value, right: &Value) -> Option<bool>
    ensures { (k : Bool → M) → compare (value_of left.now) (value_of right.now) k ≡ tested result k }
{
    Some(strictly_equal(left, right))
}

// The binary operators that show nothing to the host, on what is known.
fn known_binary(
    alloc: Global,
    operator: BinaryOperator,
    left: &Value,
    right: &Value,
) -> Result<Option<Plain>, AllocError>
    ensures { IfOk result (λ p. plain_gives p ≡ known_binary operator (value_of left.now) (value_of right.now)) }
{
    match operator {
        BinaryOperator::Equality => Ok(answer_is(loosely(left, right))),
        BinaryOperator::Inequality => Ok(answer_not(loosely(left, right))),
        BinaryOperator::StrictEquality => Ok(answer_is(strictly(left, right))),
        BinaryOperator::StrictInequality => Ok(answer_not(strictly(left, right))),
        BinaryOperator::Addition => plus(alloc, left, right),
        BinaryOperator::LessThan
        | BinaryOperator::LessEqualThan
        | BinaryOperator::GreaterThan
        | BinaryOperator::GreaterEqualThan
        | BinaryOperator::Subtraction
        | BinaryOperator::Multiplication
        | BinaryOperator::Division
        | BinaryOperator::Remainder => Ok(on_numbers(operator, left, right)),
        _ => Ok(None),
    }
}

fn given<'a>(found: Option<Plain>) -> Option<Value<'a>>
    ensures { gives result ≡ plain_gives found }
{
    match found {
        Some(found) => Some(Value::Plain(found)),
        None => None,
    }
}

/// What a binary operator gives that shows nothing to the host: `None` where nothing is said of it.
#[tactic(auto, unfolding(js_meaning::specs::State::choose))]
pub fn binary_of<'a>(
    alloc: Global,
    operator: BinaryOperator,
    left: &Value,
    right: &Value,
) -> Result<Option<Value<'a>>, AllocError>
    ensures { IfOk result (λ v. gives v ≡ binary_of operator (value_of left.now) (value_of right.now)) }
{
    if either_other(left, right) {
        Ok(None)
    } else {
        let found = known_binary(alloc, operator, left, right)?;
        Ok(given(found))
    }
}

fn number(found: Option<i64>) -> Option<Plain>
    ensures { plain_gives result ≡ gives_number found }
{
    match found {
        Some(number) => Some(Plain::Number(number)),
        None => None,
    }
}

fn negated(value: &Value) -> Option<i64>
    ensures { gives_number result ≡ on_number (λ a. signed true (neg_ℤ a)) (value_of value.now) }
{
    match value {
        Value::Plain(Plain::Number(number)) => signed(true, -(*number as i128)),
        _ => None,
    }
}

fn plus_of(value: &Value) -> Option<i64>
    ensures { gives_number result ≡ on_number whole (value_of value.now) }
{
    match value {
        Value::Plain(Plain::Number(number)) => whole(*number as i128),
        _ => None,
    }
}

/// What a unary operator gives (13.5.2 to 13.5.7): `None` where nothing is said of it.
pub fn unary_of<'a>(
    alloc: Global,
    operator: UnaryOperator,
    value: &Value,
) -> Result<Option<Value<'a>>, AllocError>
    ensures { IfOk result (λ v. gives v ≡ unary_of operator (value_of value.now)) }
{
    match operator {
        UnaryOperator::LogicalNot => Ok(given(Some(Plain::Boolean(!truthy(value))))),
        UnaryOperator::UnaryNegation => Ok(given(number(negated(value)))),
        UnaryOperator::UnaryPlus => Ok(given(number(plus_of(value)))),
        UnaryOperator::Typeof => {
            let text = String::from_str(alloc, type_name(value))?;
            let text = Rc::new(alloc, text)?;
            Ok(given(Some(Plain::Text(text))))
        }
        UnaryOperator::Void => Ok(given(Some(Plain::Undefined))),
        _ => Ok(None),
    }
}

fn stepped(operator: UpdateOperator, value: &Value) -> Option<i64>
    ensures { gives_number result ≡ on_number (updated operator) (value_of value.now) }
{
    match value {
        Value::Plain(Plain::Number(number)) => match operator {
            UpdateOperator::Increment => whole(*number as i128 + 1),
            UpdateOperator::Decrement => whole(*number as i128 - 1),
        },
        _ => None,
    }
}

/// The new value of an update (13.4): `None` where nothing is said of it.
pub fn updated<'a>(operator: UpdateOperator, value: &Value) -> Option<Value<'a>>
    ensures { gives result ≡ on_number (updated operator) (value_of value.now) }
{
    given(number(stepped(operator, value)))
}

/// Whether a logical operator evaluates its right side (13.13).
pub fn goes_right(operator: LogicalOperator, value: &Value) -> bool
    ensures { result ≡ goes_right operator (value_of value.now) }
{
    match operator {
        LogicalOperator::And => truthy(value),
        LogicalOperator::Or => !truthy(value),
        LogicalOperator::Coalesce => is_nullish(value),
    }
}

/// The value of a literal (13.2.3).
pub fn literal_value<'a>(alloc: Global, literal: &LiteralValue) -> Result<Value<'a>, AllocError>
    ensures { IfOk result (λ v. value_of v ≡ literal_value literal.now) }
{
    match literal {
        LiteralValue::Null => Ok(Value::Plain(Plain::Null)),
        LiteralValue::Boolean(b) => Ok(Value::Plain(Plain::Boolean(*b))),
        LiteralValue::Number(number) => Ok(Value::Plain(Plain::Number(*number))),
        LiteralValue::Text(text) => {
            let text = String::from_str(alloc, text.as_str())?;
            let text = Rc::new(alloc, text)?;
            Ok(Value::Plain(Plain::Text(text)))
        }
    }
}
