// What is known of an expression's value.
ghost use Rattle.std.specs.Prelude.{◌≡◌, ◌++◌};
ghost use Rattle.js_effects.specs.KnownValue.{known_view, number_view};
ghost use Rattle.js_effects.specs.Values as values;

use crate::text::{is_empty_text, same_text};
use js_syntax::LogicalOperator;

/// What is known of an expression's value: the value, a text of which may stand in two parts, or only whether it is true
/// in a test, or nothing.
#[derive(Clone, Copy)]
pub(crate) enum KnownValue<'a> {
    Number(i64),
    Text(&'a str, &'a str),
    Boolean(bool),
    Null,
    Undefined,
    Truth(bool),
    Unknown,
}

pub(crate) fn is_exact(known: &KnownValue) -> bool
    ensures { result ≡ values.is_exact (known_view known.now) }
{
    !matches!(known, KnownValue::Truth(_) | KnownValue::Unknown)
}

/// The value and no less.
pub(crate) fn exact<'a>(known: &KnownValue<'a>) -> KnownValue<'a>
    ensures { known_view result ≡ values.exact (known_view known.now) }
{
    if is_exact(known) {
        *known
    } else {
        KnownValue::Unknown
    }
}

// Whether a text in two parts is empty.
#[tactic(auto, using(crate::proofs::Texts::empty_joined))]
fn is_empty(front: &str, back: &str) -> bool
    ensures { result ≡ values.is_empty (front.now ++ back.now) }
{
    is_empty_text(front) && is_empty_text(back)
}

// ToBoolean (ECMA-262 7.1.2).
pub(crate) fn truth(known: &KnownValue) -> Option<bool>
    ensures { result ≡ values.truth (known_view known.now) }
{
    match known {
        KnownValue::Number(number) => Some(*number != 0),
        KnownValue::Text(front, back) => Some(!is_empty(front, back)),
        KnownValue::Boolean(truth) => Some(*truth),
        KnownValue::Null | KnownValue::Undefined => Some(false),
        KnownValue::Truth(truth) => Some(*truth),
        KnownValue::Unknown => None,
    }
}

pub(crate) fn is_true(known: &KnownValue) -> bool
    ensures { result ≡ values.is_true (known_view known.now) }
{
    truth(known) == Some(true)
}

pub(crate) fn is_false(known: &KnownValue) -> bool
    ensures { result ≡ values.is_false (known_view known.now) }
{
    truth(known) == Some(false)
}

fn is_nullish(known: &KnownValue) -> bool
    ensures { result ≡ values.is_known_nullish (known_view known.now) }
{
    matches!(known, KnownValue::Null | KnownValue::Undefined)
}

/// A truth value as a value.
pub(crate) fn tested<'a>(truth: Option<bool>) -> KnownValue<'a>
    ensures { known_view result ≡ values.tested truth }
{
    match truth {
        Some(truth) => KnownValue::Boolean(truth),
        None => KnownValue::Unknown,
    }
}

/// The other truth value.
pub(crate) fn negated(truth: Option<bool>) -> Option<bool>
    ensures { result ≡ values.negated truth }
{
    match truth {
        Some(truth) => Some(!truth),
        None => None,
    }
}

/// A number that came out as a value.
pub(crate) fn of_number<'a>(number: Option<i64>) -> KnownValue<'a>
    ensures { known_view result ≡ number_view number }
{
    match number {
        Some(number) => KnownValue::Number(number),
        None => KnownValue::Unknown,
    }
}

// 13.13.
fn and_known<'a>(left: &KnownValue<'a>, right: &KnownValue<'a>) -> KnownValue<'a>
    ensures { known_view result ≡ values.and_known (known_view left.now) (known_view right.now) }
{
    if is_false(left) {
        *left
    } else if is_true(left) && is_exact(right) {
        *right
    } else if is_false(right) {
        KnownValue::Truth(false)
    } else {
        KnownValue::Unknown
    }
}

fn or_known<'a>(left: &KnownValue<'a>, right: &KnownValue<'a>) -> KnownValue<'a>
    ensures { known_view result ≡ values.or_known (known_view left.now) (known_view right.now) }
{
    if is_true(left) {
        *left
    } else if is_false(left) && is_exact(right) {
        *right
    } else if is_true(right) {
        KnownValue::Truth(true)
    } else {
        KnownValue::Unknown
    }
}

fn coalesce_known<'a>(left: &KnownValue<'a>, right: &KnownValue<'a>) -> KnownValue<'a>
    ensures { known_view result ≡ values.coalesce_known (known_view left.now) (known_view right.now) }
{
    if is_nullish(left) {
        exact(right)
    } else {
        exact(left)
    }
}

pub(crate) fn logical_known<'a>(
    operator: LogicalOperator,
    left: &KnownValue<'a>,
    right: &KnownValue<'a>,
) -> KnownValue<'a>
    ensures { known_view result ≡ values.logical_known operator (known_view left.now) (known_view right.now) }
{
    match operator {
        LogicalOperator::And => and_known(left, right),
        LogicalOperator::Or => or_known(left, right),
        LogicalOperator::Coalesce => coalesce_known(left, right),
    }
}

// 13.14.
pub(crate) fn conditional_known<'a>(
    test: &KnownValue<'a>,
    consequent: &KnownValue<'a>,
    alternate: &KnownValue<'a>,
) -> KnownValue<'a>
    ensures { known_view result ≡ values.conditional_known (known_view test.now) (known_view consequent.now) (known_view alternate.now) }
{
    if is_true(test) {
        exact(consequent)
    } else if is_false(test) {
        exact(alternate)
    } else {
        KnownValue::Unknown
    }
}

fn same_type(left: &KnownValue, right: &KnownValue) -> bool
    ensures { result ≡ values.same_known_type (known_view left.now) (known_view right.now) }
{
    match left {
        KnownValue::Number(_) => matches!(right, KnownValue::Number(_)),
        KnownValue::Text(_, _) => matches!(right, KnownValue::Text(_, _)),
        KnownValue::Boolean(_) => matches!(right, KnownValue::Boolean(_)),
        KnownValue::Null => matches!(right, KnownValue::Null),
        KnownValue::Undefined => matches!(right, KnownValue::Undefined),
        KnownValue::Truth(_) | KnownValue::Unknown => false,
    }
}

fn is_number(known: &KnownValue, number: i64) -> bool
    ensures { result ≡ values.is_known_number number (known_view known.now) }
{
    match known {
        KnownValue::Number(other) => number == *other,
        _ => false,
    }
}

fn is_boolean(known: &KnownValue, truth: bool) -> bool
    ensures { result ≡ values.is_known_boolean truth (known_view known.now) }
{
    match known {
        KnownValue::Boolean(other) => truth == *other,
        _ => false,
    }
}

fn is_null(known: &KnownValue) -> bool
    ensures { result ≡ values.is_known_null (known_view known.now) }
{
    matches!(known, KnownValue::Null)
}

fn is_undefined(known: &KnownValue) -> bool
    ensures { result ≡ values.is_known_undefined (known_view known.now) }
{
    matches!(known, KnownValue::Undefined)
}

fn is_text(known: &KnownValue, front: &str, back: &str) -> bool
    ensures { result ≡ values.is_known_text (front.now ++ back.now) (known_view known.now) }
{
    match known {
        KnownValue::Text(other_front, other_back) => same_text(
            front,
            back,
            other_front,
            other_back,
        ),
        _ => false,
    }
}

fn same_value(left: &KnownValue, right: &KnownValue) -> bool
    ensures { result ≡ values.same_known (known_view left.now) (known_view right.now) }
{
    match left {
        KnownValue::Number(number) => is_number(right, *number),
        KnownValue::Text(front, back) => is_text(right, front, back),
        KnownValue::Boolean(truth) => is_boolean(right, *truth),
        KnownValue::Null => is_null(right),
        KnownValue::Undefined => is_undefined(right),
        KnownValue::Truth(_) | KnownValue::Unknown => false,
    }
}

pub(crate) fn strictly_equal(left: &KnownValue, right: &KnownValue) -> Option<bool>
    ensures { result ≡ values.strictly_equal (known_view left.now) (known_view right.now) }
{
    if is_exact(left) && is_exact(right) {
        Some(same_value(left, right))
    } else {
        None
    }
}

pub(crate) fn loosely_equal(left: &KnownValue, right: &KnownValue) -> Option<bool>
    ensures { result ≡ values.loosely_equal (known_view left.now) (known_view right.now) }
{
    if is_nullish(left) && is_nullish(right) {
        Some(true)
    } else if same_type(left, right) {
        Some(same_value(left, right))
    } else {
        None
    }
}
