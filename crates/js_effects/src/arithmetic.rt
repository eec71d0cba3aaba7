// Arithmetic on whole numbers (ECMA-262 6.1.6.1), in 128 bits, where no result is out of range.
ghost use Rattle.std.specs.Prelude.{◌≡◌, ◌||◌, ◌*ℤ◌, false, int_rem, int_div};
ghost use Rattle.js_effects.specs.KnownValue.{known_view, number_view};
ghost use Rattle.js_effects.specs.Values as values;

use crate::known::{KnownValue, of_number};
use js_syntax::BinaryOperator;

const LARGEST: u128 = 9007199254740991;

fn is_zero(a: i64) -> bool
    ensures { result ≡ values.is_zero a }
{
    a == 0
}

fn is_nothing(a: i128) -> bool
    ensures { result ≡ values.is_zero a }
{
    a == 0
}

fn is_negative(a: i64) -> bool
    ensures { result ≡ values.is_negative a }
{
    a < 0
}

fn is_either_negative(a: i64, b: i64) -> bool
    ensures { result ≡ (values.is_negative a || values.is_negative b) }
{
    is_negative(a) || is_negative(b)
}

/// A number within 2^53 - 1 of zero.
pub(crate) fn whole(number: i128) -> Option<i64>
    ensures { number_view result ≡ values.whole number }
{
    if number.unsigned_abs() <= LARGEST {
        Some(number as i64)
    } else {
        None
    }
}

/// The same, and no zero whose sign is negative, as `minus` says.
pub(crate) fn signed(minus: bool, number: i128) -> Option<i64>
    ensures { number_view result ≡ values.signed minus number }
{
    if is_nothing(number) && minus {
        None
    } else {
        whole(number)
    }
}

fn product(a: i64, b: i64) -> i128
    ensures { result ≡ a *ℤ b }
{
    a as i128 * b as i128
}

fn times(a: i64, b: i64) -> Option<i64>
    ensures { number_view result ≡ values.times a b }
{
    signed(is_either_negative(a, b), product(a, b))
}

fn rest(a: i64, b: i64) -> i128
    requires { values.is_zero b ≡ false }
    ensures { result ≡ int_rem a b }
{
    a as i128 % b as i128
}

fn quotient(a: i64, b: i64) -> i128
    requires { values.is_zero b ≡ false }
    ensures { result ≡ int_div a b }
{
    a as i128 / b as i128
}

fn divided(a: i64, b: i64) -> Option<i64>
    ensures { number_view result ≡ values.divided a b }
{
    if is_zero(b) {
        return None;
    }
    if !is_nothing(rest(a, b)) {
        return None;
    }
    signed(is_negative(b), quotient(a, b))
}

// The sign is that of the dividend (6.1.6.1.6).
fn remainder(a: i64, b: i64) -> Option<i64>
    ensures { number_view result ≡ values.remainder a b }
{
    if is_zero(b) {
        return None;
    }
    signed(is_negative(a), rest(a, b))
}

/// What an operator gives of two numbers.
pub(crate) fn on_numbers<'a>(operator: BinaryOperator, a: i64, b: i64) -> KnownValue<'a>
    ensures { known_view result ≡ values.on_numbers operator a b }
{
    match operator {
        BinaryOperator::LessThan => KnownValue::Boolean(a < b),
        BinaryOperator::LessEqualThan => KnownValue::Boolean(a <= b),
        BinaryOperator::GreaterThan => KnownValue::Boolean(b < a),
        BinaryOperator::GreaterEqualThan => KnownValue::Boolean(b <= a),
        BinaryOperator::Addition => of_number(whole(a as i128 + b as i128)),
        BinaryOperator::Subtraction => of_number(whole(a as i128 - b as i128)),
        BinaryOperator::Multiplication => of_number(times(a, b)),
        BinaryOperator::Division => of_number(divided(a, b)),
        BinaryOperator::Remainder => of_number(remainder(a, b)),
        _ => KnownValue::Unknown,
    }
}
