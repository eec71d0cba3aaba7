// Arithmetic on whole numbers (ECMA-262 6.1.6.1).
ghost use Rattle.std.specs.Prelude.{◌≡◌, ◌||◌, not, neg_ℤ, int_rem, int_div, false};
ghost use Rattle.js_meaning.specs.Operator.{is_zero, is_negative, whole, signed, times, divided, remainder, int_eq};
ghost use Rattle.run_value.specs.Given.{gives_number, computed, plain_gives};

use crate::plain::Plain;
use js_syntax::BinaryOperator;

const LARGEST: u128 = 9007199254740991;

fn is_zero(a: i64) -> bool
    ensures { result ≡ is_zero a }
{
    a == 0
}

fn is_nothing(a: i128) -> bool
    ensures { result ≡ is_zero a }
{
    a == 0
}

fn is_negative(a: i64) -> bool
    ensures { result ≡ is_negative a }
{
    a < 0
}

pub(crate) fn same(a: i64, b: i64) -> bool
    ensures { result ≡ int_eq a b }
{
    a == b
}

// A number within 2^53 - 1 of zero.
#[tactic(auto, unfolding(js_meaning::specs::State::choose))]
pub(crate) fn whole(number: i128) -> Option<i64>
    ensures { gives_number result ≡ whole number }
{
    if number.unsigned_abs() <= LARGEST {
        Some(number as i64)
    } else {
        None
    }
}

// A zero whose sign is negative where `minus` is true.
#[tactic(auto, unfolding(js_meaning::specs::State::choose))]
pub(crate) fn signed(minus: bool, number: i128) -> Option<i64>
    ensures { gives_number result ≡ signed minus number }
{
    if number == 0 && minus {
        None
    } else {
        whole(number)
    }
}

fn times(a: i64, b: i64) -> Option<i64>
    ensures { gives_number result ≡ times a b }
{
    let minus = is_negative(a) || is_negative(b);
    signed(minus, a as i128 * b as i128)
}

fn rest(a: i64, b: i64) -> i128
    requires { is_zero b ≡ false }
    ensures { result ≡ int_rem a b }
{
    a as i128 % b as i128
}

fn quotient(a: i64, b: i64) -> i128
    requires { is_zero b ≡ false }
    ensures { result ≡ int_div a b }
{
    a as i128 / b as i128
}

#[tactic(auto, unfolding(js_meaning::specs::State::choose))]
fn divided(a: i64, b: i64) -> Option<i64>
    ensures { gives_number result ≡ divided a b }
{
    if is_zero(b) {
        return None;
    }
    if !is_nothing(rest(a, b)) {
        return None;
    }
    signed(is_negative(b), quotient(a, b))
}

// The sign is that of the dividend (6.1.6.1.6).
#[tactic(auto, unfolding(js_meaning::specs::State::choose))]
fn remainder(a: i64, b: i64) -> Option<i64>
    ensures { gives_number result ≡ remainder a b }
{
    if is_zero(b) {
        return None;
    }
    signed(is_negative(a), rest(a, b))
}

fn number(found: Option<i64>) -> Option<Plain>
    ensures { plain_gives result ≡ gives_number found }
{
    match found {
        Some(number) => Some(Plain::Number(number)),
        None => None,
    }
}

// What the operators on two numbers give.
pub(crate) fn computed(operator: BinaryOperator, a: i64, b: i64) -> Option<Plain>
    ensures { plain_gives result ≡ computed operator a b }
{
    match operator {
        BinaryOperator::LessThan => Some(Plain::Boolean(a < b)),
        BinaryOperator::LessEqualThan => Some(Plain::Boolean(a <= b)),
        BinaryOperator::GreaterThan => Some(Plain::Boolean(b < a)),
        BinaryOperator::GreaterEqualThan => Some(Plain::Boolean(b <= a)),
        BinaryOperator::Addition => number(whole(a as i128 + b as i128)),
        BinaryOperator::Subtraction => number(whole(a as i128 - b as i128)),
        BinaryOperator::Multiplication => number(times(a, b)),
        BinaryOperator::Division => number(divided(a, b)),
        BinaryOperator::Remainder => number(remainder(a, b)),
        _ => None,
    }
}
