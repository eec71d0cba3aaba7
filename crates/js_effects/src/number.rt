// Which numbers have a value, and which texts are numbers as they are written.
ghost use Rattle.std.specs.Prelude.{◌≡◌};
ghost use Rattle.js_effects.specs.Number.{is_in_range, is_digit, within, digits_from, digits, positive, negative, signed_digits, equivalent_number};

const LARGEST: u128 = 9007199254740991;

/// Whether a number is within 2^53 - 1, where each whole number is one of ECMAScript's (ECMA-262 21.1.2.8).
pub fn in_range(number: i64) -> bool
    ensures within { result ≡ is_in_range number }
{
    (number as i128).unsigned_abs() <= LARGEST
}

// Past all numbers of 32 bits.
const LIMIT: u64 = 2147483648;

fn is_digit(byte: u8) -> bool
    ensures { result ≡ is_digit byte }
{
    48 <= byte && byte <= 57
}

// The number that digits give, if all are digits and it isn't past the limit.
#[tactic(auto, using(crate::proofs::Digits::past_at))]
fn number_of(text: &[u8]) -> Option<u64>
    ensures { result ≡ within (digits_from 0 text.now) }
{
    let mut number: u64 = 0;
    for byte in text {
        if !is_digit(*byte) {
            return None;
        }
        number = number * 10 + u64::from(*byte - 48);
        if number > LIMIT {
            return None;
        }
    }
    Some(number)
}

fn digits(text: &[u8]) -> Option<u64>
    ensures { result ≡ digits text.now }
{
    match text {
        [] => None,
        [first, ..] => { if *first == 48 { None } else { number_of(text) } }
    }
}

fn positive(number: Option<u64>) -> Option<i64>
    ensures { result ≡ positive number }
{
    match number {
        Some(number) if number < LIMIT => Some(number as i64),
        _ => None,
    }
}

fn negative(number: Option<u64>) -> Option<i64>
    ensures { result ≡ negative number }
{
    match number {
        Some(number) if number <= LIMIT => Some(-(number as i64)),
        _ => None,
    }
}

fn signed_digits(text: &[u8]) -> Option<i64>
    ensures { result ≡ signed_digits text.now }
{
    match text {
        [] => None,
        [first, rest @ ..] => {
            if *first == 45 {
                negative(digits(rest))
            } else {
                positive(digits(text))
            }
        }
    }
}

/// The number whose text this is: of "0", and of an optional minus and digits without a leading 0, if it has 32 bits at
/// most.
pub fn string_to_equivalent_number_value(text: &str) -> Option<i64>
    ensures number { result ≡ equivalent_number text.now }
{
    if text == "0" {
        Some(0)
    } else {
        signed_digits(text.as_bytes())
    }
}
