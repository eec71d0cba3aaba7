// Numbers.
ghost use Rattle.std.specs.Prelude.{◌≡◌, ◌==◌, ◌<◌, slice_index, length, option_map, true, false, IsTrue};
ghost use Rattle.serde_json.specs.View.{number_view};
ghost use Rattle.serde_json.specs.Read.{number_of, number_from};

use fast_float::Numeral;
use serde_json::Number;

// A whole number of 64 bits, or else the nearest float.
fn magnitude(numeral: &Numeral<'_>) -> Option<Number>
    ensures { option_map number_view result ≡ number_from false numeral.now }
{
    match numeral.to_u64() {
        Some(n) => Number::from_u128(n as u128),
        None => Number::from_f64(numeral.to_float::<f64>(false)),
    }
}

// The same below zero; a negative zero is a float.
fn negation(numeral: &Numeral<'_>) -> Option<Number>
    ensures { option_map number_view result ≡ number_from true numeral.now }
{
    match numeral.to_i64(true) {
        Some(n) if n < 0 => Number::from_i128(n as i128),
        _ => Number::from_f64(numeral.to_float::<f64>(true)),
    }
}

fn begins_with_minus(bytes: &[u8]) -> bool
    ensures value { result ≡ (slice_index bytes.now 0 == 45) }
    ensures some { IsTrue result → 0 < length bytes.now }
{
    match bytes.first() {
        Some(first) => *first == b'-',
        None => false,
    }
}

/// The number that a token of JSON writes; none is past the greatest float.
pub(crate) fn number(text: &str) -> Option<Number>
    ensures { option_map number_view result ≡ number_of text.now }
{
    let bytes = text.as_bytes();
    if begins_with_minus(bytes) {
        negation(&Numeral::scan(&bytes[1..]))
    } else {
        magnitude(&Numeral::scan(bytes))
    }
}
