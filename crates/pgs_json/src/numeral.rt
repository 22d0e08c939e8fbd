//! The number that a token of JSON writes.

ghost use Rattle.std.specs.Prelude.{◌≡◌, ◌==◌, ◌<◌, length, slice_index, option_map, IfSome, IsTrue, Some, true, false};
ghost use Rattle.serde_json.specs.Data.{unsigned};
ghost use Rattle.serde_json.specs.Read.{number_of, number_from, float_of};
ghost use Rattle.serde_json.specs.View.{number_view};

use crate::number::digits;
use fast_float::Numeral;
use serde_json::Number;

fn has_minus(bytes: &[u8]) -> bool
    ensures value { result ≡ (slice_index bytes.now 0 == 45) }
    ensures within { IsTrue result → 0 < length bytes.now }
{
    !bytes.is_empty() && bytes[0] == b'-'
}

fn nearest(is_negative: bool, numeral: &Numeral<'_>) -> Option<Number>
    ensures { option_map number_view result ≡ float_of is_negative numeral.now }
{
    Number::from_f64(numeral.to_float::<f64>(is_negative))
}

fn unsigned(numeral: &Numeral<'_>) -> Option<Number>
    ensures { option_map number_view result ≡ number_from false numeral.now }
{
    match numeral.to_u64() {
        Some(number) => Some(Number::from(number)),
        None => nearest(false, numeral),
    }
}

fn negative(numeral: &Numeral<'_>) -> Option<Number>
    ensures { option_map number_view result ≡ number_from true numeral.now }
{
    match numeral.to_i64(true) {
        Some(number) if number < 0 => Some(Number::from(number)),
        _ => nearest(true, numeral),
    }
}

fn any_number(bytes: &[u8]) -> Option<Number>
    ensures { option_map number_view result ≡ number_of bytes.now }
{
    if has_minus(bytes) {
        negative(&Numeral::scan(&bytes[1..]))
    } else {
        unsigned(&Numeral::scan(bytes))
    }
}

/// The number below 2^64 that digits alone write: most numbers of a line are such ones, and are read in one loop.
fn whole_number(bytes: &[u8]) -> Option<u64>
    ensures { IfSome result (λ number. number_of bytes.now ≡ Some (unsigned number)) }
{
    let (number, count) = digits(bytes)?;
    if 0 < count && count == bytes.len() {
        Some(number)
    } else {
        None
    }
}

/// The number that a token writes. `None` exactly where a float can't be as large.
pub fn number(text: &str) -> Option<Number>
    ensures { option_map number_view result ≡ number_of text.now }
{
    let bytes = text.as_bytes();
    match whole_number(bytes) {
        Some(number) => Some(Number::from(number)),
        None => any_number(bytes),
    }
}
