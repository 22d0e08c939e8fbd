ghost use Rattle.std.specs.Prelude.{◌≡◌, option_map};
ghost use Rattle.pgs_json.specs.Tree.{view};
ghost use Rattle.serde_json.specs.View.{number_view};
ghost use Rattle.pgs_json_causes.specs.Cause.{is_beyond, number_fault, value_fault};

use pgs_base::Text;
use pgs_json::{Json, date};
use serde_json::Number;

/// The least number above those of 64 bits with a sign.
const ABOVE: f64 = 9_223_372_036_854_775_808.0;

/// The least of those numbers. An integer below it is read as a float, of which this is the greatest.
const BELOW: f64 = -9_223_372_036_854_775_808.0;

/// Whether a number lies beyond those of 64 bits with a sign.
fn is_beyond(number: &Number) -> bool
    ensures { result ≡ is_beyond (number_view number.now) }
{
    match number.as_f64() {
        Some(float) => ABOVE <= float || float <= BELOW,
        None => false,
    }
}

fn number_fault(number: &Number) -> Option<&'static str>
    ensures { option_map (λ words. words.now) result ≡ number_fault (number_view number.now) }
{
    if number.is_i64() {
        None
    } else if is_beyond(number) {
        Some("no number of 64 bits")
    } else {
        Some("no whole number")
    }
}

/// What a JSON value is, if it is no value of a property.
pub fn value_fault(value: &Json<'_>) -> Option<&'static str>
    ensures { option_map (λ words. words.now) result ≡ value_fault (view value.now) }
{
    match value {
        Json::Bool(_) => None,
        Json::Number(number) => number_fault(number),
        Json::String(text) if text.len() <= Text::LONGEST => None,
        Json::String(_) => Some("a text of over 65535 bytes"),
        Json::Object(_) => match date(value) {
            Some(_) => None,
            None => Some("no day"),
        },
        Json::Null | Json::Array(_) => Some("no value"),
    }
}
