//! Parts of a transaction's JSON value: the members of an object, ids, names, days and values.

ghost use Rattle.std.specs.Prelude.{◌≡◌, ◌≤◌, ◌<◌, ◌^◌, IfSome, map, length, codes, option_map, option_and_then};
ghost use Rattle.std.specs.List.{list_any, list_all};
ghost use Rattle.std.specs.Str.{bytes_eq};
ghost use Rattle.pgs_json.specs.Form.{names_in, are_among, has_only, part, id_of, name_of, day_of, date_of, text_in, value_of};
ghost use Rattle.pgs_base.specs.DayForm.{number_in, day_in};
ghost use Rattle.pgs_base.specs.Name.{is_between};
ghost use Rattle.pgs_base.specs.declared.value.Value.TheVariants as values;
ghost use Rattle.pgs_json.specs.Tree.{view, members_view};
ghost use Rattle.pgs_json.specs.Unread.{Gives};

use crate::number::digits;
use crate::tree::{Json, Member};
use crate::unread::Unread;
use pgs_base::{Day, Name, Text, Value};
use std::alloc::Global;

fn is_among(names: &[&str], name: &str) -> bool
    ensures { result ≡ list_any (bytes_eq name.now) (map (λ one. one.now) names.now) }
{
    match names {
        [] => false,
        [one, others @ ..] => name == *one || is_among(others, name),
    }
}

/// Whether each member has one of these names.
pub fn are_among(names: &[&str], members: &[Member<'_>]) -> bool
    ensures { result ≡ are_among (map (λ one. one.now) names.now) (names_in (members_view members.now)) }
{
    for (name, _) in members {
        if !is_among(names, name) {
            return false;
        }
    }
    true
}

/// Whether this is an object none of whose members has another name than these.
pub fn has_only(value: &Json<'_>, names: &[&str]) -> bool
    ensures { result ≡ has_only (map (λ one. one.now) names.now) (view value.now) }
{
    match value.as_object() {
        Some(members) => are_among(names, members),
        None => false,
    }
}

/// The id that a member is, which has to be there.
pub fn id_part(part: Option<&Json<'_>>) -> Result<u64, Unread>
    ensures { Gives (λ x. x) result (option_and_then id_of (option_map (λ value. view value.now) part.entry)) }
{
    part.and_then(|value| value.as_u64()).ok_or(Unread::Unfit)
}

/// The name that a JSON text is.
pub fn name(alloc: Global, value: &Json<'_>) -> Result<Name, Unread>
    ensures { Gives (λ x. x) result (name_of (view value.now)) }
{
    let text = value.as_str().ok_or(Unread::Unfit)?;
    match Name::new(alloc, text.as_bytes())? {
        Some(name) => Ok(name),
        None => Err(Unread::Unfit),
    }
}

/// The name that a member is, which has to be there.
pub fn name_part(alloc: Global, part: Option<&Json<'_>>) -> Result<Name, Unread>
    ensures { Gives (λ x. x) result (option_and_then name_of (option_map (λ value. view value.now) part.entry)) }
{
    match part {
        Some(value) => name(alloc, value),
        None => Err(Unread::Unfit),
    }
}

fn is_digits(bytes: &[u8]) -> bool
    ensures { result ≡ list_all (is_between 48 57) bytes.now }
{
    bytes.iter().all(|byte| byte.is_ascii_digit())
}

/// The number that at most four digits write.
#[tactic(auto, using(crate::proofs::FormParts::digits_at_all, crate::proofs::FormParts::digits_small))]
fn number_in(bytes: &[u8]) -> Option<u64>
    requires { length bytes.now ≤ 4 }
    ensures value { result ≡ number_in bytes.now }
    ensures within { IfSome result (λ number. number < 10 ^ length bytes.now) }
{
    if is_digits(bytes) {
        let (number, _) = digits(bytes)?;
        Some(number)
    } else {
        None
    }
}

#[tactic(auto, unfolding(pgs_base::specs::DayForm::day_in))]
fn day_in(text: &[u8]) -> Option<Day>
    ensures { result ≡ day_in text.now }
{
    if text.len() == 10 && text[4] == b'-' && text[7] == b'-' {
        let year = number_in(&text[0..4])?;
        let month = number_in(&text[5..7])?;
        let day = number_in(&text[8..10])?;
        Day::new(year as u16, month as u8, day as u8)
    } else {
        None
    }
}

fn day(value: &Json<'_>) -> Option<Day>
    ensures { result ≡ day_of (view value.now) }
{
    let text = value.as_str()?;
    day_in(text.as_bytes())
}

/// The day that a JSON value is: an object with the one member `date`, a text such as `2024-02-29`.
pub fn date(value: &Json<'_>) -> Option<Day>
    ensures { result ≡ date_of (view value.now) }
{
    if has_only(value, &["date"]) {
        day(value.get("date")?)
    } else {
        None
    }
}

fn text(alloc: Global, text: &str) -> Result<Value, Unread>
    ensures { Gives (λ x. x) result (option_map values.Text (text_in text.now)) }
{
    match Text::new(alloc, text)? {
        Some(text) => Ok(Value::Text(text)),
        None => Err(Unread::Unfit),
    }
}

/// The property value that a JSON value is.
#[tactic(auto, using(crate::specs::declared::tree::Json::the_lemmas))]
pub fn value(alloc: Global, value: &Json<'_>) -> Result<Value, Unread>
    ensures { Gives (λ x. x) result (value_of (view value.now)) }
{
    match value {
        Json::Bool(truth) => Ok(Value::Bool(*truth)),
        Json::Number(number) => {
            let number = number.as_i64().ok_or(Unread::Unfit)?;
            Ok(Value::Int(number))
        }
        Json::String(characters) => text(alloc, characters),
        Json::Object(_) => {
            let day = date(value).ok_or(Unread::Unfit)?;
            Ok(Value::Date(day))
        }
        Json::Null | Json::Array(_) => Err(Unread::Unfit),
    }
}

/// The property value that a member is, which has to be there.
pub fn value_part(alloc: Global, part: Option<&Json<'_>>) -> Result<Value, Unread>
    ensures { Gives (λ x. x) result (option_and_then value_of (option_map (λ value. view value.now) part.entry)) }
{
    match part {
        Some(found) => value(alloc, found),
        None => Err(Unread::Unfit),
    }
}
