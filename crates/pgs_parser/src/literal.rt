ghost use Rattle.std.specs.Prelude.{◌≡◌, ◌<◌, ◌≤◌, ◌^◌, ◌∷◌, length, drop, slice_index, IfSome, Some};
ghost use Rattle.std.specs.List.{list_all};
ghost use Rattle.std.specs.Str.{IsUtf8};
ghost use Rattle.std.specs.Str.Parse.{signed_digits_value};
ghost use Rattle.pgs_base.specs.DayForm.{number_in, day_in};
ghost use Rattle.pgs_base.specs.Name.{is_between};
ghost use Rattle.pgs_lexer.specs.Form.{IsNumber};
ghost use Rattle.pgs_lexer.specs.Token.{HasForm};
ghost use Rattle.pgs_lexer.specs.declared.kind.TokenKind.TheVariants as kinds;
ghost use Rattle.pgs_parser.specs.Gives.{Gives};
ghost use Rattle.pgs_parser.specs.Literal.{inside, name_in, with_single_quotes};
ghost use Rattle.pgs_parser.specs.KeyReaders.{value_of, text_value, number_value, keyword_value, day_of};

use crate::unread::Unread;
use pgs_base::{Day, Name, Text, Value};
use pgs_lexer::TokenKind;
use std::alloc::Global;

/// Bytes without their first and their last.
fn inside(bytes: &[u8]) -> &[u8]
    ensures { result.now ≡ inside bytes.now }
{
    if bytes.len() < 2 {
        &[]
    } else {
        &bytes[1..bytes.len() - 1]
    }
}

fn name_in(bytes: &[u8]) -> &[u8]
    ensures { result.now ≡ name_in bytes.now }
{
    match bytes {
        [b'`', ..] => inside(bytes),
        _ => bytes,
    }
}

/// The name that a name token is.
pub fn name_of(alloc: Global, bytes: &[u8]) -> Result<Name, Unread>
    requires { HasForm kinds.Name bytes.now }
    ensures { Gives (λ name. name) result (Some (name_in bytes.now)) }
{
    match Name::new(alloc, name_in(bytes))? {
        Some(name) => Ok(name),
        None => Err(Unread::OtherForm),
    }
}

/// How many bytes the first byte of a text is written with: a quote with two.
fn written_size(bytes: &[u8]) -> usize
    requires { 0 < length bytes.now }
    ensures within { result ≤ length bytes.now }
    ensures some { 0 < result }
    ensures first { with_single_quotes bytes.now ≡ slice_index bytes.now 0 ∷ with_single_quotes (drop result bytes.now) }
{
    match bytes {
        [b'\'', b'\'', ..] => 2,
        _ => 1,
    }
}

/// Bytes in which each pair of quotes is one quote.
fn with_single_quotes(alloc: Global, bytes: &[u8]) -> Result<Vec<u8>, Unread>
    ensures { Gives (λ text. text.items) result (Some (with_single_quotes bytes.now)) }
{
    let mut text = Vec::new(alloc);
    let mut place = 0;
    while place < bytes.len() {
        text.push(bytes[place])?;
        place += written_size(&bytes[place..]);
    }
    Ok(text)
}

fn text_value(alloc: Global, text: &[u8]) -> Result<Value, Unread>
    requires { IsUtf8 text.now }
    ensures { Gives (λ value. value) result (text_value text.now) }
{
    match str::from_utf8(text) {
        Err(_) => Err(Unread::OtherForm),
        Ok(text) => match Text::new(alloc, text)? {
            Some(text) => Ok(Value::Text(text)),
            None => Err(Unread::OtherForm),
        },
    }
}

fn number_value(bytes: &[u8]) -> Option<Value>
    requires { IsNumber bytes.now }
    ensures { result ≡ number_value (signed_digits_value 10 bytes.now) }
{
    match str::from_utf8(bytes) {
        Err(_) => None,
        Ok(digits) => match i64::from_str_radix(digits, 10) {
            Ok(number) => Some(Value::Int(number)),
            Err(_) => None,
        },
    }
}

fn keyword_value(bytes: &[u8]) -> Option<Value>
    ensures { result ≡ keyword_value bytes.now }
{
    if bytes == b"TRUE".as_slice() {
        Some(Value::Bool(true))
    } else if bytes == b"FALSE".as_slice() {
        Some(Value::Bool(false))
    } else {
        None
    }
}

/// The value that a token is.
pub fn value_of(alloc: Global, kind: TokenKind, bytes: &[u8]) -> Result<Value, Unread>
    requires { HasForm kind bytes.now }
    ensures { Gives (λ value. value) result (value_of kind bytes.now) }
{
    match kind {
        TokenKind::Text => {
            let text = with_single_quotes(alloc, inside(bytes))?;
            text_value(alloc, text.as_slice())
        }
        TokenKind::Number => number_value(bytes).ok_or(Unread::OtherForm),
        TokenKind::Keyword => keyword_value(bytes).ok_or(Unread::OtherForm),
        _ => Err(Unread::OtherForm),
    }
}

/// The day that a token is.
pub fn day_of(alloc: Global, kind: TokenKind, bytes: &[u8]) -> Result<Day, Unread>
    ensures { Gives (λ day. day) result (day_of kind bytes.now) }
{
    match kind {
        TokenKind::Text => {
            let text = with_single_quotes(alloc, inside(bytes))?;
            day_in(text.as_slice()).ok_or(Unread::OtherForm)
        }
        _ => Err(Unread::OtherForm),
    }
}

fn is_digits(bytes: &[u8]) -> bool
    ensures { result ≡ list_all (is_between 48 57) bytes.now }
{
    bytes.iter().all(|byte| byte.is_ascii_digit())
}

/// The number that one to four digits write.
fn number_in(bytes: &[u8]) -> Option<u16>
    requires some { 0 < length bytes.now }
    requires few { length bytes.now ≤ 4 }
    ensures value { result ≡ number_in bytes.now }
    ensures within { IfSome result (λ number. number < 10 ^ length bytes.now) }
{
    if !is_digits(bytes) {
        return None;
    }
    match str::from_utf8(bytes) {
        Err(_) => None,
        Ok(digits) => match u16::from_str_radix(digits, 10) {
            Ok(number) => Some(number),
            Err(_) => None,
        },
    }
}

/// The day that a text of its form is.
#[tactic(auto, unfolding(pgs_base::specs::DayForm::day_in))]
fn day_in(text: &[u8]) -> Option<Day>
    ensures { result ≡ day_in text.now }
{
    if text.len() == 10 && text[4] == b'-' && text[7] == b'-' {
        let year = number_in(&text[0..4])?;
        let month = number_in(&text[5..7])?;
        let day = number_in(&text[8..10])?;
        Day::new(year, month as u8, day as u8)
    } else {
        None
    }
}
