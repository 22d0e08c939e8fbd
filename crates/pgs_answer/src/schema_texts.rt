ghost use Rattle.std.specs.Prelude.{◌≡◌, IfOk};
ghost use Rattle.pgs_answer.specs.Refusals.{lex_text, syntax_text, no_graph_type_text, duplicate_text, unknown_text, kind_text, cycle_text, too_wide_text, key_cause_words, bad_key_text, too_long_text};

use crate::pieces::{number_behind, number_between, text_between};
use pgs_base::{Bytes, Memory, Name, TEXT_LIMIT};
use pgs_base_text::TextBuffer;
use pgs_syntax::KeyCause;
use std::alloc::Global;

// Room for a text with a number.
const ROOM: usize = 96;

/// Refusal 10: the line, from 1, of the first byte that begins no item.
pub fn lex_text(alloc: Global, line: u64) -> Result<Bytes, Memory>
    ensures { IfOk result (λ text. text ≡ lex_text line) }
{
    number_behind(alloc, b"10 line ", line)
}

/// Refusal 11: the number, from 1, of the first statement that is none.
pub fn syntax_text(alloc: Global, statement: u64) -> Result<Bytes, Memory>
    ensures { IfOk result (λ text. text ≡ syntax_text statement) }
{
    number_behind(alloc, b"11 statement ", statement)
}

/// Refusal 12: the script has no graph type.
pub fn no_graph_type_text(alloc: Global) -> Result<Bytes, Memory>
    ensures { IfOk result (λ text. text ≡ no_graph_type_text) }
{
    Bytes::from_slice(alloc, b"12 no graph type")
}

/// Refusal 13: the name that is declared twice.
pub fn duplicate_text(alloc: Global, name: &Name) -> Result<Bytes, Memory>
    ensures { IfOk result (λ text. text ≡ duplicate_text name.now) }
{
    text_between(alloc, b"13 ", name.bytes(), b" is declared twice")
}

/// Refusal 14: the name that is not declared.
pub fn unknown_text(alloc: Global, name: &Name) -> Result<Bytes, Memory>
    ensures { IfOk result (λ text. text ≡ unknown_text name.now) }
{
    text_between(alloc, b"14 ", name.bytes(), b" is not declared")
}

/// Refusal 15: the type that is named where one of another kind has to be.
pub fn kind_text(alloc: Global, name: &Name) -> Result<Bytes, Memory>
    ensures { IfOk result (λ text. text ≡ kind_text name.now) }
{
    text_between(alloc, b"15 ", name.bytes(), b" has the wrong kind")
}

/// Refusal 16: the least name on a cycle.
pub fn cycle_text(alloc: Global, name: &Name) -> Result<Bytes, Memory>
    ensures { IfOk result (λ text. text ≡ cycle_text name.now) }
{
    text_between(alloc, b"16 ", name.bytes(), b" is on a cycle")
}

/// Refusal 17: the type with which the types are too wide.
pub fn too_wide_text(alloc: Global, name: &Name) -> Result<Bytes, Memory>
    ensures { IfOk result (λ text. text ≡ too_wide_text name.now) }
{
    text_between(alloc, b"17 type ", name.bytes(), b" is too wide")
}

fn key_cause_words(cause: KeyCause) -> &'static [u8]
    ensures { result.now ≡ key_cause_words cause }
{
    match cause {
        KeyCause::NoX => b"no scope variable",
        KeyCause::TwoKinds => b"variable of two kinds",
        KeyCause::Shared => b"shared variable",
        KeyCause::Disconnected => b"disconnected pattern",
        KeyCause::UnknownVariable => b"unknown variable",
        KeyCause::TooLarge => b"pattern too large",
    }
}

/// Refusal 18: the number of the key in the script, from 1, and its fault.
pub fn bad_key_text(alloc: Global, key: u64, cause: &KeyCause) -> Result<Bytes, Memory>
    ensures { IfOk result (λ text. text ≡ bad_key_text key cause.now) }
{
    let mut text = TextBuffer::with_room(alloc, ROOM)?;
    text.push(b"18 key ")?;
    text.push_number(key)?;
    text.push(b": ")?;
    text.push(key_cause_words(*cause))?;
    Ok(text.into_bytes())
}

/// Refusal 19: the schema text has over `TEXT_LIMIT` bytes.
pub fn too_long_text(alloc: Global) -> Result<Bytes, Memory>
    ensures { IfOk result (λ text. text ≡ too_long_text) }
{
    number_between(
        alloc,
        b"19 text is longer than ",
        TEXT_LIMIT as u64,
        b" bytes",
    )
}
