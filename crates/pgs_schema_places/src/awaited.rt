//! What might stand where a statement doesn't go on, as a text.

ghost use Rattle.std.specs.Prelude.{◌≡◌, ◌++◌, codes, IfOk};
ghost use Rattle.pgs_lexer.specs.Form.{is_line};
ghost use Rattle.pgs_schema_places.specs.Because.{AreOthers};

use crate::grammar::Symbol;
use crate::reading::Reading;
use pgs_base::{Bytes, List, Memory};
use pgs_base_text::TextBuffer;
use pgs_lexer::Tokens;
use std::alloc::Global;

// Room for a few words.
const ROOM: usize = 64;

// What is said of a token that may stand at a place.
fn words_of(symbol: Symbol) -> &'static [u8] {
    match symbol {
        Symbol::Word(word) | Symbol::Once(word) => word,
        Symbol::Name(_) => b"a name",
        Symbol::Number => b"a number of 64 bits",
        Symbol::Least => b"a number from 0 to 1000000",
        Symbol::AtMost => b"a number from the first to 1000000",
        Symbol::Text => b"a string of at most 65535 bytes",
        Symbol::Day => b"a day as '2024-02-29'",
        Symbol::Then(_) | Symbol::Nothing => b"",
    }
}

// These in words, with `or` between two.
fn words_of_all(alloc: Global, symbols: &[Symbol]) -> Result<Bytes, Memory> {
    let mut text = TextBuffer::with_room(alloc, ROOM)?;
    let mut between: &[u8] = b"";
    for symbol in symbols {
        text.push(between)?;
        text.push(words_of(*symbol))?;
        between = b" or ";
    }
    Ok(text.into_bytes())
}

fn is_line(text: &[u8]) -> bool
    ensures { result ≡ is_line text.now }
{
    text.iter().all(|byte| *byte != b'\n')
}

/// Where nothing is said of what might stand at a place.
pub(crate) fn no_others(alloc: Global) -> Bytes
    ensures { AreOthers result }
{
    List::new(alloc)
}

// Words as they are said behind what a place has.
fn in_place_of(alloc: Global, words: &[u8]) -> Result<Bytes, Memory>
    ensures { IfOk result (λ text. text ≡ codes " in place of " ++ words.now) }
{
    let mut text = TextBuffer::with_room(alloc, ROOM)?;
    text.push(b" in place of ")?;
    text.push(words)?;
    Ok(text.into_bytes())
}

/// What might stand behind the tokens that were read, as the end of a line; nothing where that is unknown.
pub(crate) fn others_text(
    alloc: Global,
    reading: &Reading,
    tokens: &Tokens<'_>,
) -> Result<Bytes, Memory>
    ensures { IfOk result AreOthers }
{
    let firsts = reading.firsts(alloc, tokens)?;
    let words = words_of_all(alloc, &firsts)?;
    if words.is_empty() || !is_line(words.as_slice()) {
        return Ok(no_others(alloc));
    }
    let text = in_place_of(alloc, words.as_slice())?;
    Ok(text)
}
