//! Where the first byte stands that begins no item. The lexer tells its line alone, and which fronts of a line are cut into items; what an
//! item is stands there.

use pgs_base::{Bytes, Memory, TEXT_LIMIT};
use pgs_base_text::TextBuffer;
use pgs_lexer::{LexFault, Tokens, lex};
use std::alloc::Global;

// What may be missing behind a front of a line: nothing, or the rest of a string, of a quoted name, of `<-` or of the sign of a comment.
const ENDS: [&[u8]; 6] = [b"", b"'", b"`", b"a`", b"-", b"/"];

// How often a line can be halved.
const HALVINGS: u32 = 21;

/// A front of a line with an end behind it that is cut into items: whether that end is empty, and the places of the last token, both 0 where
/// there is none.
#[derive(Clone, Copy)]
struct Front {
    whole: bool,
    start: usize,
    end: usize,
}

// The places of the last token.
fn last_of(tokens: &Tokens<'_>) -> (usize, usize) {
    match tokens.at(tokens.len().saturating_sub(1)) {
        Some(token) => (token.start, token.end),
        None => (0, 0),
    }
}

// A front of a line with an end behind it.
fn joined(alloc: Global, front: &[u8], end: &[u8]) -> Result<Bytes, Memory> {
    let mut text = TextBuffer::with_room(alloc, front.len().saturating_add(end.len()))?;
    text.push(front)?;
    text.push(end)?;
    Ok(text.into_bytes())
}

// A front of a line with this end, where that is cut into items.
fn front_with(alloc: Global, front: &[u8], end: &[u8]) -> Result<Option<Front>, Memory> {
    let text = joined(alloc, front, end)?;
    if text.len() > TEXT_LIMIT {
        return Ok(None);
    }
    match lex(alloc, text.as_slice()) {
        Ok(tokens) => {
            let whole = end.is_empty();
            let (start, end) = last_of(&tokens);
            Ok(Some(Front { whole, start, end }))
        }
        Err(LexFault::Memory) => Err(Memory),
        Err(LexFault::Lex { .. }) => Ok(None),
    }
}

// A front of a line with some end, where one makes it a text that is cut into items.
fn front_of(alloc: Global, front: &[u8]) -> Result<Option<Front>, Memory> {
    for end in &ENDS {
        let found = front_with(alloc, front, end)?;
        if found.is_some() {
            return Ok(found);
        }
    }
    Ok(None)
}

// As many bytes as given from the front of a line, without a character that is broken off and without what is no UTF-8.
fn characters(line: &[u8], size: usize) -> &[u8] {
    let front = line.get(..size).unwrap_or(line);
    match str::from_utf8(front) {
        Ok(_) => front,
        Err(fault) => front.get(..fault.valid_up_to()).unwrap_or(front),
    }
}

// The longest front of a line with which some text goes on. Of a front with which one does, one goes on with each shorter front too.
fn longest_front(alloc: Global, line: &[u8]) -> Result<&[u8], Memory> {
    let mut least = 0;
    let mut most = line.len();
    for _ in 0..HALVINGS {
        if least < most {
            let middle = most - (most - least) / 2;
            if front_of(alloc, characters(line, middle))?.is_some() {
                least = middle;
            } else {
                most = middle.saturating_sub(1);
            }
        }
    }
    Ok(characters(line, least))
}

// Whether a byte goes on with a word.
fn is_of_word(byte: Option<&u8>) -> bool {
    match byte {
        Some(byte) => byte.is_ascii_alphanumeric() || *byte == b'_',
        None => false,
    }
}

// The first byte of a line that begins no item: behind the longest front, or where the item begins that this breaks off.
fn place_in(alloc: Global, line: &[u8]) -> Result<Option<usize>, Memory> {
    let front = longest_front(alloc, line)?;
    let size = front.len();
    match front_of(alloc, front)? {
        None => Ok(None),
        Some(
            Front {
                whole: true,
                start,
                end,
            },
        ) if end == size && is_of_word(line.get(size)) => Ok(Some(start)),
        Some(Front { whole: true, .. }) => Ok(Some(size)),
        Some(Front { start, end, .. }) if end > size => Ok(Some(start)),
        Some(_) => Ok(Some(size.saturating_sub(1))),
    }
}

// Where a line begins.
fn line_start(text: &[u8], line: u64) -> usize {
    let mut at: u64 = 1;
    let mut start = 0;
    for (place, byte) in text.iter().enumerate() {
        if *byte == b'\n' && at < line {
            at = at.saturating_add(1);
            start = place.saturating_add(1);
        }
    }
    start
}

/// The place of the first byte of a text that begins no item, by the line on which that is.
pub(crate) fn bad_place(alloc: Global, text: &[u8], line: u64) -> Result<Option<usize>, Memory> {
    let start = line_start(text, line);
    let rest = text.get(start..).unwrap_or(&[]);
    let size = rest.iter().take_while(|byte| **byte != b'\n').count();
    let line = rest.get(..size).unwrap_or(rest);
    match place_in(alloc, line)? {
        Some(place) => Ok(Some(start.saturating_add(place))),
        None => Ok(None),
    }
}
