ghost use Rattle.std.specs.Prelude.{◌≡◌, ◌++◌, IfOk, OnOk};
ghost use Rattle.pgs_base_text.specs.Text.{elem_text};
ghost use Rattle.pgs_pattern_end.specs.Texts.{no_step_text, no_place_text, no_value_text};

use pgs_base::{Bytes, Elem, Memory};
use pgs_base_text::TextBuffer;
use std::alloc::Global;

// Room for the words and an element.
const ROOM: usize = 64;

// Puts an element last, behind a word.
fn push_elem_behind(text: &mut TextBuffer, word: &[u8], elem: Elem) -> Result<(), Memory>
    ensures { OnOk result (text.new ≡ text.old ++ (word.now ++ elem_text elem)) }
{
    text.push(word)?;
    text.push_elem(elem)
}

// Two texts, a word and an element.
fn text_of(
    alloc: Global,
    before: &[u8],
    part: &[u8],
    word: &[u8],
    elem: Elem,
) -> Result<Bytes, Memory>
    ensures { IfOk result (λ text. text ≡ before.now ++ (part.now ++ (word.now ++ elem_text elem))) }
{
    let mut text = TextBuffer::with_room(alloc, part.len().saturating_add(ROOM))?;
    text.push(before)?;
    text.push(part)?;
    push_elem_behind(&mut text, word, elem)?;
    Ok(text.into_bytes())
}

/// The text of a step that goes on from no element, as `no <-[:owns]-(h:H) from n1`. `Memory` is free.
pub fn no_step_text(alloc: Global, step: &[u8], elem: Elem) -> Result<Bytes, Memory>
    ensures { IfOk result (λ text. text ≡ no_step_text step.now elem) }
{
    text_of(alloc, b"no ", step, b" from ", elem)
}

/// The text of a place that an element doesn't meet, as `no (y:B) at n2`. `Memory` is free.
pub fn no_place_text(alloc: Global, place: &[u8], elem: Elem) -> Result<Bytes, Memory>
    ensures { IfOk result (λ text. text ≡ no_place_text place.now elem) }
{
    text_of(alloc, b"no ", place, b" at ", elem)
}

/// The text of an expression that isn't there, as `h.name of n7`. `Memory` is free.
pub fn no_value_text(alloc: Global, expr: &[u8], elem: Elem) -> Result<Bytes, Memory>
    ensures { IfOk result (λ text. text ≡ no_value_text expr.now elem) }
{
    text_of(alloc, b"", expr, b" of ", elem)
}
