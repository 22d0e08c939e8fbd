//! Texts of a few pieces, of which most texts and lines are made.

ghost use Rattle.std.specs.Prelude.{◌≡◌, ◌++◌, codes, decimal, IfOk, OnOk};

use pgs_base::{Bytes, Memory};
use pgs_base_text::TextBuffer;
use std::alloc::Global;

// Room for the words of a text or a line, and two numbers.
const ROOM: usize = 96;

/// A text between two others.
pub(crate) fn text_between(
    alloc: Global,
    before: &[u8],
    text: &[u8],
    behind: &[u8],
) -> Result<Bytes, Memory>
    ensures { IfOk result (λ made. made ≡ before.now ++ (text.now ++ behind.now)) }
{
    let mut made = TextBuffer::with_room(alloc, text.len().saturating_add(ROOM))?;
    made.push(before)?;
    made.push(text)?;
    made.push(behind)?;
    Ok(made.into_bytes())
}

/// Puts a text and a number behind it last.
pub(crate) fn push_count(line: &mut TextBuffer, name: &[u8], count: u64) -> Result<(), Memory>
    ensures { OnOk result (line.new ≡ line.old ++ (name.now ++ decimal count)) }
{
    line.push(name)?;
    line.push_number(count)
}

/// A number behind a text.
pub(crate) fn number_behind(alloc: Global, before: &[u8], number: u64) -> Result<Bytes, Memory>
    ensures { IfOk result (λ made. made ≡ before.now ++ decimal number) }
{
    let mut made = TextBuffer::with_room(alloc, ROOM)?;
    made.push(before)?;
    made.push_number(number)?;
    Ok(made.into_bytes())
}

/// A number between two texts.
pub(crate) fn number_between(
    alloc: Global,
    before: &[u8],
    number: u64,
    behind: &[u8],
) -> Result<Bytes, Memory>
    ensures { IfOk result (λ made. made ≡ before.now ++ (decimal number ++ behind.now)) }
{
    let mut made = TextBuffer::with_room(alloc, ROOM)?;
    made.push(before)?;
    made.push_number(number)?;
    made.push(behind)?;
    Ok(made.into_bytes())
}

/// A line of two numbers, each behind a text.
pub(crate) fn two_numbers_line(
    alloc: Global,
    before: &[u8],
    first: u64,
    between: &[u8],
    second: u64,
) -> Result<Bytes, Memory>
    ensures { IfOk result (λ made. made ≡ before.now ++ (decimal first ++ (between.now ++ (decimal second ++ codes "\n")))) }
{
    let mut made = TextBuffer::with_room(alloc, ROOM)?;
    push_count(&mut made, before, first)?;
    push_count(&mut made, between, second)?;
    made.push(b"\n")?;
    Ok(made.into_bytes())
}
