//! What is told of a line that is no JSON text.

ghost use Rattle.std.specs.Prelude.{◌≡◌, ◌<◌, ◌≤◌, ◌++◌, List, ℕ, length, IfSome, IfOk, OnOk};
ghost use Rattle.std.specs.Char.{digit_char};
ghost use Rattle.pgs_base.specs.Name.{is_between};
ghost use Rattle.pgs_json_causes.specs.Byte.{hex_text, IsFront, IsShownByte, IsShownPlace, IsByteCause};

use crate::fault_place::fault_place;
use pgs_base::{Bytes, Memory};
use pgs_base_text::TextBuffer;
use std::alloc::Global;
use std::str;

/// The most bytes of a character.
const LONGEST: usize = 4;

/// Room for the text of a byte.
const ROOM: usize = 64;

/// A digit of a number below 16, in lower case.
fn hex_digit(number: u8) -> u8
    requires { number < 16 }
    ensures { result ≡ digit_char number }
{
    if number < 10 {
        b'0' + number
    } else {
        b'a' + (number - 10)
    }
}

fn push_hex(out: &mut TextBuffer, byte: u8) -> Result<(), Memory>
    ensures { OnOk result (out.new ≡ out.old ++ hex_text byte) }
{
    out.push(b"byte ")?;
    out.push(&[hex_digit(byte / 16), hex_digit(byte % 16)])
}

/// The text at the front of bytes.
fn text_in_front(bytes: &[u8]) -> &str
    ensures { IsFront bytes.now result.now }
{
    match str::from_utf8(bytes) {
        Ok(text) => text,
        Err(e) => str::from_utf8(&bytes[..e.valid_up_to()]).unwrap_or(""),
    }
}

/// The character in front of bytes, where it can be printed.
fn printed_in_front(bytes: &[u8]) -> Option<&str>
    ensures { IfSome result (λ character. IsFront bytes.now character.now) }
{
    let front = text_in_front(&bytes[..bytes.len().min(LONGEST)]);
    let character = front.chars().next()?;
    if character.escape_debug().count() == 1 {
        front.get(..character.len_utf8())
    } else {
        None
    }
}

/// Whether a byte of ASCII prints.
fn is_printed(byte: u8) -> bool
    ensures { result ≡ is_between 32 126 byte }
{
    32 <= byte && byte <= 126
}

/// Puts a byte before others last: the character that it begins where this can be printed.
fn push_byte(out: &mut TextBuffer, byte: u8, rest: &[u8]) -> Result<(), Memory>
    ensures { OnOk result ((place : List ℕ) × IsShownByte byte rest.now place × (out.new ≡ out.old ++ place)) }
{
    if is_printed(byte) {
        return out.push(&[byte]);
    }
    match printed_in_front(rest) {
        Some(character) => out.push(character.as_bytes()),
        None => push_hex(out, byte),
    }
}

/// Puts what stands at a place last.
fn push_place(out: &mut TextBuffer, rest: &[u8]) -> Result<(), Memory>
    ensures { OnOk result ((place : List ℕ) × IsShownPlace rest.now place × (out.new ≡ out.old ++ place)) }
{
    match rest {
        [] => out.push(b"end of line"),
        [byte, ..] => push_byte(out, *byte, rest),
    }
}

/// The byte at which a line that is no JSON text stops being the front of one, with what stands there.
pub fn byte_cause(alloc: Global, line: &[u8]) -> Result<Bytes, Memory>
    ensures { IfOk result (λ text. IsByteCause line.now text) }
{
    let at = fault_place(line);
    let mut out = TextBuffer::with_room(alloc, ROOM)?;
    out.push(b"byte ")?;
    out.push_number(at as u64 + 1)?;
    out.push(b": ")?;
    push_place(&mut out, &line[at..])?;
    Ok(out.into_bytes())
}
