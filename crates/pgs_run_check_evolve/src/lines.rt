//! The lines of what a step changes.

ghost use Rattle.std.specs.Prelude.{◌≡◌, ◌++◌, IfOk, OnOk, option_map};
ghost use Rattle.pgs_run_check_evolve.specs.Lines.{strict_line, safe_line, word_of, key_line as line_of_key, line_at, key_lines};

use pgs_base::{Bytes, List, Memory};
use pgs_base_text::TextBuffer;
use std::alloc::Global;

// Room for the word of a line and a number.
const ROOM: usize = 32;

/// The line of a guard that is strict where the old one isn't.
pub(crate) fn strict_line(alloc: Global) -> Result<Bytes, Memory>
    ensures { IfOk result (λ line. line ≡ strict_line) }
{
    List::from_slice(alloc, b"asks STRICT\n")
}

/// The line of a safe step.
pub(crate) fn safe_line(alloc: Global) -> Result<Bytes, Memory>
    ensures { IfOk result (λ line. line ≡ safe_line) }
{
    List::from_slice(alloc, b"safe\n")
}

/// Whose keys are told of.
#[derive(Clone, Copy)]
pub(crate) enum KeysOf {
    /// The new guard's: each one is kept, or asked anew.
    New,
    /// The old guard's: those that are dropped are told.
    Old,
}

// The word for a key, where it is told.
fn word_of(keys: KeysOf, flag: bool) -> Option<&'static [u8]>
    ensures { option_map (λ word. word.now) result ≡ word_of keys flag }
{
    match (keys, flag) {
        (KeysOf::New, true) => Some(b"kept "),
        (KeysOf::New, false) => Some(b"asks "),
        (KeysOf::Old, true) => Some(b"drops "),
        (KeysOf::Old, false) => None,
    }
}

fn key_line(alloc: Global, word: &[u8], number: u64) -> Result<Bytes, Memory>
    ensures { IfOk result (λ line. line ≡ line_of_key word.now number) }
{
    let mut line = TextBuffer::with_room(alloc, ROOM)?;
    line.push(word)?;
    line.push_number(number)?;
    line.push(b"\n")?;
    Ok(line.into_bytes())
}

// Puts the line of a key last, where it is told.
fn push_line(
    alloc: Global,
    word: Option<&[u8]>,
    number: u64,
    lines: &mut Vec<Bytes>,
) -> Result<(), Memory>
    ensures { OnOk result (lines.new.items ≡ lines.old.items ++ line_at (option_map (λ word. word.now) word.entry) number) }
{
    if let Some(word) = word {
        lines.push(key_line(alloc, word, number)?)?;
    }
    Ok(())
}

/// Puts the lines of keys last, of which it says whether each is kept, or whether it is dropped.
pub(crate) fn push_keys(
    alloc: Global,
    keys: KeysOf,
    flags: &[bool],
    lines: &mut Vec<Bytes>,
) -> Result<(), Memory>
    ensures { OnOk result (lines.new.items ≡ lines.old.items ++ key_lines keys 1 flags.now) }
{
    let mut number = 0;
    for flag in flags {
        number += 1;
        push_line(alloc, word_of(keys, *flag), number, lines)?;
    }
    Ok(())
}
