ghost use Rattle.std.specs.Prelude.{◌≡◌, IfOk};
ghost use Rattle.pgs_answer.specs.Refusals.{line_too_long_at_text, not_a_commit_text, gap_text, bad_commit_text};

use crate::pieces::{number_between, push_count};
use crate::rejection_texts::push_structural;
use pgs_base::{Bytes, Limits, Memory};
use pgs_base_text::TextBuffer;
use pgs_violation::Structural;
use std::alloc::Global;

// Room for a text with three numbers.
const ROOM: usize = 128;

/// Refusal 47: the number, from 1, of a line of a feed that is longer than a line of a commit may be.
pub fn line_too_long_at_text(alloc: Global, line: u64) -> Result<Bytes, Memory>
    ensures { IfOk result (λ text. text ≡ line_too_long_at_text line) }
{
    number_between(alloc, b"47 line ", line, b" is too long")
}

/// Refusal 48: the number, from 1, of a line of a feed that is no commit.
pub fn not_a_commit_text(alloc: Global, line: u64) -> Result<Bytes, Memory>
    ensures { IfOk result (λ text. text ≡ not_a_commit_text line) }
{
    number_between(alloc, b"48 line ", line, b" is not a commit")
}

/// Refusal 49: the number of the next commit, and that of a commit that is ahead of its turn.
pub fn gap_text(alloc: Global, expected: u64, found: u64) -> Result<Bytes, Memory>
    ensures { IfOk result (λ text. text ≡ gap_text expected found) }
{
    let mut text = TextBuffer::with_room(alloc, ROOM)?;
    push_count(&mut text, b"49 expected ", expected)?;
    push_count(&mut text, b", found ", found)?;
    Ok(text.into_bytes())
}

/// Refusal 50: the number of a commit, and why its operations can't be done within the limits on the graph after those before it.
pub fn bad_commit_text(
    alloc: Global,
    commit: u64,
    cause: &Structural,
    limits: &Limits,
) -> Result<Bytes, Memory>
    ensures { IfOk result (λ text. text ≡ bad_commit_text commit cause.now limits.now) }
{
    let mut text = TextBuffer::with_room(alloc, ROOM)?;
    push_count(&mut text, b"50 commit ", commit)?;
    text.push(b": ")?;
    push_structural(&mut text, *cause, limits)?;
    Ok(text.into_bytes())
}
