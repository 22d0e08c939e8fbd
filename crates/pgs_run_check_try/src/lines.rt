ghost use Rattle.std.specs.Prelude.{◌≡◌, ◌++◌, map, IfOk, OnOk};
ghost use Rattle.pgs_run_check_try.specs.Lines.{accepted_line, because_line};

use pgs_base::{Bytes, Memory};
use pgs_base_text::TextBuffer;
use std::alloc::Global;

// Room for the words of a line and two numbers.
const ROOM: usize = 64;

/// The verdict line of a transaction that is accepted and not kept: the number of its line, and that which its commit would have.
#[tactic(auto, unfolding(crate::specs::Lines::accepted_line))]
pub(crate) fn accepted_line(alloc: Global, line_number: u64, commit: u64) -> Result<Bytes, Memory>
    ensures { IfOk result (λ line. line ≡ accepted_line line_number commit) }
{
    let mut line = TextBuffer::with_room(alloc, ROOM)?;
    line.push_number(line_number)?;
    line.push(b" accepted ")?;
    line.push_number(commit)?;
    line.push(b"\n")?;
    Ok(line.into_bytes())
}

// The line of a cause of a refused line.
#[tactic(auto, unfolding(crate::specs::Lines::because_line))]
fn because_line(alloc: Global, line_number: u64, text: &[u8]) -> Result<Bytes, Memory>
    ensures { IfOk result (λ line. line ≡ because_line line_number text.now) }
{
    let mut line = TextBuffer::with_room(alloc, text.len().saturating_add(ROOM))?;
    line.push_number(line_number)?;
    line.push(b" because ")?;
    line.push(text)?;
    line.push(b"\n")?;
    Ok(line.into_bytes())
}

/// Puts a line for each cause of a refused line last.
pub(crate) fn push_because_lines(
    alloc: Global,
    line_number: u64,
    causes: &[Bytes],
    lines: &mut Vec<Bytes>,
) -> Result<(), Memory>
    ensures { OnOk result (lines.new.items ≡ lines.old.items ++ map (because_line line_number) causes.now) }
{
    for cause in causes {
        lines.push(because_line(alloc, line_number, cause.as_slice())?)?;
    }
    Ok(())
}
