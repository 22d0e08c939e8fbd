ghost use Rattle.std.specs.Prelude.{◌≡◌, ◌<◌, ◌≤◌, [], length, IfErr, IfOk, OnOk};
ghost use Rattle.pgs_base.specs.declared.text_limit.TheConstants.{TEXT_LIMIT};
ghost use Rattle.pgs_run_lines.specs.Calls.{MakesReads};
ghost use Rattle.pgs_run_input.specs.Text.{IsUnread, IsWhole, fails_reading, state_of};

use pgs_base::TEXT_LIMIT;
use pgs_command::Status;
use pgs_run_lines::{LineBuffer, read_buffer, read_some};
use pgs_world::Source;
use std::alloc::Global;

// Reads an input to its end, or as many bytes as the budget. The text keeps their front.
fn read_into<S: Source>(
    source: &mut S,
    text: &mut LineBuffer,
    buffer: &mut [u8],
    budget: u64,
) -> Result<(), Status>
    requires text { (text.old.bytes ≡ []) × (text.old.limit ≡ TEXT_LIMIT) }
    requires buffer { (0 < length buffer.old) × (length buffer.old ≤ 65536) }
    ensures whole { OnOk result (IsWhole budget (state_of (S.left source.old) (S.faults source.old)) (state_of (S.left source.new) (S.faults source.new)) text.new.bytes) }
    ensures unread { IfErr result (IsUnread budget (state_of (S.left source.old) (S.faults source.old)) (state_of (S.left source.new) (S.faults source.new))) }
    ensures calls { MakesReads S.read_made budget source.old (fails_reading result) source.new }
{
    let mut left = budget;
    while left > 0 {
        let count = match read_some(source, buffer, left) {
            Ok(count) => count,
            Err(_) => return Err(Status::ReadFault),
        };
        if count == 0 {
            return Ok(());
        }
        match text.push_all(&buffer[..count]) {
            Ok(()) => {}
            Err(_) => return Err(Status::Memory),
        }
        left -= count as u64;
    }
    Err(Status::InputTooLong)
}

/// Takes a whole input, of fewer bytes than the budget, as one text, and keeps its front: as many bytes as a text may have, and one
/// more. `ReadFault` comes only where the count of faults of the source rose, and `InputTooLong` where as many bytes as the budget were
/// taken.
pub fn read_text<S: Source>(
    alloc: Global,
    source: &mut S,
    budget: u64,
) -> Result<LineBuffer, Status>
    ensures whole { IfOk result (λ text. IsWhole budget (state_of (S.left source.old) (S.faults source.old)) (state_of (S.left source.new) (S.faults source.new)) text.bytes) }
    ensures unread { IfErr result (IsUnread budget (state_of (S.left source.old) (S.faults source.old)) (state_of (S.left source.new) (S.faults source.new))) }
    ensures calls { MakesReads S.read_made budget source.old (fails_reading result) source.new }
{
    let mut text = LineBuffer::new(alloc, TEXT_LIMIT);
    let mut buffer = match read_buffer(alloc) {
        Ok(buffer) => buffer,
        Err(_) => return Err(Status::Memory),
    };
    match read_into(source, &mut text, buffer.as_mut_slice(), budget) {
        Ok(()) => Ok(text),
        Err(status) => Err(status),
    }
}
