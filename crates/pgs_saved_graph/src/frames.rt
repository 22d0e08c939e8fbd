ghost use Rattle.std.specs.Prelude.{◌≡◌, ◌∷◌, ◌++◌, [], ℕ, List, Option, Some, IfOk, OnOk, IsTrue};
ghost use Rattle.pgs_codec.specs.Encodable.{is_sized};
ghost use Rattle.pgs_codec.specs.Frame.{framed};
ghost use Rattle.pgs_codec.specs.Payload.{payload_of};
ghost use Rattle.pgs_codec.specs.Reading.{decoded};
ghost use Rattle.pgs_journal.specs.declared.format.Format.TheVariants.{Second};
ghost use Rattle.pgs_journal.specs.Format.{IsFrames, open_records};

use pgs_base::{Bytes, List, Memory};
use pgs_codec::{Command, encode, frame};
use std::alloc::Global;

// The byte of an open gate.
const OPEN: u8 = 1;

/// The frame of a command, as it is appended to a journal whose next record has this number, or none. `Memory` where there was none
/// left.
#[tactic(auto, using(crate::proofs::Joined::frame_first))]
pub fn record_frame(alloc: Global, command: &Command, number: Option<u64>) -> Result<Bytes, Memory>
    requires { IsTrue (is_sized command.now) }
    ensures frame { IfOk result (λ frame. frame ≡ framed number (payload_of command.now)) }
    // With the number 1 the frame alone is the first record of a store.
    ensures first { number ≡ Some 1 → IfOk result (λ frame. IsFrames (payload_of command.now ∷ []) 2 frame) }
    // The payload is read as the command.
    ensures decoded { OnOk result (decoded (payload_of command.now) ≡ Some command.now) }
{
    let payload = encode(alloc, command)?;
    frame(alloc, payload.as_slice(), number)
}

// Opens the gate behind the first frame of a store.
fn open_gate(frame: &mut Vec<u8>)
    requires { (payload : List ℕ) × (frame.old.items ≡ framed (Some 1) payload) }
    ensures { (payload : List ℕ) → frame.old.items ≡ framed (Some 1) payload
        → 1 ∷ frame.new.items ≡ open_records Second 1 (payload ∷ []) ++ 1 ∷ [] }
{
    let gate = frame.len() - 1;
    frame[gate] = OPEN;
}

/// The frames of two commands as the records 1 and 2 of a store, one after the other, with an open gate between them. `Memory`
/// where there was none left.
pub fn first_frames(alloc: Global, first: &Command, second: &Command) -> Result<Bytes, Memory>
    requires first { IsTrue (is_sized first.now) }
    requires second { IsTrue (is_sized second.now) }
    ensures frames { IfOk result (λ frames. IsFrames (payload_of first.now ∷ payload_of second.now ∷ []) 3 frames) }
    ensures first_decoded { OnOk result (decoded (payload_of first.now) ≡ Some first.now) }
    ensures second_decoded { OnOk result (decoded (payload_of second.now) ≡ Some second.now) }
{
    let mut frames = record_frame(alloc, first, Some(1))?.into_vec();
    let last = record_frame(alloc, second, Some(2))?;
    open_gate(&mut frames);
    frames.extend_from_slice(last.as_slice())?;
    Ok(List::from_vec(frames))
}
