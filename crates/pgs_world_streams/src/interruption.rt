ghost use Rattle.std.specs.Prelude.{◌<◌, ◌≤◌, IsTrue, not};
ghost use Rattle.pgs_world_streams.specs.Tries.{WasInterrupted};

use std::io::{self, ErrorKind};

/// So often one call is made at most: where each of so many in a row was interrupted, it has failed.
pub const MOST_TRIES: u32 = 1_000;

/// Whether a call is made once more, where it was made so often in a row, and its last answer is this: it was interrupted, and was made
/// fewer than `MOST_TRIES` times.
pub fn is_tried_again(answer: &io::Result<usize>, tries: u32) -> bool
    ensures again { IsTrue result → WasInterrupted answer.now × (tries < MOST_TRIES) }
    ensures no_more { IsTrue (not result) → WasInterrupted answer.now → MOST_TRIES ≤ tries }
{
    match answer {
        Ok(_) => false,
        Err(error) => error.kind() == ErrorKind::Interrupted && tries < MOST_TRIES,
    }
}
