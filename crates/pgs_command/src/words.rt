ghost use Rattle.std.specs.Prelude.{◌≡◌, ℕ, List, IfOk, true};
ghost use Rattle.pgs_command.specs.Calls.{fails_world};
ghost use Rattle.pgs_command.specs.Promise.{PromiseAlone};
ghost use Rattle.pgs_command.specs.Words.{refused_words};

use crate::Status;
use pgs_base::{Bytes, Memory};
use pgs_run_lines::put_last;
use pgs_world::World;

/// Puts the line that refuses the words, where there was memory for it, and gives `BadWords`; `PutFault` where the put failed, and
/// `Memory` where there was none for the line: then nothing is put. Both areas are what they were at every moment.
pub fn refuse_words<W: World>(world: &mut W, made: Result<Bytes, Memory>) -> Status
    ensures promise { (line : List ℕ) → IfOk made (λ made. made ≡ line) → PromiseAlone (refused_words line) (W.view world.old) (W.view world.new) result }
    ensures last { fails_world result ≡ true → W.failed world.new }
{
    put_last(world, made, Status::BadWords)
}
