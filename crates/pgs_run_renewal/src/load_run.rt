ghost use Rattle.std.specs.Prelude.{◌≡◌, List, true};
ghost use Rattle.pgs_feed.specs.Places.{Place};
ghost use Rattle.pgs_run_lines.specs.Calls.{MakesReads};
ghost use Rattle.pgs_command.specs.Calls.{fails_read, fails_world};
ghost use Rattle.pgs_command.specs.Promise.{Promise};
ghost use Rattle.pgs_command.specs.Setting.{setting_of};
ghost use Rattle.pgs_run_renewal.specs.LoadSpec.{load_spec};

use crate::loading::load_text;
use pgs_command::Status;
use pgs_run_input::read_text;
use pgs_world::{Source, World};
use std::alloc::Global;

/// Runs `load` over an input within a budget of bytes, and answers the status: what it promises is `load_spec`. Area A alone is written,
/// and nothing where an area is a store or another program's file. A text that is no schema is refused whatever the areas hold.
pub fn run_load<S: Source, W: World>(
    alloc: Global,
    source: &mut S,
    world: &mut W,
    budget: u64,
) -> Status
    ensures promise { (places : List Place) → Promise load_spec budget (setting_of (S.left source.old) (S.faults source.old) (W.view world.old) places)
        (setting_of (S.left source.new) (S.faults source.new) (W.view world.new) places) result }
    ensures last { fails_world result ≡ true → W.failed world.new }
    ensures calls { MakesReads S.read_made budget source.old (fails_read result) source.new }
{
    match read_text(alloc, source, budget) {
        Ok(text) => load_text(alloc, text.as_slice(), world),
        Err(status) => status,
    }
}
