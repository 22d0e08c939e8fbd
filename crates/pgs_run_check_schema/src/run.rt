ghost use Rattle.std.specs.Prelude.{◌≡◌, List, true};
ghost use Rattle.pgs_command.specs.Calls.{fails_read, fails_world};
ghost use Rattle.pgs_command.specs.Promise.{Promise};
ghost use Rattle.pgs_command.specs.Setting.{setting_of};
ghost use Rattle.pgs_feed.specs.Places.{Place};
ghost use Rattle.pgs_run_lines.specs.Calls.{MakesReads};
ghost use Rattle.pgs_run_check_schema.specs.Spec.{schema_spec};

use crate::answering::check_text;
use pgs_command::Status;
use pgs_run_input::read_text;
use pgs_world::{Source, World};
use std::alloc::Global;

/// Checks a schema: reads the input to its end as a schema text, within a budget of bytes, puts the line of its refusal, or its lines
/// (docs/FORMATS.md, "What pgcheck prints"), and answers the status. Each line is one `put`. What is promised is the `Promise` of this command
/// (specs/Spec.antt).
pub fn run_check_schema<S: Source, W: World>(
    alloc: Global,
    source: &mut S,
    world: &mut W,
    budget: u64,
) -> Status
    ensures promise { (places : List Place) → Promise schema_spec budget
        (setting_of (S.left source.old) (S.faults source.old) (W.view world.old) places)
        (setting_of (S.left source.new) (S.faults source.new) (W.view world.new) places) result }
    ensures last { fails_world result ≡ true → W.failed world.new }
    ensures calls { MakesReads S.read_made budget source.old (fails_read result) source.new }
{
    match read_text(alloc, source, budget) {
        Ok(text) => check_text(alloc, text.as_slice(), world),
        Err(status) => status,
    }
}
