ghost use Rattle.std.specs.Prelude.{◌≡◌, List, true};
ghost use Rattle.pgs_feed.specs.Places.{Place};
ghost use Rattle.pgs_run_lines.specs.Calls.{MakesReads};
ghost use Rattle.pgs_command.specs.Calls.{fails_read, fails_world};
ghost use Rattle.pgs_command.specs.Promise.{Promise};
ghost use Rattle.pgs_command.specs.Setting.{setting_of};
ghost use Rattle.pgs_run_check_evolve.specs.StoreSpec.{check_evolve_store_spec};

use crate::stored::tell_text;
use pgs_command::Status;
use pgs_run_input::read_text;
use pgs_run_store::{end_unopened, open_store};
use pgs_world::{Source, World};
use std::alloc::Global;

/// Tells what the step from the schema that is saved in both areas to another changes, over an input within a budget of bytes, which is the
/// other schema's text, and, where the step isn't safe, each violation of the saved graph under it, as `validate` lists them (docs/FORMATS.md,
/// "What pgcheck prints"). The areas are judged first; where they save no store nothing is read. The status is `Accepted` exactly where the
/// guard's `evolve` would take the text, and what is refused is refused as there. Both areas are what they were at every moment.
pub fn run_check_evolve_store<S: Source, W: World>(
    alloc: Global,
    source: &mut S,
    world: &mut W,
    budget: u64,
) -> Status
    ensures promise { (places : List Place) → Promise check_evolve_store_spec budget (setting_of (S.left source.old) (S.faults source.old) (W.view world.old) places)
        (setting_of (S.left source.new) (S.faults source.new) (W.view world.new) places) result }
    ensures last { fails_world result ≡ true → W.failed world.new }
    ensures calls { MakesReads S.read_made budget source.old (fails_read result) source.new }
{
    let store = match open_store(alloc, world) {
        Ok(store) => store,
        Err(unopened) => return end_unopened(world, unopened),
    };
    match read_text(alloc, source, budget) {
        Ok(text) => tell_text(alloc, world, &store, text.as_slice()),
        Err(status) => status,
    }
}
