ghost use Rattle.std.specs.Prelude.{◌≡◌, List, true};
ghost use Rattle.pgs_feed.specs.Places.{Place};
ghost use Rattle.pgs_run_lines.specs.Calls.{MakesReads};
ghost use Rattle.pgs_command.specs.Calls.{fails_read, fails_world};
ghost use Rattle.pgs_command.specs.Promise.{Promise};
ghost use Rattle.pgs_command.specs.Setting.{setting_of};
ghost use Rattle.pgs_run_renewal.specs.EvolveSpec.{evolve_spec};

use crate::evolving::evolve_text;
use pgs_command::Status;
use pgs_run_input::read_text;
use pgs_run_store::{end_unopened, open_store};
use pgs_world::{Source, World};
use std::alloc::Global;

/// Runs `evolve` over an input within a budget of bytes, on the store that is saved in both areas, and answers the status: what it promises
/// is `evolve_spec`. The areas are judged first; where they save no store nothing is read.
///
/// `SchemaRefused` is a refusal of the stored text or of the new one; `StoreRefused` is 30, 32, 33 and 34 as for every command over a
/// saved store, and 41 for a store of the first format; `Refused` where the graph has a violation under the new schema. After these, and
/// after want of memory, both areas are what they were at every moment. After want of memory, a fault of a read and a cut nothing was put.
/// `DiskFault` comes only where the count of area faults rose.
pub fn run_evolve<S: Source, W: World>(
    alloc: Global,
    source: &mut S,
    world: &mut W,
    budget: u64,
) -> Status
    ensures promise { (places : List Place) → Promise evolve_spec budget (setting_of (S.left source.old) (S.faults source.old) (W.view world.old) places)
        (setting_of (S.left source.new) (S.faults source.new) (W.view world.new) places) result }
    ensures last { fails_world result ≡ true → W.failed world.new }
    ensures calls { MakesReads S.read_made budget source.old (fails_read result) source.new }
{
    let mut store = match open_store(alloc, world) {
        Ok(store) => store,
        Err(unopened) => return end_unopened(world, unopened),
    };
    match read_text(alloc, source, budget) {
        Ok(text) => evolve_text(alloc, world, &mut store, text.as_slice()),
        Err(status) => status,
    }
}
