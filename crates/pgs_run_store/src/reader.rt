ghost use Rattle.std.specs.Prelude.{◌≡◌, true};
ghost use Rattle.pgs_command.specs.declared.status.Status.{Status};
ghost use Rattle.pgs_command.specs.Calls.{fails_world};
ghost use Rattle.pgs_command.specs.Promise.{PromiseAlone};
ghost use Rattle.pgs_run_lines.specs.Machine.{Told};
ghost use Rattle.pgs_run_store.specs.Opening.{saved_in};
ghost use Rattle.pgs_run_store.specs.Refusing.{SavedStore};
ghost use Rattle.pgs_run_store.specs.Spec.{PutsTold, reader_spec};

use crate::{end_unopened, open_store};
use pgs_command::Status;
use pgs_store::Store;
use pgs_world::World;
use std::alloc::Global;

/// A command that reads a saved store and tells of it, and touches no area itself.
pub trait StoreReader {
    /// What it tells of a saved store.
    ghost tells: { Self → SavedStore → Told Status };

    /// Puts what it tells of the store, and gives the status.
    fn tell<W: World>(&self, alloc: Global, world: &mut W, store: &Store) -> Status
        ensures told { PutsTold (tells self.now (saved_in store.now)) (W.view world.old) result (W.view world.new) }
        ensures last { fails_world result ≡ true → W.failed world.new };
}

/// Opens the store that is saved in both areas and has the reader tell of it. What it puts and answers is what `told_of_areas` tells
/// by the reader. Both areas are what they were at every moment.
pub fn run_reader<R: StoreReader, W: World>(alloc: Global, world: &mut W, reader: &R) -> Status
    ensures promise { PromiseAlone (reader_spec (R.tells reader.now)) (W.view world.old) (W.view world.new) result }
    ensures last { fails_world result ≡ true → W.failed world.new }
{
    match open_store(alloc, world) {
        Ok(store) => reader.tell(alloc, world, &store),
        Err(unopened) => end_unopened(world, unopened),
    }
}
