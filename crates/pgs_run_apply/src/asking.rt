ghost use Rattle.std.specs.Prelude.{◌≡◌, ◌<◌, true, false, IsTrue};
ghost use Rattle.pgs_run_lines.specs.Calls.{stops_of_world};
ghost use Rattle.pgs_store.specs.Applies.{Applies, is_disk_fault as is_fault_of_area, is_early as is_early_answer};
ghost use Rattle.pgs_store.specs.Stored.{StandsOn, IsAppliedIn};
ghost use Rattle.pgs_store.specs.World.{StaysBeside, CountsFault};
ghost use Rattle.pgs_world.specs.Moment.{EachSince};
ghost use Rattle.pgs_run_apply.specs.Asking.{Asks, is_early};

use pgs_base::Steps;
use pgs_command::Status;
use pgs_graph::Txn;
use pgs_run_lines::Stop;
use pgs_store::{ApplyFault, Store};
use pgs_violation::Rejection;
use pgs_world::World;
use std::marker::Brand;
use std::sync::ledger::{Blank, Ledger};

// No one asks for the steps of a decision.
fn apply_counted<W: World, L: Ledger>(
    store: &mut Store,
    world: &mut W,
    txn: &Txn,
    blank: Blank,
) -> Result<u64, ApplyFault>
    requires name { blank.name ≡ L.name }
    requires parts { blank.parts ≡ L.parts }
    requires some { 0 < blank.parts }
    requires stands { store.old.failed ≡ false → StandsOn store.old.guard store.old.journal (W.view world.old) }
    ensures answer { Applies result store.old store.new txn.now (W.view world.new) }
    ensures early { is_early_answer result ≡ true → world.new ≡ world.old }
    ensures faults { CountsFault (is_fault_of_area result) (W.view world.old) (W.view world.new) }
    ensures last { is_fault_of_area result ≡ true → W.failed world.new }
    ensures stops { store.old.failed ≡ false → IsTrue (W.view world.old).honest → IsTrue (W.view world.old).tells_bytes
        → EachSince (IsAppliedIn store.old.guard store.old.journal txn.now) (W.view world.old) (W.view world.new) }
    ensures beside { StaysBeside store.old.journal.area (W.view world.old) (W.view world.new) }
{
    let mut steps: Steps<L> = Steps::begin(blank);
    store.apply(world, txn, &mut steps)
}

/// Has a store under which no area failed decide a transaction, and do it where it is accepted. `None`: it is done, and on the disk.
/// `Some`: why it is rejected. After that and after `Memory` the store and the world are as they were. `DiskFault` comes only where the
/// count of area faults rose, and the store isn't used after it; no other stop comes.
pub fn ask<W: World>(
    store: &mut Store,
    world: &mut W,
    txn: &Txn,
) -> Result<Option<Rejection>, Stop<Status>>
    requires whole { store.old.failed ≡ false }
    requires stands { StandsOn store.old.guard store.old.journal (W.view world.old) }
    ensures answer { Asks result store.old store.new txn.now (W.view world.old) (W.view world.new) }
    ensures early { is_early result ≡ true → world.new ≡ world.old }
    ensures stops { IsTrue (W.view world.old).honest → IsTrue (W.view world.old).tells_bytes
        → EachSince (IsAppliedIn store.old.guard store.old.journal txn.now) (W.view world.old) (W.view world.new) }
    ensures beside { StaysBeside store.old.journal.area (W.view world.old) (W.view world.new) }
    ensures last { stops_of_world result ≡ true → W.failed world.new }
{
    match apply_counted::<W, Brand>(store, world, txn, Blank::new(1)) {
        Ok(_) => Ok(None),
        Err(ApplyFault::Rejected(rejection)) => Ok(Some(rejection)),
        Err(ApplyFault::Memory) => Err(Stop::Memory),
        Err(ApplyFault::DiskFault) => Err(Stop::DiskFault),
        Err(ApplyFault::NeedsReopen) => unreachable!(),
    }
}
