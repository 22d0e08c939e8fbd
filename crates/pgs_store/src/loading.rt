ghost use Rattle.std.specs.Prelude.{◌≡◌, ◌∷◌, [], true, false, Some, IsTrue, IfOk, IfErr, OnOk};
ghost use Rattle.pgs_base.specs.Graph.{empty_graph};
ghost use Rattle.pgs_codec.specs.declared.command.Command.TheVariants.{Schema as SchemaCommand};
ghost use Rattle.pgs_codec.specs.Payload.{payload_of};
ghost use Rattle.pgs_codec.specs.Reading.{decoded};
ghost use Rattle.pgs_codec.specs.Frame.{framed};
ghost use Rattle.pgs_journal.specs.Format.{IsFrames};
ghost use Rattle.pgs_store.specs.Loads.{FindsNone, IsOccupied, Loads, is_disk_fault, is_refused, is_written};
ghost use Rattle.pgs_store.specs.Stored.{IsLoadedIn};
ghost use Rattle.pgs_store.specs.World.{StaysBeside, CountsFault};
ghost use Rattle.pgs_world.specs.declared.area.Area.TheVariants.{A};
ghost use Rattle.pgs_world.specs.Moment.{EachSince, IsQuiet, IsSettled, MakesNoPut};

use crate::{Guard, LoadFault, Store};
use pgs_base::{Limits, List, Memory};
use pgs_codec::Command;
use pgs_journal::Journal;
use pgs_saved_graph::record_frame;
use pgs_snapshot::{ChooseFault, choose_area};
use pgs_world::{Area, World};
use std::alloc::Global;

/// The frame of a schema's text, as it is appended to a journal whose next record has this number, or none.
pub(crate) fn schema_frame(
    alloc: Global,
    text: &[u8],
    number: Option<u64>,
) -> Result<Vec<u8>, Memory>
    ensures frame { IfOk result (λ frame. frame.items ≡ framed number (payload_of (SchemaCommand text.now))) }
    ensures first { number ≡ Some 1
        → IfOk result (λ frame. IsFrames (payload_of (SchemaCommand text.now) ∷ []) 2 frame.items) }
    ensures decoded { OnOk result (decoded (payload_of (SchemaCommand text.now)) ≡ Some (SchemaCommand text.now)) }
{
    let text = List::from_slice(alloc, text)?;
    let frame = record_frame(alloc, &Command::Schema(text), number)?;
    Ok(frame.into_vec())
}

// Refuses areas of which one is a store, or another program's file. Both are synced and read.
fn refuse_occupied<W: World>(alloc: Global, world: &mut W) -> Result<(), LoadFault>
    ensures free { OnOk result (FindsNone (W.view world.old)) }
    ensures occupied { IfErr result (IsOccupied (W.view world.old)) }
    ensures settled { OnOk result (IsTrue (W.view world.old).honest → IsTrue (W.view world.old).tells_bytes
        → IsSettled (W.view world.new)) }
    ensures quiet { IsQuiet (W.view world.old) (W.view world.new) }
    ensures faults { CountsFault (is_disk_fault result) (W.view world.old) (W.view world.new) }
    ensures last { is_disk_fault result ≡ true → W.failed world.new }
    ensures no_put { MakesNoPut (W.view world.old) (W.view world.new) }
{
    match choose_area(alloc, world) {
        Err(ChooseFault::NoStore) => Ok(()),
        Ok(_) | Err(ChooseFault::BadRecord { .. }) => Err(LoadFault::AlreadyStore),
        Err(ChooseFault::Foreign) => Err(LoadFault::Foreign),
        Err(ChooseFault::Memory) => Err(LoadFault::Memory),
        Err(ChooseFault::DiskFault) => Err(LoadFault::DiskFault),
    }
}

impl Store {
    /// Makes the empty store of a schema's text in area A, with epoch 1, in the second format. At every moment of the call the areas
    /// are no store, or that store; after `Ok` they are it in every image.
    ///
    /// 10 to 19 `Schema` exactly where the text is no schema, before any call on the world. Then 31 `AlreadyStore` exactly where an
    /// area is a store, and 32 `Foreign` exactly where none is and one is foreign. `DiskFault` comes only where the count of area
    /// faults rose; `Memory` may come wherever there is none. After each of these but `DiskFault` nothing was written.
    pub fn load<W: World>(
        alloc: Global,
        text: &[u8],
        limits: Limits,
        world: &mut W,
    ) -> Result<Store, LoadFault>
        // What it answers, and the store that is made.
        ensures answer { Loads result limits text.now (W.view world.old) (W.view world.new) }
        ensures seed { IfOk result (λ store. store.guard.seed ≡ W.hashed_by world.old) }
        ensures early { is_refused result ≡ true → world.new ≡ world.old }
        ensures faults { CountsFault (is_disk_fault result) (W.view world.old) (W.view world.new) }
        ensures last { is_disk_fault result ≡ true → W.failed world.new }
        // What it leaves of the world, at every moment.
        ensures kept { (FindsNone (W.view world.old) → ⊥) → IsQuiet (W.view world.old) (W.view world.new) }
        ensures unwritten { is_written result ≡ false → IsQuiet (W.view world.old) (W.view world.new) }
        ensures stops { FindsNone (W.view world.old) → IsSettled (W.view world.old)
            → EachSince (IsLoadedIn limits text.now) (W.view world.old) (W.view world.new) }
        ensures beside { StaysBeside A (W.view world.old) (W.view world.new) }
    {
        let guard = Guard::with_seed(alloc, text, limits, world.seed())?;
        Store::create(alloc, guard, world)
    }

    /// The same of a guard that took no transaction yet: the store of its text, which holds it. So what is to be answered can be made
    /// before anything is written.
    pub fn create<W: World>(alloc: Global, guard: Guard, world: &mut W) -> Result<Store, LoadFault>
        requires empty { guard.graph ≡ empty_graph }
        requires unchanged { guard.commits ≡ 0 }
        // What it answers, and the store that is made.
        ensures answer { Loads result guard.limits guard.text (W.view world.old) (W.view world.new) }
        ensures guard { IfOk result (λ store. store.guard ≡ guard) }
        ensures unrefused { is_refused result ≡ false }
        ensures faults { CountsFault (is_disk_fault result) (W.view world.old) (W.view world.new) }
        ensures last { is_disk_fault result ≡ true → W.failed world.new }
        // What it leaves of the world, at every moment.
        ensures kept { (FindsNone (W.view world.old) → ⊥) → IsQuiet (W.view world.old) (W.view world.new) }
        ensures unwritten { is_written result ≡ false → IsQuiet (W.view world.old) (W.view world.new) }
        ensures stops { FindsNone (W.view world.old) → IsSettled (W.view world.old)
            → EachSince (IsLoadedIn guard.limits guard.text) (W.view world.old) (W.view world.new) }
        ensures beside { StaysBeside A (W.view world.old) (W.view world.new) }
    {
        let frame = schema_frame(alloc, guard.schema_text(), Some(1))?;
        refuse_occupied(alloc, world)?;
        match Journal::create(world, Area::A, 1, frame.as_slice(), 2) {
            Ok(journal) => Ok(Store {
                guard,
                journal,
                failed: false,
            }),
            Err(_) => Err(LoadFault::DiskFault),
        }
    }
}
