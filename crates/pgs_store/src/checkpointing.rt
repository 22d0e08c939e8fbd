ghost use Rattle.std.specs.Prelude.{◌≡◌, ◌<◌, true, false, Some, IsTrue, IfOk, OnOk};
ghost use Rattle.pgs_codec.specs.declared.command.Command.TheVariants.{Schema as SchemaCommand};
ghost use Rattle.pgs_codec.specs.Encodable.{is_sized};
ghost use Rattle.pgs_codec.specs.Payload.{payload_of};
ghost use Rattle.pgs_codec.specs.Reading.{decoded};
ghost use Rattle.pgs_journal.specs.Format.{IsFrames};
ghost use Rattle.pgs_store.specs.Checkpoints.{Checkpoints, is_disk_fault, is_early};
ghost use Rattle.pgs_store.specs.Stored.{StandsOn, IsRenewedIn, renewed, snapshot_of as snapshot_in};
ghost use Rattle.pgs_store.specs.World.{StaysBeside, CountsFault};
ghost use Rattle.pgs_world.specs.Moment.{EachSince};
ghost use Rattle.pgs_world.specs.World.{other as other_than};

use crate::{CheckpointFault, Guard, Store};
use pgs_base::{List, Memory, Steps};
use pgs_codec::Command;
use pgs_journal::LAST_EPOCH;
use pgs_saved_graph::{edge_rows, first_frames, node_rows};
use pgs_snapshot::checkpoint;
use pgs_world::{Area, World};
use std::marker::Brand;
use std::sync::ledger::{Blank, Ledger};

fn other(area: Area) -> Area
    ensures { result ≡ other_than area }
{
    match area {
        Area::A => Area::B,
        Area::B => Area::A,
    }
}

// The schema's text as a command.
fn schema_of(guard: &Guard) -> Result<Command, Memory>
    ensures { IfOk result (λ command. command ≡ SchemaCommand guard.now.text) }
{
    let text = List::from_slice(guard.alloc, guard.schema_text())?;
    Ok(Command::Schema(text))
}

// The graph and the number of commits as a command.
fn snapshot_of<L: Ledger>(guard: &Guard, blank: Blank) -> Result<Command, Memory>
    requires name { blank.name ≡ L.name }
    requires parts { blank.parts ≡ L.parts }
    requires some { 0 < blank.parts }
    ensures snapshot { IfOk result (λ command. command ≡ snapshot_in guard.now) }
    ensures sized { OnOk result (IsTrue (is_sized (snapshot_in guard.now))) }
{
    let mut steps: Steps<L> = Steps::begin(blank);
    guard.facts();
    let nodes = node_rows(guard.alloc, &guard.graph, &mut steps)?;
    let edges = edge_rows(guard.alloc, &guard.graph, &mut steps)?;
    Ok(Command::Snapshot {
        commits: guard.commits,
        nodes,
        edges,
    })
}

// The frames of the records with which the store of a guard begins anew, of which this is the first.
fn frames_with(guard: &Guard, schema: &Command) -> Result<Vec<u8>, Memory>
    requires { schema.now ≡ SchemaCommand guard.now.text }
    ensures frames { IfOk result (λ first. IsFrames (renewed guard.now) 3 first.items) }
    ensures schema { OnOk result (decoded (payload_of (SchemaCommand guard.now.text)) ≡ Some (SchemaCommand guard.now.text)) }
    ensures snapshot { OnOk result (decoded (payload_of (snapshot_in guard.now)) ≡ Some (snapshot_in guard.now)) }
{
    let snapshot = snapshot_of::<Brand>(guard, Blank::new(1))?;
    let first = first_frames(guard.alloc, schema, &snapshot)?;
    Ok(first.into_vec())
}

// The same of all of them.
fn frames_of(guard: &Guard) -> Result<Vec<u8>, Memory>
    ensures frames { IfOk result (λ first. IsFrames (renewed guard.now) 3 first.items) }
    ensures schema { OnOk result (decoded (payload_of (SchemaCommand guard.now.text)) ≡ Some (SchemaCommand guard.now.text)) }
    ensures snapshot { OnOk result (decoded (payload_of (snapshot_in guard.now)) ≡ Some (snapshot_in guard.now)) }
{
    let schema = schema_of(guard)?;
    frames_with(guard, &schema)
}

impl Store {
    /// Saves the same in the other area, with the next epoch and in the second format, whose records are the schema in force and the
    /// snapshot alone: that epoch. At every moment of the call what is saved is what it was; the area and the epoch that are chosen
    /// are those from before or the new ones, and after `Ok` the new ones in every image.
    ///
    /// `NeedsReopen` exactly where an earlier call answered `DiskFault`. 37 `EpochsSpent` exactly at the last epoch. `Memory` always
    /// comes before the first call on the world. After these the store and the world are as they were. `DiskFault` comes only where
    /// the count of area faults rose; the readers go on showing the graph.
    pub fn checkpoint<W: World>(&mut self, world: &mut W) -> Result<u64, CheckpointFault>
        requires stands { self.old.failed ≡ false → StandsOn self.old.guard self.old.journal (W.view world.old) }
        // What it answers, and what becomes of the store.
        ensures answer { Checkpoints result self.old self.new (W.view world.new) }
        ensures early { is_early result ≡ true → world.new ≡ world.old }
        ensures faults { CountsFault (is_disk_fault result) (W.view world.old) (W.view world.new) }
        ensures last { is_disk_fault result ≡ true → W.failed world.new }
        // What it leaves of the world, at every moment.
        ensures stops { self.old.failed ≡ false → IsTrue (W.view world.old).honest → IsTrue (W.view world.old).tells_bytes
            → EachSince (IsRenewedIn self.old.guard self.old.journal) (W.view world.old) (W.view world.new) }
        ensures beside { StaysBeside (other_than self.old.journal.area) (W.view world.old) (W.view world.new) }
    {
        if self.failed {
            return Err(CheckpointFault::NeedsReopen);
        }
        if self.journal.epoch == LAST_EPOCH {
            return Err(CheckpointFault::EpochsSpent);
        }
        self.guard.facts();
        let first = frames_of(&self.guard)?;
        let epoch = self.journal.epoch + 1;
        match checkpoint(world, other(self.journal.area), epoch, first.as_slice(), 3) {
            Ok(journal) => {
                self.journal = journal;
                Ok(epoch)
            }
            Err(_) => {
                self.failed = true;
                Err(CheckpointFault::DiskFault)
            }
        }
    }
}
