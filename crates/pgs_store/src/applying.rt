ghost use Rattle.std.specs.Prelude.{◌≡◌, ◌≤◌, true, false, Some, Ok, IsTrue, IfOk, IfErr, OnOk};
ghost use Rattle.pgs_check.specs.Standing.{index_changed};
ghost use Rattle.pgs_codec.specs.declared.command.Command.TheVariants.{Txn as Transaction};
ghost use Rattle.pgs_codec.specs.Encodable.{is_sized};
ghost use Rattle.pgs_codec.specs.Frame.{framed};
ghost use Rattle.pgs_codec.specs.Payload.{payload_of};
ghost use Rattle.pgs_codec.specs.Reading.{decoded as decoded_by};
ghost use Rattle.pgs_graph.specs.Changed.{changed, is_sound};
ghost use Rattle.pgs_keyindex.specs.Rows.{IsOwned, rows_changed};
ghost use Rattle.pgs_keyindex.specs.Standing.{StandsFor};
ghost use Rattle.pgs_violation.specs.Decision.{decide};
ghost use Rattle.pgs_violation.specs.Violations.{verdict};
ghost use Rattle.pgs_store.specs.Applies.{Applies, Journals, is_disk_fault as is_fault_of_area, is_early};
ghost use Rattle.pgs_store.specs.Costs.{IsWithin, TakesWithin};
ghost use Rattle.pgs_decide.specs.Refused.{IsRejected};
ghost use Rattle.pgs_store.specs.State.{IsGuarded, IsIndexed};
ghost use Rattle.pgs_store.specs.Stored.{IsBounded, StandsOn, IsAppliedIn};
ghost use Rattle.pgs_store.specs.World.{StaysBeside, CountsFault};
ghost use Rattle.pgs_world.specs.Moment.{EachSince};

use crate::judging::decision_of;
use crate::{ApplyFault, Guard, GuardRefusal, Store};
use pgs_base::{Limits, Memory, Steps};
use pgs_codec::frame_txn;
use pgs_decide::{Decided, commit, prepare};
use pgs_graph::Txn;
use pgs_journal::Journal;
use pgs_keyindex::KeyIndex;
use pgs_schema::Schema;
use pgs_tables::Tables;
use pgs_world::World;
use std::alloc::Global;
use std::sync::ledger::Ledger;

fn is_disk_fault(answer: &Result<u64, ApplyFault>) -> bool
    ensures { result ≡ is_fault_of_area answer.now }
{
    matches!(answer, Err(ApplyFault::DiskFault))
}

// The frame of a transaction, as it is appended to a journal whose next record has this number, or none.
fn txn_frame(alloc: Global, txn: &Txn, number: Option<u64>) -> Result<Vec<u8>, Memory>
    requires { IsTrue (is_sized (Transaction txn.now)) }
    ensures frame { IfOk result (λ frame. frame.items ≡ framed number (payload_of (Transaction txn.now))) }
    ensures decoded { OnOk result (decoded_by (payload_of (Transaction txn.now)) ≡ Some (Transaction txn.now)) }
{
    let frame = frame_txn(alloc, txn, number)?;
    Ok(frame.into_vec())
}

// Decides a transaction on a guard's graph by its index, and makes the frame of its record, which has this number or none.
fn framed_decision<L: Ledger>(
    alloc: Global,
    schema: &Schema,
    limits: &Limits,
    graph: &Tables,
    index: &KeyIndex,
    txn: &Txn,
    number: Option<u64>,
    steps: &mut Steps<L>,
) -> Result<(Decided, Vec<u8>), GuardRefusal>
    requires { IsIndexed schema.now.resolved limits.now graph.now.graph index.now }
    // What was decided.
    ensures sound { IfOk result (λ it. is_sound graph.now.graph it.0.delta ≡ true) }
    ensures guarded { IfOk result (λ it. IsGuarded schema.now.resolved limits.now (changed graph.now.graph it.0.delta)) }
    ensures accepted { IfOk result (λ it. decide limits.now (verdict schema.now.resolved) graph.now.graph txn.now
        ≡ Ok (changed graph.now.graph it.0.delta)) }
    ensures rejected { IfErr result (IsRejected (decide limits.now (verdict schema.now.resolved) graph.now.graph txn.now)) }
    ensures owned { IfOk result (λ it. IsOwned index.now.exclusive (rows_changed index.now.rows it.0.changes)) }
    ensures stands { IfOk result (λ it. StandsFor schema.now.resolved (changed graph.now.graph it.0.delta)
        schema.now.resolved.guard.keys (index_changed index.now it.0.changes)) }
    ensures no_step_back { steps.old ≤ steps.new }
    ensures cost { TakesWithin schema.now.resolved limits.now graph.now.graph txn.now steps.old steps.new }
    // Its record.
    ensures frame { IfOk result (λ it. it.1.items ≡ framed number (payload_of (Transaction txn.now))) }
    ensures decoded { OnOk result (decoded_by (payload_of (Transaction txn.now)) ≡ Some (Transaction txn.now)) }
{
    let decided = decision_of(alloc, schema, limits, graph, index, txn, steps)?;
    let frame = txn_frame(alloc, txn, number)?;
    Ok((decided, frame))
}

// Decides a transaction, journals it where it is accepted, and then does it. All memory is taken before the first call on the world.
fn journal_txn<W: World, L: Ledger>(
    guard: &mut Guard,
    journal: &mut Journal,
    world: &mut W,
    txn: &Txn,
    steps: &mut Steps<L>,
) -> Result<u64, ApplyFault>
    requires bounded { IsBounded journal.old guard.old.commits }
    requires stands { StandsOn guard.old journal.old (W.view world.old) }
    ensures answer { Journals result guard.old guard.new journal.old journal.new txn.now (W.view world.new) }
    ensures bounded { IsBounded journal.new guard.new.commits }
    ensures early { is_early result ≡ true → world.new ≡ world.old }
    ensures faults { CountsFault (is_fault_of_area result) (W.view world.old) (W.view world.new) }
    ensures last { is_fault_of_area result ≡ true → W.failed world.new }
    ensures beside { StaysBeside journal.old.area (W.view world.old) (W.view world.new) }
    ensures stops { IsTrue (W.view world.old).honest → IsTrue (W.view world.old).tells_bytes
        → EachSince (IsAppliedIn guard.old journal.old txn.now) (W.view world.old) (W.view world.new) }
    ensures no_step_back { steps.old ≤ steps.new }
    ensures cost { IsWithin guard.old txn.now steps.old steps.new }
{
    guard.facts();
    let (decided, frame) = framed_decision(
        guard.alloc,
        &guard.schema,
        &guard.limits,
        &guard.graph,
        &guard.index,
        txn,
        journal.next,
        steps,
    )?;
    let ready = prepare(&mut guard.graph, &mut guard.index, decided)?;
    match journal.append(world, frame.as_slice()) {
        Ok(()) => {
            commit(&mut guard.graph, &mut guard.index, ready);
            guard.commits += 1;
            Ok(guard.commits)
        }
        Err(_) => Err(ApplyFault::DiskFault),
    }
}

impl Store {
    /// Decides a transaction on the graph, as `Guard::apply` does, and where it is accepted puts it on the disk and does it: the
    /// commit number, from 1. At every moment of the call what is saved is the state before it, or with the transaction accepted;
    /// after `Ok` it is the latter in every image.
    ///
    /// `NeedsReopen` exactly where an earlier call answered `DiskFault`. `Rejected` exactly with the decision's rejection. `Memory`
    /// always comes before the first call on the world. After these the store and the world are as they were. `DiskFault` comes only
    /// where the count of area faults rose; the readers then show the graph from before.
    ///
    /// It takes at most as many look-ups as `Guard::apply` does: 4096 * (q + 1) * (t + 1) * (d + 2)^(2w + 2), at every exit.
    pub fn apply<W: World, L: Ledger>(
        &mut self,
        world: &mut W,
        txn: &Txn,
        steps: &mut Steps<L>,
    ) -> Result<u64, ApplyFault>
        requires stands { self.old.failed ≡ false → StandsOn self.old.guard self.old.journal (W.view world.old) }
        // What it answers, and what becomes of the store.
        ensures answer { Applies result self.old self.new txn.now (W.view world.new) }
        ensures early { is_early result ≡ true → world.new ≡ world.old }
        ensures faults { CountsFault (is_fault_of_area result) (W.view world.old) (W.view world.new) }
        ensures last { is_fault_of_area result ≡ true → W.failed world.new }
        // What it leaves of the world, at every moment.
        ensures stops { self.old.failed ≡ false → IsTrue (W.view world.old).honest → IsTrue (W.view world.old).tells_bytes
            → EachSince (IsAppliedIn self.old.guard self.old.journal txn.now) (W.view world.old) (W.view world.new) }
        ensures beside { StaysBeside self.old.journal.area (W.view world.old) (W.view world.new) }
        // What it looks up: nothing where the store failed before, since then nothing is decided.
        ensures no_step_back { steps.old ≤ steps.new }
        ensures cost { IsWithin self.old.guard txn.now steps.old steps.new }
        ensures no_step { self.old.failed ≡ true → steps.new ≡ steps.old }
    {
        if self.failed {
            return Err(ApplyFault::NeedsReopen);
        }
        let answer = journal_txn(&mut self.guard, &mut self.journal, world, txn, steps);
        self.failed = is_disk_fault(&answer);
        answer
    }
}
