ghost use Rattle.std.specs.Prelude.{◌≡◌, ◌<◌, ◌≤◌, ℕ, Option, Some, true, false, Ok, drop, IsTrue, IfOk, IfErr, IfSome, OnOk};
ghost use Rattle.pgs_base.specs.Graph.{element_count, empty_graph, is_graph};
ghost use Rattle.pgs_codec.specs.declared.command.Command.TheVariants.{Snapshot as SnapshotCommand};
ghost use Rattle.pgs_codec.specs.Encodable.{is_sized, snapshot_graph};
ghost use Rattle.pgs_codec.specs.Reading.{decoded};
ghost use Rattle.pgs_journal.specs.Bounds.{IsBoundedStore};
ghost use Rattle.pgs_snapshot.specs.Saved.{after_record, replay as replay_of, saved_of, store, text_of, under_schema};
ghost use Rattle.pgs_store.specs.Recovers.{IsUnrecovered, IsUnreplayed, IsUntaken, Recovers, is_disk_fault};
ghost use Rattle.pgs_store.specs.Recovers.{of_refusal, of_schema_refusal, replayed_in};
ghost use Rattle.pgs_resolve.specs.SchemaOf.{schema, schema_of};
ghost use Rattle.pgs_decide.specs.Refused.{IsRejected};
ghost use Rattle.pgs_store.specs.State.{IsHashedBy};
ghost use Rattle.pgs_store.specs.World.{CountsFault};
ghost use Rattle.pgs_keyindex.specs.Standing.{StandsFor};
ghost use Rattle.pgs_violation.specs.declared.violation.Verdict.TheVariants.{Conforms};
ghost use Rattle.pgs_violation.specs.Decision.{judged};
ghost use Rattle.pgs_violation.specs.Violations.{verdict};
ghost use Rattle.pgs_world.specs.Moment.{IsQuiet, MakesNoPut};

use crate::evolving::renewal_of;
use crate::fault::SchemaRefusal;
use crate::judging::index_of_tables;
use crate::{Guard, GuardRefusal, RecoverFault, Store};
use pgs_base::{Bytes, EdgeId, EdgeRow, Limits, List, Memory, NodeId, NodeRow, Seed, Steps};
use pgs_codec::{Command, decode};
use pgs_journal::Journal;
use pgs_keyindex::KeyIndex;
use pgs_saved_graph::tables_of;
use pgs_snapshot::{Chosen, choose_area};
use pgs_tables::Tables;
use pgs_violation::Rejection;
use pgs_world::World;
use std::alloc::Global;
use std::marker::Brand;
use std::sync::ledger::{Blank, Ledger};

// The schema's text of a store's records.
fn text_in(alloc: Global, payloads: &[Bytes]) -> Result<Bytes, Memory>
    ensures { IfOk result (λ text. text ≡ text_of payloads.now) }
{
    let Some(first) = payloads.first() else {
        return Ok(List::new(alloc));
    };
    match decode(alloc, first.as_slice())? {
        Some(Command::Schema(text)) => Ok(text),
        _ => Ok(List::new(alloc)),
    }
}

// The graph of a snapshot in tables, where it conforms and is within the limits, and the index of all of it.
fn judged_tables<L: Ledger>(
    guard: &Guard,
    nodes: List<(NodeId, NodeRow)>,
    edges: List<(EdgeId, EdgeRow)>,
    steps: &mut Steps<L>,
) -> Result<(Tables, KeyIndex), GuardRefusal>
    requires { is_graph (snapshot_graph nodes edges) ≡ true }
    ensures graph { IfOk result (λ it. it.0.graph ≡ snapshot_graph nodes edges) }
    ensures conforms { OnOk result (verdict guard.now.schema (snapshot_graph nodes edges) ≡ Conforms) }
    ensures within { OnOk result (element_count (snapshot_graph nodes edges) ≤ guard.now.limits.elements) }
    ensures stands { IfOk result (λ it. StandsFor guard.now.schema (snapshot_graph nodes edges) guard.now.schema.guard.keys it.1) }
    ensures hashed { IfOk result (λ it. IsHashedBy guard.now.seed it.0.seeds it.1.seed) }
    ensures accepted { OnOk result (judged guard.now.limits (verdict guard.now.schema) (snapshot_graph nodes edges)
        ≡ Ok (snapshot_graph nodes edges)) }
    ensures rejected { IfErr result (IsRejected (judged guard.now.limits (verdict guard.now.schema) (snapshot_graph nodes edges))) }
{
    let tables = tables_of(guard.alloc, guard.seed, nodes, edges)?;
    let index = index_of_tables(
        guard.alloc,
        &tables,
        &guard.schema,
        &guard.limits,
        guard.seed,
        steps,
    )?;
    Ok((tables, index))
}

// Takes the graph of a snapshot for the guard's own, where it conforms and is within the limits, with the index of all of it.
fn restore<L: Ledger>(
    guard: &mut Guard,
    commits: u64,
    nodes: List<(NodeId, NodeRow)>,
    edges: List<(EdgeId, EdgeRow)>,
    steps: &mut Steps<L>,
) -> Result<(), GuardRefusal>
    requires { IsTrue (is_sized (SnapshotCommand commits nodes edges)) }
    ensures accepted { OnOk result (judged guard.old.limits (verdict guard.old.schema) (snapshot_graph nodes edges)
        ≡ Ok (snapshot_graph nodes edges)) }
    ensures restored { OnOk result (guard.new ≡ record guard.old { graph = snapshot_graph nodes edges; commits = commits }) }
    ensures rejected { IfErr result (IsRejected (judged guard.old.limits (verdict guard.old.schema) (snapshot_graph nodes edges))) }
{
    let (tables, index) = judged_tables(guard, nodes, edges, steps)?;
    guard.graph = tables;
    guard.index = index;
    guard.commits = commits;
    Ok(())
}

// Why the record of this number isn't taken, by a guard's refusal.
fn record_fault(number: u64, refusal: GuardRefusal) -> RecoverFault
    ensures { result ≡ of_refusal number refusal }
{
    match refusal {
        GuardRefusal::Memory => RecoverFault::Memory,
        GuardRefusal::Rejected(rejection) => RecoverFault::BadHistory { number, rejection },
    }
}

// Why the record of this number isn't taken, by the refusal of its schema.
fn renewal_fault(number: u64, refusal: SchemaRefusal) -> RecoverFault
    ensures { result ≡ of_schema_refusal number refusal }
{
    match refusal {
        SchemaRefusal::Memory => RecoverFault::Memory,
        SchemaRefusal::Schema(fault) => RecoverFault::Schema(fault),
        SchemaRefusal::Violated(violation) => RecoverFault::BadHistory {
            number,
            rejection: Rejection::Violation(violation),
        },
    }
}

// Puts the guard under the schema of a later record.
fn take_schema<L: Ledger>(
    guard: &mut Guard,
    text: &[u8],
    steps: &mut Steps<L>,
) -> Result<(), SchemaRefusal>
    ensures taken { OnOk result (under_schema guard.old.limits (replayed_in guard.old) text.now (schema_of text.now)
        ≡ Ok (replayed_in guard.new)) }
    ensures untaken { IfErr result (λ refusal. (number : ℕ) →
        IsUntaken number (under_schema guard.old.limits (replayed_in guard.old) text.now (schema_of text.now))
        (of_schema_refusal number refusal)) }
    ensures limits { OnOk result (guard.new.limits ≡ guard.old.limits) }
    ensures seed { OnOk result (guard.new.seed ≡ guard.old.seed) }
{
    // The graph is within the limits.
    guard.facts();
    let schema = guard.read(text)?;
    let renewal = renewal_of(guard, schema, steps)?;
    guard.renew(renewal);
    Ok(())
}

// Does what a command of the record of this number, behind the first, says.
fn take_command<L: Ledger>(
    guard: &mut Guard,
    number: u64,
    command: Command,
    steps: &mut Steps<L>,
) -> Result<(), RecoverFault>
    requires few { guard.old.commits < 18446744073709551615 }
    requires sized { IsTrue (is_sized command) }
    ensures taken { OnOk result (after_record guard.old.limits (replayed_in guard.old) (Some command) ≡ Ok (replayed_in guard.new)) }
    ensures untaken { IfErr result (IsUntaken number (after_record guard.old.limits (replayed_in guard.old) (Some command))) }
    ensures limits { OnOk result (guard.new.limits ≡ guard.old.limits) }
    ensures seed { OnOk result (guard.new.seed ≡ guard.old.seed) }
{
    match command {
        Command::Txn(txn) => match guard.apply(&txn, steps) {
            Ok(_) => Ok(()),
            Err(refusal) => Err(record_fault(number, refusal)),
        },
        Command::Snapshot {
            commits,
            nodes,
            edges,
        } => match restore(guard, commits, nodes, edges, steps) {
            Ok(()) => Ok(()),
            Err(refusal) => Err(record_fault(number, refusal)),
        },
        Command::Schema(text) => match take_schema(guard, text.as_slice(), steps) {
            Ok(()) => Ok(()),
            Err(refusal) => Err(renewal_fault(number, refusal)),
        },
    }
}

// The command of a payload, which is given up.
fn command_in(alloc: Global, payload: Bytes) -> Result<Option<Command>, Memory>
    ensures command { IfOk result (λ command. command ≡ decoded payload) }
    ensures sized { IfOk result (λ command. IfSome command (λ command. IsTrue (is_sized command))) }
{
    decode(alloc, payload.as_slice())
}

// Does what the record of this number, behind the first, says. Its payload is given up before that.
fn take_record<L: Ledger>(
    alloc: Global,
    guard: &mut Guard,
    number: u64,
    payload: Bytes,
    steps: &mut Steps<L>,
) -> Result<(), RecoverFault>
    requires { guard.old.commits < 18446744073709551615 }
    ensures taken { OnOk result (after_record guard.old.limits (replayed_in guard.old) (decoded payload) ≡ Ok (replayed_in guard.new)) }
    ensures untaken { IfErr result (IsUntaken number (after_record guard.old.limits (replayed_in guard.old) (decoded payload))) }
    ensures limits { OnOk result (guard.new.limits ≡ guard.old.limits) }
    ensures seed { OnOk result (guard.new.seed ≡ guard.old.seed) }
{
    match command_in(alloc, payload)? {
        Some(command) => take_command(guard, number, command, steps),
        None => Ok(()),
    }
}

// Replays the records behind the first, in order. The payload of each is given up when it is decoded.
fn replay<L: Ledger>(
    alloc: Global,
    guard: &mut Guard,
    payloads: List<Bytes>,
    steps: &mut Steps<L>,
) -> Result<(), RecoverFault>
    requires empty { guard.old.commits ≡ 0 }
    requires bounded { (epoch end : ℕ) × (next : Option ℕ) × IsBoundedStore epoch end next payloads }
    ensures replayed { OnOk result (replay_of guard.old.limits 2 (replayed_in guard.old) (drop 1 payloads)
        ≡ Ok (replayed_in guard.new)) }
    ensures untaken { IfErr result (IsUnreplayed (replay_of guard.old.limits 2 (replayed_in guard.old) (drop 1 payloads))) }
    ensures limits { OnOk result (guard.new.limits ≡ guard.old.limits) }
    ensures seed { OnOk result (guard.new.seed ≡ guard.old.seed) }
{
    let mut records = payloads.into_vec().into_iter();
    let _schema = records.next();
    let mut number = 1;
    for payload in records {
        number += 1;
        match take_record(alloc, guard, number, payload, steps) {
            Ok(()) => {}
            Err(fault) => return Err(fault),
        }
    }
    Ok(())
}

// The guard of the text of a store's first record.
fn first_guard(
    alloc: Global,
    limits: Limits,
    seed: Seed,
    payloads: &[Bytes],
) -> Result<Guard, RecoverFault>
    ensures text { IfOk result (λ guard. guard.text ≡ text_of payloads.now) }
    ensures schema { IfOk result (λ guard. schema_of guard.text ≡ schema guard.schema) }
    ensures limits { IfOk result (λ guard. guard.limits ≡ limits) }
    ensures empty { IfOk result (λ guard. guard.graph ≡ empty_graph) }
    ensures commits { IfOk result (λ guard. guard.commits ≡ 0) }
    ensures seed { IfOk result (λ guard. guard.seed ≡ seed) }
    ensures refused { IfErr result (IsUnrecovered (saved_of limits payloads.now)) }
    ensures judged { is_disk_fault result ≡ false }
{
    let text = text_in(alloc, payloads)?;
    Ok(Guard::with_seed(alloc, text.as_slice(), limits, seed)?)
}

// The guard that the records of a store lead to.
fn guard_of_records<L: Ledger>(
    alloc: Global,
    limits: Limits,
    seed: Seed,
    payloads: List<Bytes>,
    blank: Blank,
) -> Result<Guard, RecoverFault>
    requires bounded { (epoch end : ℕ) × (next : Option ℕ) × IsBoundedStore epoch end next payloads }
    requires name { blank.name ≡ L.name }
    requires parts { blank.parts ≡ L.parts }
    requires some { 0 < blank.parts }
    ensures recovered { IfOk result (λ guard. saved_of limits payloads ≡ store guard.text guard.commits guard.graph) }
    ensures limits { IfOk result (λ guard. guard.limits ≡ limits) }
    ensures seed { IfOk result (λ guard. guard.seed ≡ seed) }
    ensures refused { IfErr result (IsUnrecovered (saved_of limits payloads)) }
    ensures judged { is_disk_fault result ≡ false }
{
    let mut steps: Steps<L> = Steps::begin(blank);
    let mut guard = first_guard(alloc, limits, seed, payloads.as_slice())?;
    replay(alloc, &mut guard, payloads, &mut steps)?;
    Ok(guard)
}

impl Store {
    /// The store that is saved in both areas: the records of the chosen one are replayed, each transaction is decided again as by
    /// `apply`, the graph of a snapshot is judged from scratch, once, and under each later schema the graph so far. Both areas and the
    /// output are what they were at every moment. The records are in memory when the replay begins, and the payload of each is given up
    /// when it has been decoded.
    ///
    /// 30 `NoStore` exactly where no area is a store and none is foreign, 32 `Foreign` exactly where no area is a store and one is
    /// foreign, 33 `BadRecord` exactly where the chosen store is damaged at that record; else the first fault in the order of records:
    /// a schema refusal 10 to 19 of a stored text, or 34 `BadHistory` with the record's number and rejection. `DiskFault` comes only
    /// where the count of area faults rose; `Memory` may come wherever there is none. The store hashes by the seed of the world
    /// (`World::seed`), and keeps it.
    pub fn recover<W: World>(
        alloc: Global,
        limits: Limits,
        world: &mut W,
    ) -> Result<Store, RecoverFault>
        ensures answer { Recovers result limits (W.view world.old) (W.view world.new) }
        ensures seed { IfOk result (λ store. store.guard.seed ≡ W.hashed_by world.new) }
        ensures faults { CountsFault (is_disk_fault result) (W.view world.old) (W.view world.new) }
        ensures last { is_disk_fault result ≡ true → W.failed world.new }
        ensures quiet { IsQuiet (W.view world.old) (W.view world.new) }
        ensures no_put { MakesNoPut (W.view world.old) (W.view world.new) }
    {
        let chosen = choose_area(alloc, world)?;
        let Chosen {
            area,
            epoch,
            end,
            next,
            payloads,
        } = chosen;
        let guard = guard_of_records::<Brand>(
            alloc,
            limits,
            world.seed(),
            payloads,
            Blank::new(1),
        )?;
        Ok(Store {
            guard,
            journal: Journal {
                area,
                epoch,
                end,
                next,
            },
            failed: false,
        })
    }
}
