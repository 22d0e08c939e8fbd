ghost use Rattle.std.specs.Prelude.{◌≡◌, ◌<◌, IfOk, IfErr};
ghost use Rattle.pgs_run_input.specs.Answers.{schema_answer};
ghost use Rattle.pgs_run_input.specs.TextFaults.{IsFaultOf};
ghost use Rattle.pgs_run_try.specs.Deciding.{Decides};
ghost use Rattle.pgs_run_try.specs.Opening.{IsOpened};
ghost use Rattle.pgs_run_try.specs.State.{commits_in, HasStandardLimits};

use crate::Judging;
use crate::staged::Staged;
use pgs_base::{Limits, Seed, Steps};
use pgs_graph::Txn;
use pgs_run_input::{TextFault, fault_of, schema_of};
use pgs_store::{Guard, GuardRefusal};
use pgs_tables::Tables;
use std::alloc::Global;
use std::marker::Brand;
use std::sync::ledger::{Blank, Ledger};

/// What transactions are decided on.
#[derive(Drop)]
pub enum Decider {
    /// A guard judges the graph of each transaction.
    Guarded(Guard),
    /// The graph isn't judged before the end.
    Unjudged(Staged),
}

// A guard under a schema text.
#[tactic(auto, unfolding(pgs_run_input::specs::Answers::schema_answer))]
fn guard_under(alloc: Global, text: &[u8], seed: Seed) -> Result<Decider, TextFault>
    ensures opened { IfOk result (IsOpened Judging.EachLine text.now) }
    ensures refused { IfErr result (IsFaultOf (schema_answer text.now)) }
{
    match Guard::with_seed(alloc, text, Limits::standard(), seed) {
        Ok(guard) => Ok(Decider::Guarded(guard)),
        Err(unread) => Err(fault_of(alloc, unread)),
    }
}

// Tables under a schema text.
fn tables_under(alloc: Global, text: &[u8], seed: Seed) -> Result<Decider, TextFault>
    ensures opened { IfOk result (IsOpened Judging.AtEnd text.now) }
    ensures refused { IfErr result (IsFaultOf (schema_answer text.now)) }
{
    let schema = schema_of(alloc, text)?;
    Ok(Decider::Unjudged(Staged {
        schema,
        graph: Tables::with_seed(alloc, seed),
        commits: 0,
    }))
}

/// What decides under a schema text, with an empty graph.
pub fn open_decider(
    alloc: Global,
    judging: Judging,
    text: &[u8],
    seed: Seed,
) -> Result<Decider, TextFault>
    ensures opened { IfOk result (IsOpened judging text.now) }
    ensures refused { IfErr result (IsFaultOf (schema_answer text.now)) }
{
    match judging {
        Judging::EachLine => guard_under(alloc, text, seed),
        Judging::AtEnd => tables_under(alloc, text, seed),
    }
}

// No one asks for the steps of a decision.
#[tactic(auto, unfolding(crate::specs::Judging::verdict_by, pgs_run_input::specs::Session::decision_on))]
fn apply_counted<L: Ledger>(
    alloc: Global,
    decider: &mut Decider,
    txn: &Txn,
    blank: Blank,
) -> Result<u64, GuardRefusal>
    requires name { blank.name ≡ L.name }
    requires parts { blank.parts ≡ L.parts }
    requires some { 0 < blank.parts }
    requires limits { HasStandardLimits decider.old }
    requires commits { commits_in decider.old < 18446744073709551615 }
    ensures { Decides decider.old txn.now result decider.new }
{
    let mut steps: Steps<L> = Steps::begin(blank);
    match decider {
        Decider::Guarded(guard) => guard.apply(txn, &mut steps),
        Decider::Unjudged(staged) => staged.apply(alloc, txn),
    }
}

/// Decides a transaction, and does it where it is accepted: the number of transactions done. Where it is rejected, the
/// graph stays as it was.
pub fn apply(alloc: Global, decider: &mut Decider, txn: &Txn) -> Result<u64, GuardRefusal>
    requires limits { HasStandardLimits decider.old }
    requires commits { commits_in decider.old < 18446744073709551615 }
    ensures { Decides decider.old txn.now result decider.new }
{
    apply_counted::<Brand>(alloc, decider, txn, Blank::new(1))
}
