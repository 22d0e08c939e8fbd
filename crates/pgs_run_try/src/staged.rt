ghost use Rattle.std.specs.Prelude.{◌≡◌, ◌-◌, ◌<◌, ◌^◌, true, Ok, IfOk, IfErr};
ghost use Rattle.pgs_graph.specs.Changed.{changed, is_sound};
ghost use Rattle.pgs_violation.specs.Violations.{violations};
ghost use Rattle.pgs_decide.specs.Refused.{IsRejected};
ghost use Rattle.pgs_run_input.specs.Session.{decision_on};
ghost use Rattle.pgs_run_try.specs.declared.decider.Decider.TheVariants.{Unjudged};
ghost use Rattle.pgs_run_try.specs.Deciding.{Decides};
ghost use Rattle.pgs_run_try.specs.Judging.{judges_nothing};

use pgs_base::{Limits, List, Memory, Steps};
use pgs_graph::{Delta, Txn};
use pgs_schema::Schema;
use pgs_scratch::violations;
use pgs_store::GuardRefusal;
use pgs_tables::Tables;
use pgs_txn::{StageFault, delta_of};
use pgs_violation::{Rejection, Violation};
use std::alloc::Global;
use std::marker::Brand;
use std::sync::ledger::{Blank, Ledger};

/// A graph on which transactions are done without being judged, with the schema that it is judged by at the end.
#[derive(Drop)]
pub struct Staged {
    pub schema: Schema,
    pub graph: Tables,
    pub commits: u64,
}

// The delta of a transaction that can be done within the limits.
fn delta_within_limits(alloc: Global, graph: &Tables, txn: &Txn) -> Result<Delta, GuardRefusal>
    ensures sound { IfOk result (λ delta. is_sound graph.now.graph delta ≡ true) }
    ensures accepted { IfOk result (λ delta. decision_on judges_nothing graph.now.graph txn.now ≡ Ok (changed graph.now.graph delta)) }
    ensures rejected { IfErr result (IsRejected (decision_on judges_nothing graph.now.graph txn.now)) }
{
    match delta_of(alloc, graph, &Limits::standard(), txn) {
        Ok(delta) => Ok(delta),
        Err(StageFault::Memory) => Err(GuardRefusal::Memory),
        Err(StageFault::Refused(structural)) => {
            Err(GuardRefusal::Rejected(Rejection::Structural(structural)))
        }
    }
}

fn violations_counted<L: Ledger>(
    alloc: Global,
    graph: &Tables,
    schema: &Schema,
    blank: Blank,
) -> Result<List<Violation>, Memory>
    requires name { blank.name ≡ L.name }
    requires parts { blank.parts ≡ L.parts }
    requires some { 0 < blank.parts }
    ensures { IfOk result (λ found. found ≡ violations schema.now.resolved graph.now.graph) }
{
    let mut steps: Steps<L> = Steps::begin(blank);
    violations(alloc, graph, schema.compiled(), schema.keys(), &mut steps)
}

/// The violations of a graph under a schema, in order. `Memory` where there was none left.
pub fn graph_violations(
    alloc: Global,
    graph: &Tables,
    schema: &Schema,
) -> Result<List<Violation>, Memory>
    ensures { IfOk result (λ found. found ≡ violations schema.now.resolved graph.now.graph) }
{
    violations_counted::<Brand>(alloc, graph, schema, Blank::new(1))
}

impl Staged {
    /// Does a transaction, where it can be done within the limits: the number of transactions done. Where it is rejected, the graph stays
    /// as it was.
    #[tactic(auto, unfolding(crate::specs::Judging::verdict_by))]
    pub fn apply(&mut self, alloc: Global, txn: &Txn) -> Result<u64, GuardRefusal>
        requires { self.old.commits < 2 ^ 64 - 1 }
        ensures { Decides (Unjudged self.old) txn.now result (Unjudged self.new) }
    {
        let delta = delta_within_limits(alloc, &self.graph, txn)?;
        let prepared = self.graph.prepare(delta)?;
        self.graph.commit(prepared);
        self.commits += 1;
        Ok(self.commits)
    }

    /// The violations of the graph, in order.
    pub fn violations(&self, alloc: Global) -> Result<List<Violation>, Memory>
        ensures { IfOk result (λ found. found ≡ violations self.now.schema.resolved self.now.graph.graph) }
    {
        graph_violations(alloc, &self.graph, &self.schema)
    }
}
