ghost use Rattle.std.specs.Prelude.{◌≡◌, ◌<◌, ◌≤◌, ◌∷◌, [], IfOk, true};
ghost use Rattle.pgs_command.specs.Calls.{fails_world};
ghost use Rattle.pgs_base.specs.Graph.{empty_graph};
ghost use Rattle.pgs_violation.specs.Violations.{verdict};
ghost use Rattle.pgs_command.specs.Promise.{PromiseAlone};
ghost use Rattle.pgs_run_input.specs.Session.{standard};
ghost use Rattle.pgs_run_gen.specs.Persons.{persons};
ghost use Rattle.pgs_run_gen.specs.Spec.{gen_spec};
ghost use Rattle.pgs_run_gen.specs.Told.{told_gen, told_of};
ghost use Rattle.pgs_run_gen.specs.Workload.{decided};

use crate::deciding::decide_workload;
use crate::summary::summary;
use pgs_base::{Limits, Memory, Seed, Steps};
use pgs_command::Status;
use pgs_gen::schema;
use pgs_run_lines::{Reply, put_reply};
use pgs_schema::SchemaUnread;
use pgs_store::Guard;
use pgs_world::World;
use std::alloc::Global;
use std::marker::Brand;
use std::sync::ledger::{Blank, Ledger};

// The reply of a workload by a new guard.
fn decided_by<L: Ledger>(
    alloc: Global,
    guard: &mut Guard,
    start: u64,
    count: u64,
    blank: Blank,
) -> Result<Reply<Status>, Memory>
    requires name { blank.name ≡ L.name }
    requires parts { blank.parts ≡ L.parts }
    requires some { 0 < blank.parts }
    requires few { count ≤ 500000 }
    requires empty { guard.old.graph ≡ empty_graph }
    requires new { guard.old.commits ≡ 0 }
    ensures line { IfOk result (λ reply.
        (told_of (decided guard.old.limits (verdict guard.old.schema) start count)).pieces ≡ reply.line ∷ []) }
    ensures status { IfOk result (λ reply. reply.status ≡ Status.Accepted) }
{
    let mut steps: Steps<L> = Steps::begin(blank);
    let rejected = decide_workload(alloc, guard, start, count, &mut steps)?;
    let line = summary(alloc, guard.graph(), guard.commits(), rejected, &mut steps)?;
    Ok(Reply {
        line,
        // No transaction of a workload is rejected (`laws`).
        status: Status::Accepted,
    })
}

// The guard of an empty graph under the schema of workloads.
fn guard_of(alloc: Global, seed: Seed) -> Result<Guard, Memory>
    ensures schema { IfOk result (λ guard. guard.schema ≡ persons) }
    ensures limits { IfOk result (λ guard. guard.limits ≡ standard) }
    ensures empty { IfOk result (λ guard. guard.graph ≡ empty_graph) }
    ensures new { IfOk result (λ guard. guard.commits ≡ 0) }
{
    let text = schema(alloc)?;
    match Guard::with_seed(alloc, text.as_slice(), Limits::standard(), seed) {
        Ok(guard) => Ok(guard),
        Err(SchemaUnread::Memory) => Err(Memory),
        // The text is a schema (`laws`).
        Err(SchemaUnread::Schema(_fault)) => unreachable!(),
    }
}

// The reply of a workload, by tables that are hashed by a seed.
fn reply_of(alloc: Global, seed: Seed, start: u64, count: u64) -> Result<Reply<Status>, Memory>
    requires { count ≤ 500000 }
    ensures line { IfOk result (λ reply. (told_gen start count).pieces ≡ reply.line ∷ []) }
    ensures status { IfOk result (λ reply. reply.status ≡ Status.Accepted) }
{
    let mut guard = guard_of(alloc, seed)?;
    decided_by::<Brand>(alloc, &mut guard, start, count, Blank::new(1))
}

/// Decides the transactions of a start with the numbers from 1 to a count, at most 500,000, and puts one line that sums them up. What
/// it puts and answers is what `told_gen` tells: all of them are accepted. Else the answer is `PutFault`, where the count of put faults
/// rose, or `Memory`.
pub fn run_gen<W: World>(alloc: Global, world: &mut W, start: u64, count: u64) -> Status
    requires { count ≤ 500000 }
    ensures promise { PromiseAlone (gen_spec start count) (W.view world.old) (W.view world.new) result }
    ensures last { fails_world result ≡ true → W.failed world.new }
{
    match reply_of(alloc, world.seed(), start, count) {
        Ok(reply) => put_reply(world, &reply),
        Err(_) => Status::Memory,
    }
}
