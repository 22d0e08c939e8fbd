ghost use Rattle.std.specs.Prelude.{◌≡◌, ◌+◌, true, IfOk};
ghost use Rattle.pgs_answer.specs.Lines.{checkpoint_line, store_refused_line as refused_line};
ghost use Rattle.pgs_answer.specs.Refusals.{epochs_spent_text as spent_text};
ghost use Rattle.pgs_command.specs.Calls.{fails_world};
ghost use Rattle.pgs_command.specs.Promise.{PromiseAlone};
ghost use Rattle.pgs_run_renewal.specs.CheckpointSpec.{checkpoint_spec};

use pgs_answer::{checkpoint_line, epochs_spent_text, store_refused_line};
use pgs_base::Memory;
use pgs_command::Status;
use pgs_run_lines::{Reply, put_reply};
use pgs_run_store::{end_unopened, open_store};
use pgs_store::{CheckpointFault, Store};
use pgs_world::World;
use std::alloc::Global;

// The reply where a store is renewed.
fn renewed_reply(alloc: Global, store: &Store) -> Result<Reply<Status>, Memory>
    ensures { IfOk result (λ reply. reply ≡ record {
      line = checkpoint_line (store.now.journal.epoch + 1) store.now.guard.commits;
      status = Status.Accepted;
    }) }
{
    let line = checkpoint_line(alloc, store.epoch() + 1, store.commits())?;
    Ok(Reply {
        line,
        status: Status::Accepted,
    })
}

// The reply where no epoch is left.
fn spent_reply(alloc: Global) -> Result<Reply<Status>, Memory>
    ensures { IfOk result (λ reply. reply ≡ record { line = refused_line spent_text; status = Status.StoreRefused }) }
{
    let text = epochs_spent_text(alloc)?;
    let line = store_refused_line(alloc, text.as_slice())?;
    Ok(Reply {
        line,
        status: Status::StoreRefused,
    })
}

/// Saves what is saved in the other area, with the next epoch, by the schema's text and a snapshot alone, and puts one line with the
/// new epoch and the number of commits. What it puts and answers is what `told_checkpoint` tells.
///
/// At every moment what is saved is what it was. Where the whole line is in the output, the renewed store is the one that is chosen.
/// `StoreRefused` is 30, 32, 33 and 34 as for every command over a saved store, and 37 at the last epoch; `SchemaRefused` is a refusal
/// of the stored schema text. Where no store is saved, both areas are what they were at every moment. `DiskFault` comes only where the
/// count of area faults rose, and `PutFault` where that of put faults did; `Memory` may come wherever there is none, before a line
/// is put.
pub fn run_checkpoint<W: World>(alloc: Global, world: &mut W) -> Status
    ensures promise { PromiseAlone checkpoint_spec (W.view world.old) (W.view world.new) result }
    ensures last { fails_world result ≡ true → W.failed world.new }
{
    let mut store = match open_store(alloc, world) {
        Ok(store) => store,
        Err(unopened) => return end_unopened(world, unopened),
    };
    // The line is made first, so that there is no want of memory behind the renewed store.
    let renewed = match renewed_reply(alloc, &store) {
        Ok(reply) => reply,
        Err(_) => return Status::Memory,
    };
    match store.checkpoint(world) {
        Ok(_) => {
            // What it promises of the new epoch: it is one of those that there are.
            let _epoch = store.epoch();
            put_reply(world, &renewed)
        }
        Err(CheckpointFault::EpochsSpent) => match spent_reply(alloc) {
            Ok(spent) => put_reply(world, &spent),
            Err(_) => Status::Memory,
        },
        Err(CheckpointFault::Memory) => Status::Memory,
        Err(CheckpointFault::DiskFault) => Status::DiskFault,
        Err(CheckpointFault::NeedsReopen) => unreachable!(),
    }
}
