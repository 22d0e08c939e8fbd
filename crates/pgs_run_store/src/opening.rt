ghost use Rattle.std.specs.Prelude.{◌≡◌, false, true, IfOk, OnErr};
ghost use Rattle.pgs_answer.specs.Lines.{store_refused_line as refused_line};
ghost use Rattle.pgs_store.specs.Recovers.{is_of_area};
ghost use Rattle.pgs_store.specs.World.{CountsFault};
ghost use Rattle.pgs_world.specs.Moment.{IsQuiet, MakesNoPut};
ghost use Rattle.pgs_run_store.specs.Opening.{Opens, Unopens, is_disk_fault};

use pgs_answer::{
    bad_history_text, bad_record_text, foreign_text, no_store_text, schema_refused_line,
    store_refused_line,
};
use pgs_base::{Limits, Memory};
use pgs_command::Status;
use pgs_run_input::refusal_of;
use pgs_run_lines::Reply;
use pgs_schema::SchemaUnread;
use pgs_store::{RecoverFault, Store};
use pgs_world::World;
use std::alloc::Global;

/// Why no store is opened.
#[derive(Drop)]
pub enum Unopened {
    /// The areas, the stored schema text or a record are refused: the line that says so, and the status.
    Refused(Reply<Status>),
    /// A call on an area failed.
    DiskFault,
    /// There was no memory.
    Memory,
}

// The refusal of a store for what a text says.
fn refused_store(alloc: Global, text: &[u8]) -> Result<Unopened, Memory>
    ensures { IfOk result (λ unopened. unopened ≡ Unopened.Refused (record { line = refused_line text.now; status = Status.StoreRefused })) }
{
    let line = store_refused_line(alloc, text)?;
    Ok(Unopened::Refused(Reply {
        line,
        status: Status::StoreRefused,
    }))
}

// Why no store is opened where none is recovered.
fn unopened_of(alloc: Global, fault: RecoverFault) -> Result<Unopened, Memory>
    ensures refused { IfOk result (λ unopened. Unopens fault unopened) }
    ensures memory { OnErr result (is_of_area fault ≡ false) }
{
    match fault {
        RecoverFault::Memory => Err(Memory),
        RecoverFault::DiskFault => Ok(Unopened::DiskFault),
        RecoverFault::NoStore => refused_store(alloc, no_store_text(alloc)?.as_slice()),
        RecoverFault::Foreign => refused_store(alloc, foreign_text(alloc)?.as_slice()),
        RecoverFault::BadRecord { number } => {
            refused_store(alloc, bad_record_text(alloc, number)?.as_slice())
        }
        RecoverFault::BadHistory { number, rejection } => {
            let text = bad_history_text(alloc, number, &rejection, &Limits::standard())?;
            refused_store(alloc, text.as_slice())
        }
        RecoverFault::Schema(fault) => {
            let text = refusal_of(alloc, SchemaUnread::Schema(fault))?;
            let line = schema_refused_line(alloc, text.as_slice())?;
            Ok(Unopened::Refused(Reply {
                line,
                status: Status::SchemaRefused,
            }))
        }
    }
}

// The same, also where there is no memory for its line.
fn reason_for(alloc: Global, fault: RecoverFault) -> Unopened
    ensures { Unopens fault result }
{
    match unopened_of(alloc, fault) {
        Ok(unopened) => unopened,
        Err(_) => Unopened::Memory,
    }
}

/// The store that is saved in both areas, within the limits of the program. Both areas and the output are what they were at every
/// moment.
///
/// `Refused` exactly where the two areas save no store: 30 `no store`, 32 `another program's file`, 33 a damaged record, 10 to 19 a
/// refusal of the stored schema text, 34 a record that is rejected. `DiskFault` comes only where the count of area faults rose;
/// `Memory` may come wherever there is none (docs/DEFINITIONS.md, "What is saved").
pub fn open_store<W: World>(alloc: Global, world: &mut W) -> Result<Store, Unopened>
    ensures answer { Opens result (W.view world.old) (W.view world.new) }
    ensures faults { CountsFault (is_disk_fault result) (W.view world.old) (W.view world.new) }
    ensures last { is_disk_fault result ≡ true → W.failed world.new }
    ensures quiet { IsQuiet (W.view world.old) (W.view world.new) }
    ensures no_put { MakesNoPut (W.view world.old) (W.view world.new) }
{
    match Store::recover(alloc, Limits::standard(), world) {
        Ok(store) => {
            // What it promises of the text: its schema is the store's.
            let _text = store.schema_text();
            Ok(store)
        }
        Err(fault) => Err(reason_for(alloc, fault)),
    }
}
