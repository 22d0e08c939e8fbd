//! A text that was read whole, put into force on an opened store.

ghost use Rattle.std.specs.Prelude.{◌≡◌, Ok, true};
ghost use Rattle.pgs_base.specs.Graph.{Graph};
ghost use Rattle.pgs_command.specs.Calls.{fails_world};
ghost use Rattle.pgs_resolve.specs.SchemaOf.{schema_of};
ghost use Rattle.pgs_schema.specs.Told.{IsRefused};
ghost use Rattle.pgs_store.specs.Evolves.{IsNumbered};
ghost use Rattle.pgs_run_input.specs.Answers.{schema_answer};
ghost use Rattle.pgs_run_renewal.specs.EvolveLeaving.{EvolvesText, IsEvolvable};
ghost use Rattle.pgs_run_renewal.specs.EvolveTold.{told_new, told_text};

use crate::evolve_lines::{line_of, old_format_line, violated_line};
use pgs_command::Status;
use pgs_run_input::refused_line;
use pgs_run_lines::{Reply, put_last, put_reply};
use pgs_schema::{Schema, SchemaUnread};
use pgs_store::{EvolveFault, Store};
use pgs_world::World;
use std::alloc::Global;

// Puts the line of a text that is no schema.
fn refuse<W: World>(alloc: Global, world: &mut W, unread: SchemaUnread, text: &[u8]) -> Status
    requires { IsRefused (schema_of text.now) unread }
    ensures answer { (graph : Graph) → EvolvesText (told_text text.now graph) text.now (W.view world.old) (W.view world.new) result }
    ensures last { fails_world result ≡ true → W.failed world.new }
{
    let status = Status::SchemaRefused;
    match refused_line(alloc, unread) {
        Ok(line) => put_reply(world, &Reply { line, status }),
        Err(_) => Status::Memory,
    }
}

// Puts the store under a schema that was read, and then puts its line, which was made before, or why it isn't in force.
fn renew<W: World>(alloc: Global, world: &mut W, store: &mut Store, schema: Schema) -> Status
    requires evolvable { IsEvolvable store.old (W.view world.old) }
    requires numbered { IsNumbered store.old.journal }
    requires read { schema_answer schema.text ≡ Ok schema.resolved }
    ensures answer { EvolvesText (told_text schema.text store.old.guard.graph) schema.text (W.view world.old) (W.view world.new) result }
    ensures last { fails_world result ≡ true → W.failed world.new }
{
    let status = Status::Accepted;
    let line = match line_of(alloc, &schema) {
        Ok(line) => line,
        Err(_) => return Status::Memory,
    };
    match store.evolve_to(world, schema) {
        Ok(()) => put_reply(world, &Reply { line, status }),
        Err(EvolveFault::Violated(violation)) => {
            put_last(world, violated_line(alloc, &violation), Status::Refused)
        }
        Err(EvolveFault::DiskFault) => Status::DiskFault,
        Err(EvolveFault::Memory) => Status::Memory,
        Err(EvolveFault::NeedsReopen | EvolveFault::OldFormat | EvolveFault::Schema(_)) => {
            unreachable!()
        }
    }
}

/// Puts a store under a text, and puts the line of its schema or why it isn't in force.
pub fn evolve_text<W: World>(alloc: Global, world: &mut W, store: &mut Store, text: &[u8]) -> Status
    requires { IsEvolvable store.old (W.view world.old) }
    ensures answer { EvolvesText (told_new store.old.journal.next text.now store.old.guard.graph) text.now (W.view world.old) (W.view world.new) result }
    ensures last { fails_world result ≡ true → W.failed world.new }
{
    if !store.takes_schemas() {
        return put_last(world, old_format_line(alloc), Status::StoreRefused);
    }
    match Schema::read(alloc, text) {
        Ok(schema) => renew(alloc, world, store, schema),
        Err(unread) => refuse(alloc, world, unread, text),
    }
}
