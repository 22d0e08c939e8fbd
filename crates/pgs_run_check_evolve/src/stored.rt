//! What a step changes for a saved store: the saved schema is the old one.

ghost use Rattle.std.specs.Prelude.{◌≡◌, ℕ, Some, true, false};
ghost use Rattle.pgs_resolve.specs.SchemaOf.{schema_of};
ghost use Rattle.pgs_run_lines.specs.Calls.{is_of_world};
ghost use Rattle.pgs_run_lines.specs.declared.stop.Stop.TheVariants as stops;
ghost use Rattle.pgs_command.specs.declared.status.Status.TheVariants.{Refused};
ghost use Rattle.pgs_schema.specs.Told.{IsRefused};
ghost use Rattle.pgs_violation.specs.Violations.{violations as violations_of};
ghost use Rattle.pgs_command.specs.Calls.{fails_world};
ghost use Rattle.pgs_run_contain.specs.Behind.{FollowsBoth};
ghost use Rattle.pgs_run_store.specs.Opening.{saved_in};
ghost use Rattle.pgs_run_store.specs.Refusing.{SavedStore};
ghost use Rattle.pgs_run_check_evolve.specs.Stored.{TellsNext, stored_behind};
ghost use Rattle.pgs_run_check_evolve.specs.Telling.{TellsListed, TellsRefusal};

use crate::changes::{put_changes, status_by};
use pgs_base::{Bytes, Name};
use pgs_command::{Status, status_at};
use pgs_graph::GraphRead;
use pgs_run_contain::names_in_both;
use pgs_run_lines::{Stop, put_last, put_pieces};
use pgs_run_refusal::refused_lines;
use pgs_run_renewal::old_format_line;
use pgs_run_try::{graph_violations, put_all_listed};
use pgs_schema::{Schema, SchemaUnread};
use pgs_store::Store;
use pgs_tables::Tables;
use pgs_world::World;
use std::alloc::Global;

// Puts a line for each violation of a graph under a schema: how the run ends.
fn list_violations<W: World>(
    alloc: Global,
    world: &mut W,
    graph: &Tables,
    schema: &Schema,
) -> Stop<Status>
    ensures tells { TellsListed (violations_of schema.now.resolved graph.now.graph) (W.view world.old) result (W.view world.new) }
    ensures last { is_of_world result ≡ true → W.failed world.new }
{
    let found = match graph_violations(alloc, graph, schema) {
        Ok(found) => found,
        Err(_) => return Stop::Memory,
    };
    match put_all_listed(alloc, world, found.as_slice()) {
        Ok(()) => Stop::Ended(status_by(found.is_empty())),
        Err(stop) => stop,
    }
}

// Whether a step was told that isn't safe.
fn is_unsafe(stop: &Stop<Status>) -> bool
    ensures refused { result ≡ true → stop.now ≡ stops.Ended Refused }
    ensures other { result ≡ false → stop.now ≡ stops.Ended Refused → ⊥ }
{
    matches!(stop, Stop::Ended(Status::Refused))
}

// Tells what the step from the saved schema to another changes, and where it isn't safe what in the saved graph the other doesn't allow. The
// names are those of both texts.
fn tell_stored<W: World>(
    alloc: Global,
    world: &mut W,
    store: &Store,
    schema: &Schema,
    names: &[Name],
) -> Stop<Status>
    ensures follows { FollowsBoth (stored_behind store.now.guard.graph) store.now.guard.schema schema.now.resolved names.now (W.view world.old) result (W.view world.new) }
    ensures last { is_of_world result ≡ true → W.failed world.new }
{
    let graph = store.graph();
    // The count's clause says that what is saved is a graph.
    let _count = graph.count();
    let stop = put_changes(alloc, world, store.compiled(), schema.compiled(), names);
    if is_unsafe(&stop) {
        list_violations(alloc, world, graph, schema)
    } else {
        stop
    }
}

// Puts the lines of a refusal, and gives the status.
fn put_refusal<W: World>(world: &mut W, lines: &[Bytes]) -> Status
    ensures tells { TellsRefusal lines.now (W.view world.old) (W.view world.new) result }
    ensures last { fails_world result ≡ true → W.failed world.new }
{
    match put_pieces::<Status, W>(world, lines) {
        Ok(()) => Status::SchemaRefused,
        Err(_) => Status::PutFault,
    }
}

// Puts the line of a text that is no schema, and that of the cause, where there is one.
fn refuse<W: World>(alloc: Global, world: &mut W, unread: SchemaUnread, text: &[u8]) -> Status
    requires { IsRefused (schema_of text.now) unread }
    ensures answer { (it : SavedStore) (number : ℕ) → TellsNext it (Some number) text.now (W.view world.old) (W.view world.new) result }
    ensures last { fails_world result ≡ true → W.failed world.new }
{
    match refused_lines(alloc, unread, text) {
        Ok(lines) => put_refusal(world, &lines),
        Err(_) => Status::Memory,
    }
}

/// Tells of a text over an opened store.
pub(crate) fn tell_text<W: World>(
    alloc: Global,
    world: &mut W,
    store: &Store,
    text: &[u8],
) -> Status
    ensures answer { TellsNext (saved_in store.now) store.now.journal.next text.now (W.view world.old) (W.view world.new) result }
    ensures last { fails_world result ≡ true → W.failed world.new }
{
    if !store.takes_schemas() {
        return put_last(world, old_format_line(alloc), Status::StoreRefused);
    }
    match Schema::read(alloc, text) {
        Ok(schema) => match names_in_both(alloc, store.schema_text(), text) {
            Ok(names) => status_at(tell_stored(alloc, world, store, &schema, names.as_slice())),
            Err(_) => Status::Memory,
        },
        Err(unread) => refuse(alloc, world, unread, text),
    }
}
