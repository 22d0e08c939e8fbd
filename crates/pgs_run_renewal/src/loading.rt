//! The loading of a text that was read whole.

ghost use Rattle.std.specs.Prelude.{◌≡◌, true};
ghost use Rattle.pgs_command.specs.Calls.{fails_world};
ghost use Rattle.pgs_base.specs.Graph.{empty_graph};
ghost use Rattle.pgs_resolve.specs.SchemaOf.{schema_of};
ghost use Rattle.pgs_schema.specs.Told.{IsRefused};
ghost use Rattle.pgs_run_input.specs.Session.{standard};
ghost use Rattle.pgs_run_renewal.specs.LoadLeaving.{LoadsText};
ghost use Rattle.pgs_run_renewal.specs.LoadTold.{line_of};

use crate::load_lines::{foreign_line, line_of, occupied_line};
use pgs_base::{Bytes, Limits};
use pgs_command::Status;
use pgs_run_input::refused_line;
use pgs_run_lines::{Reply, put_last, put_reply};
use pgs_schema::SchemaUnread;
use pgs_store::{Guard, LoadFault, Store};
use pgs_world::World;
use std::alloc::Global;

// Puts the line of a text that is no schema.
fn refuse<W: World>(alloc: Global, unread: SchemaUnread, text: &[u8], world: &mut W) -> Status
    requires { IsRefused (schema_of text.now) unread }
    ensures answer { LoadsText text.now (W.view world.old) (W.view world.new) result }
    ensures last { fails_world result ≡ true → W.failed world.new }
{
    let status = Status::SchemaRefused;
    match refused_line(alloc, unread) {
        Ok(line) => put_reply(world, &Reply { line, status }),
        Err(_) => Status::Memory,
    }
}

// Saves the empty store of a guard in area A, and puts the line of what was loaded, which was made before, or why nothing was.
fn save<W: World>(alloc: Global, guard: Guard, line: Bytes, world: &mut W) -> Status
    requires empty { guard.graph ≡ empty_graph }
    requires unchanged { guard.commits ≡ 0 }
    requires limits { guard.limits ≡ standard }
    requires line { line ≡ line_of guard.schema }
    ensures answer { LoadsText guard.text (W.view world.old) (W.view world.new) result }
    ensures last { fails_world result ≡ true → W.failed world.new }
{
    // What every guard promises of its text: it is the schema's.
    let _text = guard.schema_text();
    let status = Status::Accepted;
    match Store::create(alloc, guard, world) {
        Ok(_store) => put_reply(world, &Reply { line, status }),
        Err(LoadFault::AlreadyStore) => put_last(world, occupied_line(alloc), Status::StoreRefused),
        Err(LoadFault::Foreign) => put_last(world, foreign_line(alloc), Status::StoreRefused),
        Err(LoadFault::DiskFault) => Status::DiskFault,
        Err(LoadFault::Memory) => Status::Memory,
        Err(LoadFault::Schema(_)) => unreachable!(),
    }
}

/// Makes the empty store of a text, in area A, and puts the line of what was loaded or why it wasn't. The line is made before the store,
/// so that no want of memory comes behind it.
pub fn load_text<W: World>(alloc: Global, text: &[u8], world: &mut W) -> Status
    ensures answer { LoadsText text.now (W.view world.old) (W.view world.new) result }
    ensures last { fails_world result ≡ true → W.failed world.new }
{
    let guard = match Guard::with_seed(alloc, text, Limits::standard(), world.seed()) {
        Ok(guard) => guard,
        Err(unread) => return refuse(alloc, unread, text, world),
    };
    match line_of(alloc, &guard) {
        Ok(line) => save(alloc, guard, line, world),
        Err(_) => Status::Memory,
    }
}
