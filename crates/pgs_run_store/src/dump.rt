ghost use Rattle.std.specs.Prelude.{◌≡◌, true};
ghost use Rattle.pgs_run_lines.specs.Calls.{stops_of_world};
ghost use Rattle.pgs_run_lines.specs.Puts.{Puts};
ghost use Rattle.pgs_run_store.specs.Dump.{dump};

use crate::StoreReader;
use pgs_answer::{schema_line, separator_line};
use pgs_command::{Status, status_at};
use pgs_dump::put_graph;
use pgs_run_lines::{Stop, put_made};
use pgs_store::Store;
use pgs_world::World;
use std::alloc::Global;

/// Tells a saved store as text: its schema's text, the line `---`, and one operation a line that makes its graph from the empty one.
/// Of each node by number there is an add with its labels and then one operation for each property by name; then of each edge.
#[derive(Clone, Copy)]
pub struct Dump;

// Puts the dump of a store.
fn put_dump<W: World>(alloc: Global, world: &mut W, store: &Store) -> Result<(), Stop<Status>>
    ensures puts { Puts (W.view world.old) (dump store.now.guard.text store.now.guard.graph) result (W.view world.new) }
    ensures last { stops_of_world result ≡ true → W.failed world.new }
{
    put_made(world, schema_line(alloc, store.schema_text()))?;
    put_made(world, separator_line(alloc))?;
    put_graph(alloc, world, store.graph())
}

impl StoreReader for Dump {
    ghost use Rattle.pgs_run_store.specs.Dump.{told_dump};

    ghost tells = { λ reader. told_dump };

    fn tell<W: World>(&self, alloc: Global, world: &mut W, store: &Store) -> Status {
        match put_dump(alloc, world, store) {
            Ok(()) => Status::Accepted,
            Err(stop) => status_at(stop),
        }
    }
}
