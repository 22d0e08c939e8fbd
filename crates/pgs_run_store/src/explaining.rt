ghost use Rattle.std.specs.Prelude.{◌≡◌, ◌<◌, is_some, true, IfOk};
ghost use Rattle.pgs_run_lines.specs.Calls.{stops_of_world};
ghost use Rattle.pgs_run_lines.specs.Puts.{Puts};
ghost use Rattle.pgs_syntax.specs.Matches.{carried};
ghost use Rattle.pgs_run_store.specs.Explaining.{explained};

mod keys;
mod types;

use crate::StoreReader;
use keys::put_keys;
use pgs_answer::absent_line;
use pgs_base::{Elem, Steps};
use pgs_command::{Status, status_at};
use pgs_graph::GraphRead;
use pgs_run_lines::{Stop, put_made};
use pgs_store::Store;
use pgs_world::World;
use std::alloc::Global;
use std::marker::Brand;
use std::sync::ledger::{Blank, Ledger};
use types::put_types;

/// Tells of one element of a saved store: a line for each type of the guard that it fits, abstract ones too, and for each key in whose
/// scope it is a line, and one for each of its values. Where the element is not in the graph one line says so, and the status is
/// `Refused`.
#[derive(Clone, Copy)]
pub struct Explaining {
    /// The element.
    pub elem: Elem,
}

// Whether an element is in a graph.
fn is_there<G: GraphRead, L: Ledger>(graph: &G, elem: Elem, steps: &mut Steps<L>) -> bool
    ensures { result ≡ is_some (carried (G.meaning graph.now) elem) }
{
    match elem {
        Elem::Node(id) => graph.node(id, steps).is_some(),
        Elem::Edge(id) => graph.edge(id, steps).is_some(),
    }
}

// Puts the types and the keys of an element that is in the graph.
fn put_present<W: World, L: Ledger>(
    alloc: Global,
    world: &mut W,
    store: &Store,
    elem: Elem,
    steps: &mut Steps<L>,
) -> Result<(), Stop<Status>>
    requires { is_some (carried store.now.guard.graph elem) ≡ true }
    ensures puts { Puts (W.view world.old) (explained store.now.guard.schema store.now.guard.graph elem).pieces result (W.view world.new) }
    ensures last { stops_of_world result ≡ true → W.failed world.new }
{
    let types = store.types_of(elem)?;
    put_types(alloc, world, store.compiled().resolved(), types.as_slice())?;
    put_keys(alloc, world, store, elem, steps)
}

// Puts what is told of an element: whether it is in the graph.
fn put_explained<W: World, L: Ledger>(
    alloc: Global,
    world: &mut W,
    store: &Store,
    elem: Elem,
    blank: Blank,
) -> Result<bool, Stop<Status>>
    requires name { blank.name ≡ L.name }
    requires parts { blank.parts ≡ L.parts }
    requires some { 0 < blank.parts }
    ensures puts { Puts (W.view world.old) (explained store.now.guard.schema store.now.guard.graph elem).pieces result (W.view world.new) }
    ensures there { IfOk result (λ there. there ≡ is_some (carried store.now.guard.graph elem)) }
    ensures last { stops_of_world result ≡ true → W.failed world.new }
{
    let mut steps: Steps<L> = Steps::begin(blank);
    if is_there(store.graph(), elem, &mut steps) {
        put_present(alloc, world, store, elem, &mut steps)?;
        return Ok(true);
    }
    put_made(world, absent_line(alloc, elem))?;
    Ok(false)
}

impl StoreReader for Explaining {
    ghost use Rattle.pgs_run_store.specs.Explaining.{told_element};

    ghost tells = { λ explaining. told_element explaining.elem };

    fn tell<W: World>(&self, alloc: Global, world: &mut W, store: &Store) -> Status {
        match put_explained::<W, Brand>(alloc, world, store, self.elem, Blank::new(1)) {
            Ok(true) => Status::Accepted,
            Ok(false) => Status::Refused,
            Err(stop) => status_at(stop),
        }
    }
}
