ghost use Rattle.std.specs.Prelude.{◌≡◌, ◌<◌, true};
ghost use Rattle.pgs_run_lines.specs.Calls.{stops_of_world};
ghost use Rattle.pgs_run_lines.specs.Puts.{Puts};
ghost use Rattle.pgs_dump.specs.Lines.{graph_lines};

use crate::elements::{put_edges, put_nodes};
use pgs_base::Steps;
use pgs_graph::GraphRead;
use pgs_run_lines::Stop;
use pgs_world::World;
use std::alloc::Global;
use std::marker::Brand;
use std::sync::ledger::{Blank, Ledger};

// No one asks for the steps.
fn put_counted<E, G: GraphRead, L: Ledger, W: World>(
    alloc: Global,
    world: &mut W,
    graph: &G,
    blank: Blank,
) -> Result<(), Stop<E>>
    requires name { blank.name ≡ L.name }
    requires parts { blank.parts ≡ L.parts }
    requires some { 0 < blank.parts }
    ensures puts { Puts (W.view world.old) (graph_lines (G.meaning graph.now)) result (W.view world.new) }
    ensures last { stops_of_world result ≡ true → W.failed world.new }
{
    let mut steps: Steps<L> = Steps::begin(blank);
    put_nodes(alloc, world, graph, &mut steps)?;
    put_edges(alloc, world, graph, &mut steps)
}

/// Puts the operations that make a graph from the empty one, one a line. `PutFault` comes only where the count of put faults rose, and
/// a front of a line may then have been put; before it, and before `Memory`, some first lines were put whole. No other stop comes.
pub fn put_graph<E, G: GraphRead, W: World>(
    alloc: Global,
    world: &mut W,
    graph: &G,
) -> Result<(), Stop<E>>
    ensures puts { Puts (W.view world.old) (graph_lines (G.meaning graph.now)) result (W.view world.new) }
    ensures last { stops_of_world result ≡ true → W.failed world.new }
{
    put_counted::<E, G, Brand, W>(alloc, world, graph, Blank::new(1))
}
