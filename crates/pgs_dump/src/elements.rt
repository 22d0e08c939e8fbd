//! The nodes and the edges of a graph, put element by element.

ghost use Rattle.std.specs.Prelude.{◌≡◌, map, true};
ghost use Rattle.pgs_run_lines.specs.Calls.{stops_of_world};
ghost use Rattle.pgs_base.specs.Pair.{pair_of};
ghost use Rattle.pgs_graph.specs.Reads.{edge_row};
ghost use Rattle.pgs_run_lines.specs.Puts.{Puts};
ghost use Rattle.pgs_dump.specs.Lines.{edge_ops, node_ops, op_line};
ghost use Rattle.pgs_dump.specs.Parts.{edge_lines, node_lines, set_lines};

use crate::lines::{add_edge_line, add_node_line, set_line};
use pgs_base::{EdgeId, Elem, Name, NodeId, Steps, Value};
use pgs_graph::{EdgeRef, GraphRead, NodeRef};
use pgs_run_lines::{Stop, put_made};
use pgs_world::World;
use std::alloc::Global;
use std::sync::ledger::Ledger;

// Puts a line for each property of an element.
fn put_properties<E, W: World>(
    alloc: Global,
    world: &mut W,
    elem: Elem,
    properties: &[(Name, Value)],
) -> Result<(), Stop<E>>
    ensures puts { Puts (W.view world.old) (set_lines elem properties.now) result (W.view world.new) }
    ensures last { stops_of_world result ≡ true → W.failed world.new }
{
    for property in properties {
        put_made(world, set_line(alloc, elem, property))?;
    }
    Ok(())
}

// Puts the lines of a node.
fn put_node<E, W: World>(
    alloc: Global,
    world: &mut W,
    id: NodeId,
    node: &NodeRef<'_>,
) -> Result<(), Stop<E>>
    ensures puts { Puts (W.view world.old) (map op_line (node_ops (id, pair_of node.now.labels.now node.now.props.now))) result (W.view world.new) }
    ensures last { stops_of_world result ≡ true → W.failed world.new }
{
    put_made(world, add_node_line(alloc, id, node.labels))?;
    put_properties(alloc, world, Elem::Node(id), node.props.as_slice())
}

// Puts the lines of an edge.
fn put_edge<E, W: World>(
    alloc: Global,
    world: &mut W,
    id: EdgeId,
    edge: &EdgeRef<'_>,
) -> Result<(), Stop<E>>
    ensures puts { Puts (W.view world.old)
        (map op_line (edge_ops (id, edge_row edge.now.source edge.now.target edge.now.labels.now edge.now.props.now)))
        result (W.view world.new) }
    ensures last { stops_of_world result ≡ true → W.failed world.new }
{
    put_made(world, add_edge_line(alloc, id, edge))?;
    put_properties(alloc, world, Elem::Edge(id), edge.props.as_slice())
}

/// Puts the lines of all nodes, by number.
pub(crate) fn put_nodes<E, G: GraphRead, L: Ledger, W: World>(
    alloc: Global,
    world: &mut W,
    graph: &G,
    steps: &mut Steps<L>,
) -> Result<(), Stop<E>>
    ensures puts { Puts (W.view world.old) (node_lines (G.meaning graph.now).nodes) result (W.view world.new) }
    ensures last { stops_of_world result ≡ true → W.failed world.new }
{
    let ids = graph.node_ids(alloc, steps)?;
    for id in ids.as_slice() {
        let Some(node) = graph.node(*id, steps) else {
            unreachable!()
        };
        put_node(alloc, world, *id, &node)?;
    }
    Ok(())
}

/// Puts the lines of all edges, by number.
pub(crate) fn put_edges<E, G: GraphRead, L: Ledger, W: World>(
    alloc: Global,
    world: &mut W,
    graph: &G,
    steps: &mut Steps<L>,
) -> Result<(), Stop<E>>
    ensures puts { Puts (W.view world.old) (edge_lines (G.meaning graph.now).edges) result (W.view world.new) }
    ensures last { stops_of_world result ≡ true → W.failed world.new }
{
    let ids = graph.edge_ids(alloc, steps)?;
    for id in ids.as_slice() {
        let Some(edge) = graph.edge(*id, steps) else {
            unreachable!()
        };
        put_edge(alloc, world, *id, &edge)?;
    }
    Ok(())
}
