ghost use Rattle.std.specs.Prelude.{◌≡◌, ◌&&◌};
ghost use Rattle.std.specs.List.{list_any};
ghost use Rattle.std.specs.BTreeMap.{is_at};
ghost use Rattle.pgs_base.specs.Graph.{node_cmp, edge_cmp};
ghost use Rattle.pgs_base.specs.Order.{ascends};
ghost use Rattle.pgs_codec.specs.Reading.{named_at, tested_at, many_at, node_id, node_at, snapshot_at};
ghost use Rattle.pgs_codec.specs.Unread.{Sees, Passes, Reads, Gives, end_of};
ghost use Rattle.pgs_codec.specs.Walking.{is_after, node_ids_at, edge_id_in, edge_ids_in, kind_behind};

use crate::reader::Reader;
use crate::unread::{Unfit, Unread};
use crate::walking::payload::PayloadKind;
use crate::walking::row::walk_row;
use pgs_base::{EdgeId, NodeId, Ordered};
use pgs_base_keyed::ascend;
use std::alloc::Global;

// The number of a node, past its row.
#[tactic(auto, using(crate::proofs::SnapshotWalk::no_node, crate::proofs::SnapshotWalk::no_node_row, crate::proofs::SnapshotWalk::node_seen))]
fn walk_node(reader: &mut Reader<'_>) -> Result<NodeId, Unfit>
    ensures { Sees (λ id. id) result reader.new.rest.now (named_at (λ node. node.0) node_at reader.old.rest.now) }
{
    let id = reader.number64()?;
    walk_row(reader)?;
    Ok(NodeId(id))
}

// Whether both ends are among the nodes.
fn are_among(nodes: &Ordered<NodeId>, source: u64, target: u64) -> bool
    ensures { result ≡ (list_any (is_at (node_cmp (node_id source))) nodes.now && list_any (is_at (node_cmp (node_id target))) nodes.now) }
{
    nodes.contains(&NodeId(source)) && nodes.contains(&NodeId(target))
}

// The number of an edge whose ends are among the nodes, past its row.
fn walk_edge(reader: &mut Reader<'_>, nodes: &Ordered<NodeId>) -> Result<EdgeId, Unfit>
    ensures { Sees (λ id. id) result reader.new.rest.now (edge_id_in nodes.now reader.old.rest.now) }
{
    let id = reader.number64()?;
    let source = reader.number64()?;
    let target = reader.number64()?;
    walk_row(reader)?;
    if are_among(nodes, source, target) {
        Ok(EdgeId(id))
    } else {
        Err(Unfit)
    }
}

// The numbers of so many nodes. Memory grows with the nodes that are there, not with the count.
fn walk_node_rows(alloc: Global, reader: &mut Reader<'_>, count: u64) -> Result<Vec<NodeId>, Unread>
    ensures { Reads (λ ids. ids.items) result reader.new.rest.now (many_at (named_at (λ node. node.0) node_at) count reader.old.rest.now) }
{
    let mut ids = Vec::new(alloc);
    for _ in 0..count {
        let id = walk_node(reader)?;
        ids.push(id)?;
    }
    Ok(ids)
}

// Whether an edge comes after the one before it, where there is one.
fn is_after(before: Option<EdgeId>, edge: EdgeId) -> bool
    ensures { result ≡ is_after edge_cmp before edge }
{
    match before {
        Some(before) => before < edge,
        None => true,
    }
}

// So many edges whose numbers ascend strictly.
fn walk_edge_rows(reader: &mut Reader<'_>, nodes: &Ordered<NodeId>, count: u64) -> Result<(), Unfit>
    ensures { Passes result reader.new.rest.now (end_of (tested_at (ascends edge_cmp) (many_at (edge_id_in nodes.now) count) reader.old.rest.now)) }
{
    let mut before = None;
    for _ in 0..count {
        let id = walk_edge(reader, nodes)?;
        if !is_after(before, id) {
            return Err(Unfit);
        }
        before = Some(id);
    }
    Ok(())
}

// The numbers of the nodes.
#[tactic(auto, using(crate::proofs::Lengths::sorted_from_test), unfolding(crate::specs::Walking::node_ids_at, crate::specs::Reading::counted_at, crate::specs::Reading::tested_at))]
fn walk_nodes(alloc: Global, reader: &mut Reader<'_>) -> Result<Ordered<NodeId>, Unread>
    ensures { Reads (λ ids. ids) result reader.new.rest.now (node_ids_at reader.old.rest.now) }
{
    let count = reader.number64()?;
    let ids = walk_node_rows(alloc, reader, count)?;
    if !ascend(ids.as_slice()) {
        return Err(Unread::Unfit);
    }
    Ok(Ordered::from_vec(ids))
}

// The edges, whose ends are among the nodes.
#[tactic(auto, using(crate::proofs::Lengths::count_fits), unfolding(crate::specs::Walking::edge_ids_in, crate::specs::Reading::counted_at, crate::specs::Reading::tested_at))]
fn walk_edges(reader: &mut Reader<'_>, nodes: &Ordered<NodeId>) -> Result<(), Unfit>
    ensures { Passes result reader.new.rest.now (end_of (edge_ids_in nodes.now reader.old.rest.now)) }
{
    let count = reader.number64()?;
    walk_edge_rows(reader, nodes, count)
}

/// The kind of a snapshot, from the bytes behind the first. Its nodes' numbers take memory, and nothing else does.
pub(crate) fn walk_snapshot(alloc: Global, rows: &[u8]) -> Result<PayloadKind, Unread>
    ensures { Gives result (kind_behind snapshot_at rows.now) }
{
    let mut reader = Reader::new(rows);
    let commits = reader.number64()?;
    let nodes = walk_nodes(alloc, &mut reader)?;
    walk_edges(&mut reader, &nodes)?;
    if reader.is_empty() {
        Ok(PayloadKind::Snapshot { commits })
    } else {
        Err(Unread::Unfit)
    }
}
