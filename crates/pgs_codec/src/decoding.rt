ghost use Rattle.std.specs.Prelude.{◌≡◌, ◌^◌, IfOk, IfSome, IfNone, IsTrue, if◌then◌else◌, Some, None};
ghost use Rattle.std.specs.Int.{w64};
ghost use Rattle.std.specs.List.{list_all};
ghost use Rattle.pgs_base.specs.Graph.{has_ends, is_graph};
ghost use Rattle.pgs_codec.specs.declared.command.Command.{Command};
ghost use Rattle.pgs_codec.specs.declared.command.Command.TheVariants.{Snapshot};
ghost use Rattle.pgs_codec.specs.Encodable.{is_sized, snapshot_graph, IsPayload};
ghost use Rattle.pgs_codec.specs.Reading.{counted_at, txn_at, snapshot_parts_at, snapshot_at, schema_at, command_kinds, kind_at, decoded};
ghost use Rattle.pgs_codec.specs.Unread.{Reads, Gives};

use crate::Command;
use crate::field::{Field, read_all};
use crate::reader::Reader;
use crate::unread::Unread;
use pgs_base::{EdgeId, EdgeRow, List, Memory, NodeId, NodeRow, Rows, edges_facts, nodes_facts};
use pgs_base_keyed::keys_ascend;
use pgs_graph::Txn;
use std::alloc::Global;

type Parts = (u64, Vec<(NodeId, NodeRow)>, Vec<(EdgeId, EdgeRow)>);

#[tactic(auto, unfolding(crate::specs::Reading::schema_at))]
fn read_schema(alloc: Global, reader: &mut Reader<'_>) -> Result<Command, Unread>
    ensures { Reads (λ command. command) result reader.new.rest.now (schema_at reader.old.rest.now) }
{
    let text = List::from_slice(alloc, reader.rest())?;
    Ok(Command::Schema(text))
}

#[tactic(auto, using(crate::proofs::Lengths::count_fits), unfolding(crate::specs::Reading::txn_at, crate::specs::Reading::named_at, crate::specs::Reading::counted_at))]
fn read_txn(alloc: Global, reader: &mut Reader<'_>) -> Result<Command, Unread>
    ensures { Reads (λ command. command) result reader.new.rest.now (txn_at reader.old.rest.now) }
{
    let count = reader.number32()?;
    let ops = read_all(alloc, reader, count as usize)?;
    Ok(Command::Txn(Txn {
        ops: List::from_vec(ops),
    }))
}

// A count of eight bytes, and so many rows.
#[tactic(auto, using(crate::proofs::Lengths::count_fits), unfolding(crate::specs::Reading::counted_at))]
fn read_rows<F: Field>(alloc: Global, reader: &mut Reader<'_>) -> Result<Vec<F>, Unread>
    ensures { Reads (λ rows. rows.items) result reader.new.rest.now (counted_at w64 (2 ^ 64) F.field_at reader.old.rest.now) }
{
    let count = reader.number64()?;
    read_all(alloc, reader, count as usize)
}

// Whether both ends of each edge are among the nodes.
fn have_ends(nodes: &Rows<NodeId, NodeRow>, edges: &[(EdgeId, EdgeRow)]) -> bool
    ensures { result ≡ list_all (λ edge. has_ends (snapshot_graph nodes.now edges.now) edge.1) edges.now }
{
    edges.iter().all(|edge| nodes.contains(&edge.1.source) && nodes.contains(&edge.1.target))
}

// The snapshot of rows that are a graph.
fn snapshot_of(
    commits: u64,
    nodes: Vec<(NodeId, NodeRow)>,
    edges: Vec<(EdgeId, EdgeRow)>,
) -> Result<Command, Unread>
    ensures { Gives result (if is_graph (snapshot_graph nodes.items edges.items) then Some (Snapshot commits nodes.items edges.items) else None) }
{
    if !keys_ascend(nodes.as_slice()) || !keys_ascend(edges.as_slice()) {
        return Err(Unread::Unfit);
    }
    nodes_facts(nodes.as_slice());
    edges_facts(edges.as_slice());
    let nodes = Rows::from_vec(nodes);
    if !have_ends(&nodes, edges.as_slice()) {
        return Err(Unread::Unfit);
    }
    Ok(Command::Snapshot {
        commits,
        nodes: List::from_vec(nodes.into_vec()),
        edges: List::from_vec(edges),
    })
}

// The commits, the nodes and the edges.
#[tactic(auto, unfolding(crate::specs::Reading::snapshot_parts_at, crate::specs::Reading::pair_at, crate::specs::Reading::node_at, crate::specs::Reading::edge_at))]
fn read_parts(alloc: Global, reader: &mut Reader<'_>) -> Result<Parts, Unread>
    ensures { Reads (λ parts. (parts.0, (parts.1.items, parts.2.items))) result reader.new.rest.now (snapshot_parts_at reader.old.rest.now) }
{
    let commits = reader.number64()?;
    let nodes = read_rows(alloc, reader)?;
    let edges = read_rows(alloc, reader)?;
    Ok((commits, nodes, edges))
}

#[tactic(auto, unfolding(crate::specs::Reading::snapshot_at, crate::specs::Reading::named_at, crate::specs::Reading::tested_at))]
fn read_snapshot(alloc: Global, reader: &mut Reader<'_>) -> Result<Command, Unread>
    ensures { Reads (λ command. command) result reader.new.rest.now (snapshot_at reader.old.rest.now) }
{
    let (commits, nodes, edges) = read_parts(alloc, reader)?;
    snapshot_of(commits, nodes, edges)
}

#[tactic(auto, unfolding(crate::specs::Reading::byte_at))]
fn read_command(alloc: Global, reader: &mut Reader<'_>) -> Result<Command, Unread>
    ensures { Reads (λ command. command) result reader.new.rest.now (kind_at command_kinds reader.old.rest.now) }
{
    match reader.byte()? {
        1 => read_schema(alloc, reader),
        2 => read_snapshot(alloc, reader),
        3 => read_txn(alloc, reader),
        _ => Err(Unread::Unfit),
    }
}

#[tactic(auto, unfolding(crate::specs::Reading::decoded))]
fn read_whole(alloc: Global, payload: &[u8]) -> Result<Command, Unread>
    ensures { Gives result (decoded payload.now) }
{
    let mut reader = Reader::new(payload);
    let command = read_command(alloc, &mut reader)?;
    if reader.is_empty() {
        Ok(command)
    } else {
        Err(Unread::Unfit)
    }
}

/// The command whose payload the bytes are. `None` exactly where they are no command's payload; `Memory` where there was none left.
/// A count or a length takes no memory that the bytes don't hold.
pub fn decode(alloc: Global, payload: &[u8]) -> Result<Option<Command>, Memory>
    ensures found { IfOk result (λ found. IfSome found (λ command. IsPayload command payload.now)) }
    ensures none { IfOk result (λ found. IfNone found ((command : Command) → IsPayload command payload.now → ⊥)) }
    ensures value { IfOk result (λ found. found ≡ decoded payload.now) }
    // So it can be encoded again.
    ensures sized { IfOk result (λ found. IfSome found (λ command. IsTrue (is_sized command))) }
{
    match read_whole(alloc, payload) {
        Ok(command) => Ok(Some(command)),
        Err(Unread::Unfit) => Ok(None),
        Err(Unread::Memory) => Err(Memory),
    }
}
