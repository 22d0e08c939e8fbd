ghost use Rattle.std.specs.Prelude.{◌≡◌, ◌++◌, ◌<◌, ◌^◌, ◌&&◌, Some, length, min, nat_lt, IfOk, OnOk, IsTrue};
ghost use Rattle.std.specs.List.{list_all};
ghost use Rattle.pgs_codec.specs.declared.command.Command.TheVariants.{Txn as Transaction};
ghost use Rattle.pgs_codec.specs.Encodable.{adds_small, are_parts, is_encodable, is_op, is_sized, is_small_edge, is_small_node, IsPayload};
ghost use Rattle.pgs_codec.specs.Payload.{ops_field, rows_field, snapshot_field, payload_of};
ghost use Rattle.pgs_codec.specs.Reading.{decoded};

use crate::Command;
use crate::field::{Field, size_of_all, write_all};
use pgs_base::{Bytes, EdgeId, EdgeRow, List, Memory, NodeId, NodeRow};
use pgs_graph::{Op, Txn};
use std::alloc::Global;

fn write_ops(ops: &[Op], out: &mut Vec<u8>) -> Result<(), Memory>
    requires count { length ops.now < 2 ^ 32 }
    requires small { IsTrue (list_all adds_small ops.now) }
    ensures bytes { OnOk result (out.new.items ≡ out.old.items ++ ops_field ops.now) }
    ensures fit { OnOk result (IsTrue (list_all is_op ops.now)) }
{
    out.extend_from_slice(&(ops.len() as u32).to_be_bytes())?;
    write_all(ops, out)
}

// A count of eight bytes, and the rows.
fn write_rows<F: Field>(rows: &[F], out: &mut Vec<u8>) -> Result<(), Memory>
    requires { IsTrue (list_all F.is_small rows.now) }
    ensures bytes { OnOk result (out.new.items ≡ out.old.items ++ rows_field F.field rows.now) }
    ensures fit { OnOk result (IsTrue (nat_lt (length rows.now) (2 ^ 64) && list_all F.is_field rows.now)) }
{
    out.extend_from_slice(&(rows.len() as u64).to_be_bytes())?;
    write_all(rows, out)
}

fn write_snapshot(
    commits: u64,
    nodes: &[(NodeId, NodeRow)],
    edges: &[(EdgeId, EdgeRow)],
    out: &mut Vec<u8>,
) -> Result<(), Memory>
    requires nodes_small { IsTrue (list_all (λ node. is_small_node node.1) nodes.now) }
    requires edges_small { IsTrue (list_all (λ edge. is_small_edge edge.1) edges.now) }
    ensures bytes { OnOk result (out.new.items ≡ out.old.items ++ snapshot_field commits nodes.now edges.now) }
    ensures fit { OnOk result (IsTrue (are_parts commits nodes.now edges.now)) }
{
    out.extend_from_slice(&commits.to_be_bytes())?;
    write_rows(nodes, out)?;
    write_rows(edges, out)?;
    Ok(())
}

// The byte of a transaction, and its operations.
fn write_txn(txn: &Txn, out: &mut Vec<u8>) -> Result<(), Memory>
    requires { IsTrue (is_sized (Transaction txn.now)) }
    ensures bytes { OnOk result (out.new.items ≡ out.old.items ++ payload_of (Transaction txn.now)) }
    ensures fit { OnOk result (IsTrue (is_encodable (Transaction txn.now))) }
{
    out.push(3)?;
    write_ops(txn.ops.as_slice(), out)?;
    Ok(())
}

// How many bytes the payload of a transaction has, as far as a `usize` counts.
#[tactic(auto, unfolding(crate::specs::Payload::payload_of))]
fn size_of_txn(txn: &Txn) -> usize
    ensures { result ≡ min (length (payload_of (Transaction txn.now))) usize.MAX }
{
    size_of_all(txn.ops.as_slice()).saturating_add(5)
}

// The same of a command.
#[tactic(auto, unfolding(crate::specs::Payload::payload_of))]
fn size_of_payload(command: &Command) -> usize
    ensures { result ≡ min (length (payload_of command.now)) usize.MAX }
{
    match command {
        Command::Schema(text) => text.len().saturating_add(1),
        Command::Snapshot { nodes, edges, .. } => size_of_all(nodes.as_slice())
            .saturating_add(size_of_all(edges.as_slice()))
            .saturating_add(25),
        Command::Txn(txn) => size_of_txn(txn),
    }
}

#[tactic(auto, unfolding(crate::specs::Payload::payload_of, crate::specs::Encodable::is_encodable))]
fn write_command(command: &Command, out: &mut Vec<u8>) -> Result<(), Memory>
    requires { IsTrue (is_sized command.now) }
    ensures bytes { OnOk result (out.new.items ≡ out.old.items ++ payload_of command.now) }
    ensures fit { OnOk result (IsTrue (is_encodable command.now)) }
{
    match command {
        Command::Schema(text) => {
            out.push(1)?;
            out.extend_from_slice(text.as_slice())?;
        }
        Command::Snapshot {
            commits,
            nodes,
            edges,
        } => {
            out.push(2)?;
            write_snapshot(*commits, nodes.as_slice(), edges.as_slice(), out)?;
        }
        Command::Txn(txn) => write_txn(txn, out)?,
    }
    Ok(())
}

/// The payload of a command. It asks that each row has at most 64 labels and 256 properties, that a transaction has fewer than
/// 2^32 operations, and that the rows of a snapshot are a graph: both lists ascend strictly by number, and both ends of each edge
/// are among the nodes. Memory is taken once, for as many bytes as the payload has; `Memory` where there was none left.
pub fn encode(alloc: Global, command: &Command) -> Result<Bytes, Memory>
    requires { IsTrue (is_sized command.now) }
    ensures payload { IfOk result (λ bytes. IsPayload command.now bytes) }
    ensures decoded { IfOk result (λ bytes. decoded bytes ≡ Some command.now) }
{
    let mut out = Vec::with_capacity(alloc, size_of_payload(command))?;
    write_command(command, &mut out)?;
    Ok(List::from_vec(out))
}

/// The payload of a transaction, as [`encode`] gives it for the transaction as a command.
pub(crate) fn encode_txn(alloc: Global, txn: &Txn) -> Result<Bytes, Memory>
    requires { IsTrue (is_sized (Transaction txn.now)) }
    ensures payload { IfOk result (λ bytes. IsPayload (Transaction txn.now) bytes) }
    ensures decoded { IfOk result (λ bytes. decoded bytes ≡ Some (Transaction txn.now)) }
{
    let mut out = Vec::with_capacity(alloc, size_of_txn(txn))?;
    write_txn(txn, &mut out)?;
    Ok(List::from_vec(out))
}
