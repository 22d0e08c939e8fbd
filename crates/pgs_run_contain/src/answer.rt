//! The line of the answer to a type.

ghost use Rattle.std.specs.Prelude.{◌≡◌, IfOk};
ghost use Rattle.pgs_contain.specs.declared.outside.Outside.TheVariants.{Node, Edge};
ghost use Rattle.pgs_graph.specs.declared.operation.Op.TheVariants.{AddNode, AddEdge};
ghost use Rattle.pgs_run_contain.specs.Answers.{txn_of, answer_line};

use pgs_answer::{contained_line, outside_line};
use pgs_base::{Bytes, EdgeId, List, Memory, Name, NodeId};
use pgs_contain::{Outside, OwnedPair};
use pgs_graph::{Op, Txn};
use std::alloc::Global;

fn add_node(id: NodeId, own: OwnedPair) -> Op
    ensures { result ≡ AddNode id own.labels own.props }
{
    Op::AddNode {
        id,
        labels: own.labels,
        props: own.props,
    }
}

fn add_edge(own: OwnedPair) -> Op
    ensures { result ≡ AddEdge (record { 0 = 1 }) (record { 0 = 1 }) (record { 0 = 2 }) own.labels own.props }
{
    Op::AddEdge {
        id: EdgeId(1),
        source: NodeId(1),
        target: NodeId(2),
        labels: own.labels,
        props: own.props,
    }
}

// The transaction that adds a node.
fn node_txn(alloc: Global, own: OwnedPair) -> Result<Txn, Memory>
    ensures { IfOk result (λ txn. txn ≡ txn_of (Node own)) }
{
    let mut ops = Vec::with_capacity(alloc, 1)?;
    ops.push(add_node(NodeId(1), own))?;
    Ok(Txn {
        ops: List::from_vec(ops),
    })
}

// The transaction that adds two nodes and an edge from the first to the second.
fn edge_txn(
    alloc: Global,
    source: OwnedPair,
    middle: OwnedPair,
    target: OwnedPair,
) -> Result<Txn, Memory>
    ensures { IfOk result (λ txn. txn ≡ txn_of (Edge source middle target)) }
{
    let mut ops = Vec::with_capacity(alloc, 3)?;
    ops.push(add_node(NodeId(1), source))?;
    ops.push(add_node(NodeId(2), target))?;
    ops.push(add_edge(middle))?;
    Ok(Txn {
        ops: List::from_vec(ops),
    })
}

/// The transaction that adds a pair as node 1, or a triple of pairs as nodes 1 and 2 and an edge from the first to the second. `Memory`
/// where there was none left.
pub fn txn_of(alloc: Global, outside: Outside) -> Result<Txn, Memory>
    ensures { IfOk result (λ txn. txn ≡ txn_of outside) }
{
    match outside {
        Outside::Node(own) => node_txn(alloc, own),
        Outside::Edge {
            source,
            middle,
            target,
        } => edge_txn(alloc, source, middle, target),
    }
}

/// The line of the answer to a type.
pub(crate) fn answer_line(
    alloc: Global,
    name: &Name,
    answer: Option<Outside>,
) -> Result<Bytes, Memory>
    ensures { IfOk result (λ line. line ≡ answer_line name.now answer) }
{
    match answer {
        Some(outside) => {
            let txn = txn_of(alloc, outside)?;
            outside_line(alloc, name, &txn)
        }
        None => contained_line(alloc, name),
    }
}
