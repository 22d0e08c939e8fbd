//! The lines of elements: each one operation, which is copied out of the graph for its line alone.

ghost use Rattle.std.specs.Prelude.{◌≡◌, [], IfOk};
ghost use Rattle.pgs_graph.specs.declared.operation.Op.TheVariants.{AddNode, AddEdge};
ghost use Rattle.pgs_dump.specs.Lines.{op_line, set_op};

use pgs_answer::txn_line;
use pgs_base::{Bytes, Copyable, EdgeId, Elem, Labels, List, Memory, Name, NodeId, Props, Value};
use pgs_graph::{EdgeRef, Op, Txn};
use std::alloc::Global;

// The line of an operation.
fn op_line(alloc: Global, op: Op) -> Result<Bytes, Memory>
    ensures { IfOk result (λ line. line ≡ op_line op) }
{
    let mut ops = Vec::with_capacity(alloc, 1)?;
    ops.push(op)?;
    let ops = List::from_vec(ops);
    txn_line(alloc, &Txn { ops })
}

// The operation that sets a property of an element.
fn set_op(alloc: Global, elem: Elem, property: &(Name, Value)) -> Result<Op, Memory>
    ensures { IfOk result (λ op. op ≡ set_op elem property.now) }
{
    let key = property.0.copy(alloc)?;
    let value = property.1.copy(alloc)?;
    match elem {
        Elem::Node(id) => Ok(Op::SetNode { id, key, value }),
        Elem::Edge(id) => Ok(Op::SetEdge { id, key, value }),
    }
}

/// The line that adds a node with its labels and no properties.
pub(crate) fn add_node_line(alloc: Global, id: NodeId, labels: &Labels) -> Result<Bytes, Memory>
    ensures { IfOk result (λ line. line ≡ op_line (AddNode id labels.now [])) }
{
    let labels = labels.copy(alloc)?;
    let props = Props::new(alloc);
    op_line(alloc, Op::AddNode { id, labels, props })
}

/// The line that adds an edge with its ends, its labels and no properties.
pub(crate) fn add_edge_line(alloc: Global, id: EdgeId, edge: &EdgeRef<'_>) -> Result<Bytes, Memory>
    ensures { IfOk result (λ line. line ≡ op_line (AddEdge id edge.now.source edge.now.target edge.now.labels.now [])) }
{
    let labels = edge.labels.copy(alloc)?;
    let props = Props::new(alloc);
    op_line(
        alloc,
        Op::AddEdge {
            id,
            source: edge.source,
            target: edge.target,
            labels,
            props,
        },
    )
}

/// The line that sets a property of an element.
pub(crate) fn set_line(alloc: Global, elem: Elem, property: &(Name, Value)) -> Result<Bytes, Memory>
    ensures { IfOk result (λ line. line ≡ op_line (set_op elem property.now)) }
{
    let op = set_op(alloc, elem, property)?;
    op_line(alloc, op)
}
