ghost use Rattle.std.specs.Prelude.{◌≡◌, IfOk, true};
ghost use Rattle.pgs_graph.specs.Operations.{is_well_formed_op, is_well_formed_txn};
ghost use Rattle.pgs_graph.specs.declared.operation.Op.TheVariants.{AddNode, AddEdge, SetNode, UnsetNode, LabelNode, UnlabelNode, SetEdge, UnsetEdge, LabelEdge, UnlabelEdge};

use pgs_base::{Copyable, EdgeId, Labels, List, Memory, Name, NodeId, Props, Value, pair_facts};
use std::alloc::Global;

/// One change of a graph.
#[derive(Drop)]
pub enum Op {
    AddNode {
        id: NodeId,
        labels: Labels,
        props: Props,
    },
    AddEdge {
        id: EdgeId,
        source: NodeId,
        target: NodeId,
        labels: Labels,
        props: Props,
    },
    /// Takes out a node without edges.
    RemoveNode {
        id: NodeId,
    },
    /// Takes out a node with all edges at it.
    DetachNode {
        id: NodeId,
    },
    RemoveEdge {
        id: EdgeId,
    },
    SetNode {
        id: NodeId,
        key: Name,
        value: Value,
    },
    UnsetNode {
        id: NodeId,
        key: Name,
    },
    LabelNode {
        id: NodeId,
        label: Name,
    },
    UnlabelNode {
        id: NodeId,
        label: Name,
    },
    SetEdge {
        id: EdgeId,
        key: Name,
        value: Value,
    },
    UnsetEdge {
        id: EdgeId,
        key: Name,
    },
    LabelEdge {
        id: EdgeId,
        label: Name,
    },
    UnlabelEdge {
        id: EdgeId,
        label: Name,
    },
}

/// Operations that are done together or not at all. Only the graph after all of them is judged.
pub struct Txn {
    pub ops: List<Op>,
}

// Dropped by one function of this crate, so that those above need not prove anew how a transaction is taken apart.
impl Drop for Txn {
    fn drop(self) {
        let Txn { ops: _ } = self;
    }
}

fn add_node(alloc: Global, id: NodeId, labels: &Labels, props: &Props) -> Result<Op, Memory>
    ensures { IfOk result (λ op. op ≡ AddNode id labels.now props.now) }
{
    let labels = labels.copy(alloc)?;
    let props = props.copy(alloc)?;
    Ok(Op::AddNode { id, labels, props })
}

fn add_edge(
    alloc: Global,
    id: EdgeId,
    ends: (NodeId, NodeId),
    labels: &Labels,
    props: &Props,
) -> Result<Op, Memory>
    ensures { IfOk result (λ op. op ≡ AddEdge id ends.0 ends.1 labels.now props.now) }
{
    let (source, target) = ends;
    let labels = labels.copy(alloc)?;
    let props = props.copy(alloc)?;
    Ok(Op::AddEdge {
        id,
        source,
        target,
        labels,
        props,
    })
}

fn set_node(alloc: Global, id: NodeId, key: &Name, value: &Value) -> Result<Op, Memory>
    ensures { IfOk result (λ op. op ≡ SetNode id key.now value.now) }
{
    let key = key.copy(alloc)?;
    let value = value.copy(alloc)?;
    Ok(Op::SetNode { id, key, value })
}

fn set_edge(alloc: Global, id: EdgeId, key: &Name, value: &Value) -> Result<Op, Memory>
    ensures { IfOk result (λ op. op ≡ SetEdge id key.now value.now) }
{
    let key = key.copy(alloc)?;
    let value = value.copy(alloc)?;
    Ok(Op::SetEdge { id, key, value })
}

fn unset_node(alloc: Global, id: NodeId, key: &Name) -> Result<Op, Memory>
    ensures { IfOk result (λ op. op ≡ UnsetNode id key.now) }
{
    let key = key.copy(alloc)?;
    Ok(Op::UnsetNode { id, key })
}

fn unset_edge(alloc: Global, id: EdgeId, key: &Name) -> Result<Op, Memory>
    ensures { IfOk result (λ op. op ≡ UnsetEdge id key.now) }
{
    let key = key.copy(alloc)?;
    Ok(Op::UnsetEdge { id, key })
}

fn label_node(alloc: Global, id: NodeId, label: &Name) -> Result<Op, Memory>
    ensures { IfOk result (λ op. op ≡ LabelNode id label.now) }
{
    let label = label.copy(alloc)?;
    Ok(Op::LabelNode { id, label })
}

fn unlabel_node(alloc: Global, id: NodeId, label: &Name) -> Result<Op, Memory>
    ensures { IfOk result (λ op. op ≡ UnlabelNode id label.now) }
{
    let label = label.copy(alloc)?;
    Ok(Op::UnlabelNode { id, label })
}

fn label_edge(alloc: Global, id: EdgeId, label: &Name) -> Result<Op, Memory>
    ensures { IfOk result (λ op. op ≡ LabelEdge id label.now) }
{
    let label = label.copy(alloc)?;
    Ok(Op::LabelEdge { id, label })
}

fn unlabel_edge(alloc: Global, id: EdgeId, label: &Name) -> Result<Op, Memory>
    ensures { IfOk result (λ op. op ≡ UnlabelEdge id label.now) }
{
    let label = label.copy(alloc)?;
    Ok(Op::UnlabelEdge { id, label })
}

impl Op {
    /// What every operation meets: it is well formed. Nothing is done.
    pub fn facts(&self)
        ensures { is_well_formed_op self.now ≡ true }
    {
        match self {
            Op::AddNode { id, labels, props } => {
                id.facts();
                pair_facts(labels, props);
            }
            Op::AddEdge {
                id,
                source,
                target,
                labels,
                props,
            } => {
                id.facts();
                source.facts();
                target.facts();
                pair_facts(labels, props);
            }
            Op::RemoveNode { id } | Op::DetachNode { id } => id.facts(),
            Op::RemoveEdge { id } => id.facts(),
            Op::SetNode { id, key, value } => {
                id.facts();
                let _name = key.bytes();
                value.facts();
            }
            Op::SetEdge { id, key, value } => {
                id.facts();
                let _name = key.bytes();
                value.facts();
            }
            Op::UnsetNode { id, key: name }
            | Op::LabelNode { id, label: name }
            | Op::UnlabelNode { id, label: name } => {
                id.facts();
                let _name = name.bytes();
            }
            Op::UnsetEdge { id, key: name }
            | Op::LabelEdge { id, label: name }
            | Op::UnlabelEdge { id, label: name } => {
                id.facts();
                let _name = name.bytes();
            }
        }
    }
}

impl Txn {
    /// What every transaction meets: it is well formed. Nothing is done.
    pub fn facts(&self)
        ensures { is_well_formed_txn self.now ≡ true }
    {
        for op in self.ops.as_slice() {
            op.facts();
        }
    }
}

impl Copyable for Op {
    fn copy(&self, alloc: Global) -> Result<Op, Memory> {
        match self {
            Op::AddNode { id, labels, props } => add_node(alloc, *id, labels, props),
            Op::AddEdge {
                id,
                source,
                target,
                labels,
                props,
            } => add_edge(alloc, *id, (*source, *target), labels, props),
            Op::RemoveNode { id } => Ok(Op::RemoveNode { id: *id }),
            Op::DetachNode { id } => Ok(Op::DetachNode { id: *id }),
            Op::RemoveEdge { id } => Ok(Op::RemoveEdge { id: *id }),
            Op::SetNode { id, key, value } => set_node(alloc, *id, key, value),
            Op::UnsetNode { id, key } => unset_node(alloc, *id, key),
            Op::LabelNode { id, label } => label_node(alloc, *id, label),
            Op::UnlabelNode { id, label } => unlabel_node(alloc, *id, label),
            Op::SetEdge { id, key, value } => set_edge(alloc, *id, key, value),
            Op::UnsetEdge { id, key } => unset_edge(alloc, *id, key),
            Op::LabelEdge { id, label } => label_edge(alloc, *id, label),
            Op::UnlabelEdge { id, label } => unlabel_edge(alloc, *id, label),
        }
    }
}

impl Copyable for Txn {
    fn copy(&self, alloc: Global) -> Result<Txn, Memory> {
        let ops = self.ops.copy(alloc)?;
        Ok(Txn { ops })
    }
}
