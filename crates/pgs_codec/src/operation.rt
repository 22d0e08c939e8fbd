ghost use Rattle.std.specs.Prelude.{◌≡◌, ◌∷◌, ◌++◌, ◌&&◌, ℕ, IsTrue, OnOk};
ghost use Rattle.pgs_graph.specs.declared.operation.Op.TheVariants.{AddEdge};
ghost use Rattle.pgs_codec.specs.Encodable.{is_op, is_small, adds_small};
ghost use Rattle.pgs_codec.specs.Payload.{op_field};
ghost use Rattle.pgs_codec.specs.Reading.{op_at, op_kinds, kind_in};
ghost use Rattle.pgs_codec.specs.Unread.{Reads};

use crate::field::Field;
use crate::reader::Reader;
use crate::unread::Unread;
use pgs_base::{EdgeId, EdgeRow, Labels, Memory, Name, NodeId, NodeRow, Props, Value};
use pgs_graph::Op;
use std::alloc::Global;

#[tactic(auto, unfolding(crate::specs::Reading::named_at, crate::specs::Reading::node_at))]
fn read_add_node(alloc: Global, reader: &mut Reader<'_>) -> Result<Op, Unread>
    ensures { Reads (λ op. op) result reader.new.rest.now (kind_in op_kinds 1 reader.old.rest.now) }
{
    let (id, row) = <(NodeId, NodeRow)>::read(alloc, reader)?;
    Ok(Op::AddNode {
        id,
        labels: row.labels,
        props: row.props,
    })
}

#[tactic(auto, unfolding(crate::specs::Reading::named_at, crate::specs::Reading::edge_at))]
fn read_add_edge(alloc: Global, reader: &mut Reader<'_>) -> Result<Op, Unread>
    ensures { Reads (λ op. op) result reader.new.rest.now (kind_in op_kinds 2 reader.old.rest.now) }
{
    let (id, row) = <(EdgeId, EdgeRow)>::read(alloc, reader)?;
    Ok(Op::AddEdge {
        id,
        source: row.source,
        target: row.target,
        labels: row.labels,
        props: row.props,
    })
}

#[tactic(auto, unfolding(crate::specs::Reading::named_at, crate::specs::Reading::property_at))]
fn read_set_node(alloc: Global, reader: &mut Reader<'_>) -> Result<Op, Unread>
    ensures { Reads (λ op. op) result reader.new.rest.now (kind_in op_kinds 6 reader.old.rest.now) }
{
    let (id, (key, value)) = <(NodeId, (Name, Value))>::read(alloc, reader)?;
    Ok(Op::SetNode { id, key, value })
}

#[tactic(auto, unfolding(crate::specs::Reading::named_at, crate::specs::Reading::property_at))]
fn read_set_edge(alloc: Global, reader: &mut Reader<'_>) -> Result<Op, Unread>
    ensures { Reads (λ op. op) result reader.new.rest.now (kind_in op_kinds 10 reader.old.rest.now) }
{
    let (id, (key, value)) = <(EdgeId, (Name, Value))>::read(alloc, reader)?;
    Ok(Op::SetEdge { id, key, value })
}

#[tactic(auto, unfolding(crate::specs::Reading::named_at))]
fn read_remove_node(alloc: Global, reader: &mut Reader<'_>) -> Result<Op, Unread>
    ensures { Reads (λ op. op) result reader.new.rest.now (kind_in op_kinds 3 reader.old.rest.now) }
{
    let id = NodeId::read(alloc, reader)?;
    Ok(Op::RemoveNode { id })
}

#[tactic(auto, unfolding(crate::specs::Reading::named_at))]
fn read_detach_node(alloc: Global, reader: &mut Reader<'_>) -> Result<Op, Unread>
    ensures { Reads (λ op. op) result reader.new.rest.now (kind_in op_kinds 4 reader.old.rest.now) }
{
    let id = NodeId::read(alloc, reader)?;
    Ok(Op::DetachNode { id })
}

#[tactic(auto, unfolding(crate::specs::Reading::named_at))]
fn read_remove_edge(alloc: Global, reader: &mut Reader<'_>) -> Result<Op, Unread>
    ensures { Reads (λ op. op) result reader.new.rest.now (kind_in op_kinds 5 reader.old.rest.now) }
{
    let id = EdgeId::read(alloc, reader)?;
    Ok(Op::RemoveEdge { id })
}

#[tactic(auto, unfolding(crate::specs::Reading::named_at))]
fn read_unset_node(alloc: Global, reader: &mut Reader<'_>) -> Result<Op, Unread>
    ensures { Reads (λ op. op) result reader.new.rest.now (kind_in op_kinds 7 reader.old.rest.now) }
{
    let (id, key) = <(NodeId, Name)>::read(alloc, reader)?;
    Ok(Op::UnsetNode { id, key })
}

#[tactic(auto, unfolding(crate::specs::Reading::named_at))]
fn read_label_node(alloc: Global, reader: &mut Reader<'_>) -> Result<Op, Unread>
    ensures { Reads (λ op. op) result reader.new.rest.now (kind_in op_kinds 8 reader.old.rest.now) }
{
    let (id, label) = <(NodeId, Name)>::read(alloc, reader)?;
    Ok(Op::LabelNode { id, label })
}

#[tactic(auto, unfolding(crate::specs::Reading::named_at))]
fn read_unlabel_node(alloc: Global, reader: &mut Reader<'_>) -> Result<Op, Unread>
    ensures { Reads (λ op. op) result reader.new.rest.now (kind_in op_kinds 9 reader.old.rest.now) }
{
    let (id, label) = <(NodeId, Name)>::read(alloc, reader)?;
    Ok(Op::UnlabelNode { id, label })
}

#[tactic(auto, unfolding(crate::specs::Reading::named_at))]
fn read_unset_edge(alloc: Global, reader: &mut Reader<'_>) -> Result<Op, Unread>
    ensures { Reads (λ op. op) result reader.new.rest.now (kind_in op_kinds 11 reader.old.rest.now) }
{
    let (id, key) = <(EdgeId, Name)>::read(alloc, reader)?;
    Ok(Op::UnsetEdge { id, key })
}

#[tactic(auto, unfolding(crate::specs::Reading::named_at))]
fn read_label_edge(alloc: Global, reader: &mut Reader<'_>) -> Result<Op, Unread>
    ensures { Reads (λ op. op) result reader.new.rest.now (kind_in op_kinds 12 reader.old.rest.now) }
{
    let (id, label) = <(EdgeId, Name)>::read(alloc, reader)?;
    Ok(Op::LabelEdge { id, label })
}

#[tactic(auto, unfolding(crate::specs::Reading::named_at))]
fn read_unlabel_edge(alloc: Global, reader: &mut Reader<'_>) -> Result<Op, Unread>
    ensures { Reads (λ op. op) result reader.new.rest.now (kind_in op_kinds 13 reader.old.rest.now) }
{
    let (id, label) = <(EdgeId, Name)>::read(alloc, reader)?;
    Ok(Op::UnlabelEdge { id, label })
}

// A byte for the kind, and one field.
fn write_one<A: Field>(kind: u8, first: &A, out: &mut Vec<u8>) -> Result<(), Memory>
    requires { IsTrue (A.is_small first.now) }
    ensures bytes { OnOk result (out.new.items ≡ out.old.items ++ kind ∷ A.field first.now) }
    ensures fit { OnOk result (IsTrue (A.is_field first.now)) }
{
    out.push(kind)?;
    first.write(out)
}

// A byte for the kind, and two fields.
fn write_two<A: Field, B: Field>(
    kind: u8,
    first: &A,
    second: &B,
    out: &mut Vec<u8>,
) -> Result<(), Memory>
    requires { IsTrue (A.is_small first.now && B.is_small second.now) }
    ensures bytes { OnOk result (out.new.items ≡ out.old.items ++ kind ∷ (A.field first.now ++ B.field second.now)) }
    ensures fit { OnOk result (IsTrue (A.is_field first.now && B.is_field second.now)) }
{
    write_one(kind, first, out)?;
    second.write(out)
}

// A byte for the kind, and three fields.
fn write_three<A: Field, B: Field, C: Field>(
    kind: u8,
    first: &A,
    second: &B,
    third: &C,
    out: &mut Vec<u8>,
) -> Result<(), Memory>
    requires { IsTrue (A.is_small first.now && (B.is_small second.now && C.is_small third.now)) }
    ensures bytes { OnOk result
        (out.new.items ≡ out.old.items ++ kind ∷ (A.field first.now ++ (B.field second.now ++ C.field third.now))) }
    ensures fit { OnOk result (IsTrue (A.is_field first.now && (B.is_field second.now && C.is_field third.now))) }
{
    write_two(kind, first, second, out)?;
    third.write(out)
}

// A byte for the kind, the number of an edge, its ends, its labels and its properties.
fn write_add_edge(
    id: &EdgeId,
    source: &NodeId,
    target: &NodeId,
    labels: &Labels,
    props: &Props,
    out: &mut Vec<u8>,
) -> Result<(), Memory>
    requires { IsTrue (is_small labels.now props.now) }
    ensures bytes { OnOk result
        (out.new.items ≡ out.old.items ++ op_field (AddEdge id.now source.now target.now labels.now props.now)) }
    ensures fit { OnOk result (IsTrue (is_op (AddEdge id.now source.now target.now labels.now props.now))) }
{
    write_three(2, id, source, target, out)?;
    labels.write(out)?;
    props.write(out)
}

impl Field for Op {
    ghost field = { op_field };

    ghost is_field = { is_op };

    ghost is_small = { adds_small };

    ghost field_at = { op_at };

    fn size(&self) -> usize {
        match self {
            Op::AddNode { labels, props, .. } => {
                labels.size().saturating_add(props.size()).saturating_add(9)
            }
            Op::AddEdge { labels, props, .. } => labels
                .size()
                .saturating_add(props.size())
                .saturating_add(25),
            Op::RemoveNode { .. } | Op::DetachNode { .. } | Op::RemoveEdge { .. } => 9,
            Op::SetNode { key, value, .. } | Op::SetEdge { key, value, .. } => {
                key.size().saturating_add(value.size()).saturating_add(9)
            }
            Op::UnsetNode { key, .. } | Op::UnsetEdge { key, .. } => key.size().saturating_add(9),
            Op::LabelNode { label, .. }
            | Op::UnlabelNode { label, .. }
            | Op::LabelEdge { label, .. }
            | Op::UnlabelEdge { label, .. } => label.size().saturating_add(9),
        }
    }

    #[tactic(auto, unfolding(crate::specs::Reading::op_at, crate::specs::Reading::byte_at))]
    fn read(alloc: Global, reader: &mut Reader<'_>) -> Result<Op, Unread> {
        match reader.byte()? {
            1 => read_add_node(alloc, reader),
            2 => read_add_edge(alloc, reader),
            3 => read_remove_node(alloc, reader),
            4 => read_detach_node(alloc, reader),
            5 => read_remove_edge(alloc, reader),
            6 => read_set_node(alloc, reader),
            7 => read_unset_node(alloc, reader),
            8 => read_label_node(alloc, reader),
            9 => read_unlabel_node(alloc, reader),
            10 => read_set_edge(alloc, reader),
            11 => read_unset_edge(alloc, reader),
            12 => read_label_edge(alloc, reader),
            13 => read_unlabel_edge(alloc, reader),
            _ => Err(Unread::Unfit),
        }
    }

    fn write(&self, out: &mut Vec<u8>) -> Result<(), Memory> {
        match self {
            Op::AddNode { id, labels, props } => write_three(1, id, labels, props, out),
            Op::AddEdge {
                id,
                source,
                target,
                labels,
                props,
            } => write_add_edge(id, source, target, labels, props, out),
            Op::RemoveNode { id } => write_one(3, id, out),
            Op::DetachNode { id } => write_one(4, id, out),
            Op::RemoveEdge { id } => write_one(5, id, out),
            Op::SetNode { id, key, value } => write_three(6, id, key, value, out),
            Op::UnsetNode { id, key } => write_two(7, id, key, out),
            Op::LabelNode { id, label } => write_two(8, id, label, out),
            Op::UnlabelNode { id, label } => write_two(9, id, label, out),
            Op::SetEdge { id, key, value } => write_three(10, id, key, value, out),
            Op::UnsetEdge { id, key } => write_two(11, id, key, out),
            Op::LabelEdge { id, label } => write_two(12, id, label, out),
            Op::UnlabelEdge { id, label } => write_two(13, id, label, out),
        }
    }
}
