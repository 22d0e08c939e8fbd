//! The canonical text of a transaction, written in one pass.

ghost use Rattle.std.specs.Prelude.{◌≡◌, ◌++◌, flat_map, codes, decimal, IfOk, OnOk};
ghost use Rattle.pgs_base.specs.declared.value.Value.TheVariants as values;
ghost use Rattle.pgs_graph.specs.declared.operation.Op.TheVariants.{AddNode, AddEdge, SetNode, SetEdge};
ghost use Rattle.pgs_base_text.specs.Text.{quoted};
ghost use Rattle.pgs_json.specs.Canonical.{value_text, labels_text, props_text, op_text, ops_text, text_of_txn};
ghost use Rattle.pgs_json.specs.Pieces.{further, listed, prop_text, pair_part, named_text, front_text};

use crate::room::txn_room;
use pgs_base::{Bytes, Day, EdgeId, Labels, Memory, Name, NodeId, Props, Value};
use pgs_base_text::TextBuffer;
use pgs_graph::{Op, Txn};
use std::alloc::Global;

fn push_date(text: &mut TextBuffer, day: Day) -> Result<(), Memory>
    ensures { OnOk result (text.new ≡ text.old ++ value_text (values.Date day)) }
{
    let _calendar = day.day();
    text.push(b"{\"date\":\"")?;
    text.push_day(day)?;
    text.push(b"\"}")?;
    Ok(())
}

fn push_value(text: &mut TextBuffer, value: &Value) -> Result<(), Memory>
    ensures { OnOk result (text.new ≡ text.old ++ value_text value.now) }
{
    match value {
        Value::Text(characters) => text.push_quoted(characters.text().as_bytes()),
        Value::Int(number) => text.push_signed(*number),
        Value::Bool(truth) => text.push_truth(*truth),
        Value::Date(day) => push_date(text, *day),
    }
}

fn push_further_labels(text: &mut TextBuffer, labels: &[Name]) -> Result<(), Memory>
    ensures { OnOk result (text.new ≡ text.old ++ flat_map (further quoted) labels.now) }
{
    for label in labels {
        text.push(b",")?;
        text.push_quoted(label.bytes())?;
    }
    Ok(())
}

fn push_each_label(text: &mut TextBuffer, labels: &[Name]) -> Result<(), Memory>
    ensures { OnOk result (text.new ≡ text.old ++ listed quoted labels.now) }
{
    match labels {
        [] => Ok(()),
        [first, rest @ ..] => {
            text.push_quoted(first.bytes())?;
            push_further_labels(text, rest)
        }
    }
}

fn push_labels(text: &mut TextBuffer, labels: &Labels) -> Result<(), Memory>
    ensures { OnOk result (text.new ≡ text.old ++ labels_text labels.now) }
{
    text.push(b"[")?;
    push_each_label(text, labels.as_slice())?;
    text.push(b"]")?;
    Ok(())
}

fn push_prop(text: &mut TextBuffer, name: &Name, value: &Value) -> Result<(), Memory>
    ensures { OnOk result (text.new ≡ text.old ++ prop_text (name.now, value.now)) }
{
    text.push_quoted(name.bytes())?;
    text.push(b":")?;
    push_value(text, value)
}

fn push_further_props(text: &mut TextBuffer, props: &[(Name, Value)]) -> Result<(), Memory>
    ensures { OnOk result (text.new ≡ text.old ++ flat_map (further prop_text) props.now) }
{
    for (name, value) in props {
        text.push(b",")?;
        push_prop(text, name, value)?;
    }
    Ok(())
}

fn push_each_prop(text: &mut TextBuffer, props: &[(Name, Value)]) -> Result<(), Memory>
    ensures { OnOk result (text.new ≡ text.old ++ listed prop_text props.now) }
{
    match props {
        [] => Ok(()),
        [(name, value), rest @ ..] => {
            push_prop(text, name, value)?;
            push_further_props(text, rest)
        }
    }
}

fn push_props(text: &mut TextBuffer, props: &Props) -> Result<(), Memory>
    ensures { OnOk result (text.new ≡ text.old ++ props_text props.now) }
{
    text.push(b"{")?;
    push_each_prop(text, props.as_slice())?;
    text.push(b"}")?;
    Ok(())
}

/// Puts the members `labels` and `props` last, each behind a comma.
fn push_pair(text: &mut TextBuffer, labels: &Labels, props: &Props) -> Result<(), Memory>
    ensures { OnOk result (text.new ≡ text.old ++ pair_part labels.now props.now) }
{
    text.push(b",\"labels\":")?;
    push_labels(text, labels)?;
    text.push(b",\"props\":")?;
    push_props(text, props)
}

/// Puts an id last, behind a front.
fn push_id(text: &mut TextBuffer, front: &[u8], id: u64) -> Result<(), Memory>
    ensures { OnOk result (text.new ≡ text.old ++ (front.now ++ decimal id)) }
{
    text.push(front)?;
    text.push_number(id)
}

/// Puts a name and then an id last, each behind a front.
fn push_named(
    text: &mut TextBuffer,
    front: &[u8],
    name: &Name,
    kind: &[u8],
    id: u64,
) -> Result<(), Memory>
    ensures { OnOk result (text.new ≡ text.old ++ named_text front.now name.now kind.now id) }
{
    text.push(front)?;
    text.push_quoted(name.bytes())?;
    push_id(text, kind, id)
}

fn push_add_node(
    text: &mut TextBuffer,
    id: NodeId,
    labels: &Labels,
    props: &Props,
) -> Result<(), Memory>
    ensures { OnOk result (text.new ≡ text.old ++ op_text (AddNode id labels.now props.now)) }
{
    push_id(text, b"{\"add_node\":", id.0)?;
    push_pair(text, labels, props)?;
    text.push(b"}")?;
    Ok(())
}

fn push_add_edge(
    text: &mut TextBuffer,
    id: EdgeId,
    ends: (NodeId, NodeId),
    labels: &Labels,
    props: &Props,
) -> Result<(), Memory>
    ensures { OnOk result (text.new ≡ text.old ++ op_text (AddEdge id ends.0 ends.1 labels.now props.now)) }
{
    push_id(text, b"{\"add_edge\":", id.0)?;
    push_id(text, b",\"from\":", ends.0.0)?;
    push_pair(text, labels, props)?;
    push_id(text, b",\"to\":", ends.1.0)?;
    text.push(b"}")?;
    Ok(())
}

fn push_set_node(text: &mut TextBuffer, id: NodeId, key: &Name, value: &Value) -> Result<(), Memory>
    ensures { OnOk result (text.new ≡ text.old ++ op_text (SetNode id key.now value.now)) }
{
    push_named(text, b"{\"key\":", key, b",\"set_node\":", id.0)?;
    text.push(b",\"value\":")?;
    push_value(text, value)?;
    text.push(b"}")?;
    Ok(())
}

fn push_set_edge(text: &mut TextBuffer, id: EdgeId, key: &Name, value: &Value) -> Result<(), Memory>
    ensures { OnOk result (text.new ≡ text.old ++ op_text (SetEdge id key.now value.now)) }
{
    push_named(text, b"{\"key\":", key, b",\"set_edge\":", id.0)?;
    text.push(b",\"value\":")?;
    push_value(text, value)?;
    text.push(b"}")?;
    Ok(())
}

/// Puts an object last whose one member is an id.
fn push_only_id(text: &mut TextBuffer, front: &[u8], id: u64) -> Result<(), Memory>
    ensures { OnOk result (text.new ≡ text.old ++ (front.now ++ (decimal id ++ codes "}"))) }
{
    push_id(text, front, id)?;
    text.push(b"}")
}

/// Puts an object last whose two members are a name and an id.
fn push_only_named(
    text: &mut TextBuffer,
    front: &[u8],
    name: &Name,
    kind: &[u8],
    id: u64,
) -> Result<(), Memory>
    ensures { OnOk result (text.new ≡ text.old ++ (named_text front.now name.now kind.now id ++ codes "}")) }
{
    push_named(text, front, name, kind, id)?;
    text.push(b"}")
}

#[tactic(auto, unfolding(pgs_base_text::specs::Text::quoted))]
fn push_op(text: &mut TextBuffer, op: &Op) -> Result<(), Memory>
    ensures { OnOk result (text.new ≡ text.old ++ op_text op.now) }
{
    match op {
        Op::AddNode { id, labels, props } => push_add_node(text, *id, labels, props),
        Op::AddEdge {
            id,
            source,
            target,
            labels,
            props,
        } => push_add_edge(text, *id, (*source, *target), labels, props),
        Op::RemoveNode { id } => push_only_id(text, b"{\"remove_node\":", id.0),
        Op::DetachNode { id } => push_only_id(text, b"{\"detach_node\":", id.0),
        Op::RemoveEdge { id } => push_only_id(text, b"{\"remove_edge\":", id.0),
        Op::SetNode { id, key, value } => push_set_node(text, *id, key, value),
        Op::SetEdge { id, key, value } => push_set_edge(text, *id, key, value),
        Op::UnsetNode { id, key } => {
            push_only_named(text, b"{\"key\":", key, b",\"unset_node\":", id.0)
        }
        Op::UnsetEdge { id, key } => {
            push_only_named(text, b"{\"key\":", key, b",\"unset_edge\":", id.0)
        }
        Op::LabelNode { id, label } => {
            push_only_named(text, b"{\"label\":", label, b",\"label_node\":", id.0)
        }
        Op::LabelEdge { id, label } => {
            push_only_named(text, b"{\"label\":", label, b",\"label_edge\":", id.0)
        }
        Op::UnlabelNode { id, label } => {
            push_only_named(text, b"{\"label\":", label, b",\"unlabel_node\":", id.0)
        }
        Op::UnlabelEdge { id, label } => {
            push_only_named(text, b"{\"label\":", label, b",\"unlabel_edge\":", id.0)
        }
    }
}

fn push_further_ops(text: &mut TextBuffer, ops: &[Op]) -> Result<(), Memory>
    ensures { OnOk result (text.new ≡ text.old ++ flat_map (further op_text) ops.now) }
{
    for op in ops {
        text.push(b",")?;
        push_op(text, op)?;
    }
    Ok(())
}

fn push_each_op(text: &mut TextBuffer, ops: &[Op]) -> Result<(), Memory>
    ensures { OnOk result (text.new ≡ text.old ++ listed op_text ops.now) }
{
    match ops {
        [] => Ok(()),
        [first, rest @ ..] => {
            push_op(text, first)?;
            push_further_ops(text, rest)
        }
    }
}

fn push_ops(text: &mut TextBuffer, txn: &Txn) -> Result<(), Memory>
    ensures { OnOk result (text.new ≡ text.old ++ ops_text txn.now) }
{
    text.push(b"[")?;
    push_each_op(text, txn.ops.as_slice())?;
    text.push(b"]")?;
    Ok(())
}

/// Puts last what stands before the operations.
fn push_front(text: &mut TextBuffer, commit: Option<u64>) -> Result<(), Memory>
    ensures { OnOk result (text.new ≡ text.old ++ front_text commit) }
{
    match commit {
        None => text.push(b"{\"ops\":"),
        Some(commit) => {
            push_id(text, b"{\"commit\":", commit)?;
            text.push(b",\"ops\":")
        }
    }
}

/// Puts the canonical text of a transaction last, with the number of its commit where one is given.
pub fn push_txn(text: &mut TextBuffer, txn: &Txn, commit: Option<u64>) -> Result<(), Memory>
    ensures { OnOk result (text.new ≡ text.old ++ text_of_txn txn.now commit) }
{
    push_front(text, commit)?;
    push_ops(text, txn)?;
    text.push(b"}")?;
    Ok(())
}

/// The canonical text of a transaction, with the number of its commit where one is given. docs/FORMATS.md tells the text.
pub fn write_txn(alloc: Global, txn: &Txn, commit: Option<u64>) -> Result<Bytes, Memory>
    ensures { IfOk result (λ text. text ≡ text_of_txn txn.now commit) }
{
    let mut text = TextBuffer::with_room(alloc, txn_room(txn))?;
    push_txn(&mut text, txn, commit)?;
    Ok(text.into_bytes())
}
