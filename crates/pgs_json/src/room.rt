//! How much room the canonical text of a transaction takes, told before it is written.

ghost use Rattle.std.specs.Prelude.{◌≡◌, ◌+◌, ◌*◌, ◌^◌, ◌<◌, ◌≤◌, ℕ, Option, None, IfSome, length, min, flat_map};
ghost use Rattle.pgs_base_text.specs.Text.{quoted};
ghost use Rattle.pgs_json.specs.Canonical.{value_text, op_text, text_of_txn};
ghost use Rattle.pgs_json.specs.Pieces.{further, prop_text};
ghost use Rattle.pgs_json.specs.Room.{IsRoom};

use pgs_base::{Labels, Name, Props, Value};
use pgs_graph::{Op, Txn};

/// The most bytes that a byte of a text takes, as `\u001f`.
const ESCAPED: usize = 6;

/// The most bytes of a number.
const NUMBER: usize = 20;

/// The most bytes of `,{"add_node":,"labels":[],"props":{}}` with the id. But for the ends of an edge no operation has more beside its
/// names, its value and what it lists.
const OP: usize = 37 + NUMBER;

/// The most bytes of `,"from":,"to":` with the ids of two nodes.
const ENDS: usize = 14 + 2 * NUMBER;

/// The most bytes of `{"commit":,"ops":[]}` with the number, and a line feed.
const TXN: usize = 21 + NUMBER;

#[tactic(auto, using(crate::proofs::Rooms::quoted_name, crate::proofs::Rooms::short_name))]
fn name_room(name: &Name) -> usize
    ensures exact { result ≡ length (quoted name.now) }
    ensures short { result ≤ 66 }
{
    name.bytes().len() + 2
}

fn value_room(value: &Value) -> usize
    ensures enough { length (value_text value.now) ≤ result }
    ensures bounded { result ≤ 6 * length (value_text value.now) + 14 }
    ensures short { result < 2 ^ 32 }
{
    value.facts();
    match value {
        Value::Text(text) => text.text().len() * ESCAPED + 2,
        Value::Int(_) => NUMBER,
        Value::Bool(_) => 5,
        Value::Date(_) => 21,
    }
}

fn prop_room(name: &Name, value: &Value) -> usize
    ensures enough { length (prop_text (name.now, value.now)) ≤ result }
    ensures bounded { result ≤ 6 * length (prop_text (name.now, value.now)) }
    ensures short { result < 2 ^ 33 }
{
    name_room(name) + 1 + value_room(value)
}

fn labels_room(labels: &[Name]) -> usize
    ensures { IsRoom result (length (flat_map (further quoted) labels.now)) }
{
    let mut room: usize = 0;
    for label in labels {
        room = room.saturating_add(1 + name_room(label));
    }
    room
}

fn props_room(props: &[(Name, Value)]) -> usize
    ensures { IsRoom result (length (flat_map (further prop_text) props.now)) }
{
    let mut room: usize = 0;
    for (name, value) in props {
        room = room.saturating_add(1 + prop_room(name, value));
    }
    room
}

/// Room for labels and properties, each behind a comma.
fn pair_room(labels: &Labels, props: &Props) -> usize
    ensures { IsRoom result (length (flat_map (further quoted) labels.now) + length (flat_map (further prop_text) props.now)) }
{
    labels_room(labels.as_slice()).saturating_add(props_room(props.as_slice()))
}

/// Room for an operation behind a comma.
fn op_room(op: &Op) -> usize
    ensures { IsRoom result (length (further op_text op.now)) }
{
    op.facts();
    match op {
        Op::AddNode { labels, props, .. } => pair_room(labels, props).saturating_add(OP),
        Op::AddEdge { labels, props, .. } => pair_room(labels, props).saturating_add(OP + ENDS),
        Op::RemoveNode { .. } | Op::DetachNode { .. } | Op::RemoveEdge { .. } => OP,
        Op::SetNode { key, value, .. } | Op::SetEdge { key, value, .. } => {
            OP + prop_room(key, value)
        }
        Op::UnsetNode { key: name, .. }
        | Op::UnsetEdge { key: name, .. }
        | Op::LabelNode { label: name, .. }
        | Op::UnlabelNode { label: name, .. }
        | Op::LabelEdge { label: name, .. }
        | Op::UnlabelEdge { label: name, .. } => OP + name_room(name),
    }
}

fn ops_room(ops: &[Op]) -> usize
    ensures { IsRoom result (length (flat_map (further op_text) ops.now)) }
{
    let mut room: usize = 0;
    for op in ops {
        room = room.saturating_add(op_room(op));
    }
    room
}

/// Room for the canonical text of a transaction, with the number of its commit or without, and a line feed: at least so many bytes, as
/// far as a `usize` counts, and at most six times those of the text without a number.
pub fn txn_room(txn: &Txn) -> usize
    ensures enough { (commit : Option ℕ) → IfSome commit (λ number. number < 2 ^ 64)
        → min (length (text_of_txn txn.now commit) + 1) usize.MAX ≤ result }
    ensures bounded { result ≤ 6 * length (text_of_txn txn.now None) }
{
    ops_room(txn.ops.as_slice()).saturating_add(TXN)
}
