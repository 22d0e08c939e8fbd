//! Rows of nodes that are changed in the slots where they stand: nothing is taken out of a slot to be put back.

ghost use Rattle.std.specs.Prelude.{◌≡◌, true, cond};
ghost use Rattle.std.specs.Option.{option_flatten};
ghost use Rattle.std.specs.BTreeMap.{is_at};
ghost use Rattle.std.specs.Map.{lookup, set_value};
ghost use Rattle.indexmap.specs.IndexMap.{hasher_of};
ghost use Rattle.pgs_tables.specs.Commits.{row_changed, relinked};
ghost use Rattle.pgs_tables.specs.Slots.{has_slot, row_count};

use super::{count_row, find};
use crate::node_edges::NodeTable;
use crate::places::Places;
use crate::{NodeEdges, Number, Numbered};
use indexmap::IndexMap;
use pgs_base::{NodeRow, Seed};
use std::alloc::Global;

/// Changes the row of a node, whose number has a slot. The node keeps the edges that it had.
pub(crate) fn change_row<K: Number>(
    nodes: &mut Numbered<K, NodeTable>,
    alloc: Global,
    id: K,
    row: Option<NodeRow>,
)
    requires { has_slot K.cmp nodes.old id ≡ true }
    ensures rows { (q : K) → lookup (is_at (K.cmp q)) nodes.new.rows
        ≡ cond (is_at (K.cmp id) q) (row_changed row (lookup (is_at (K.cmp q)) nodes.old.rows)) (lookup (is_at (K.cmp q)) nodes.old.rows) }
    ensures numbers { nodes.new.numbers ≡ nodes.old.numbers }
    ensures seed { nodes.new.seed ≡ nodes.old.seed }
{
    let _slots = nodes.slots.len();
    let after = count_row(&row);
    let before = change_slot(&mut nodes.slots, &nodes.last, alloc, id, row);
    nodes.live = nodes.live - before + after;
}

/// Gives a node other edges, where it is there.
pub(crate) fn relink<K: Number>(nodes: &mut Numbered<K, NodeTable>, id: K, edges: NodeEdges)
    ensures rows { (q : K) → lookup (is_at (K.cmp q)) nodes.new.rows
        ≡ cond (is_at (K.cmp id) q) (relinked edges (lookup (is_at (K.cmp q)) nodes.old.rows)) (lookup (is_at (K.cmp q)) nodes.old.rows) }
    ensures numbers { nodes.new.numbers ≡ nodes.old.numbers }
    ensures seed { nodes.new.seed ≡ nodes.old.seed }
{
    relink_slot(&mut nodes.slots, &nodes.last, id, edges);
}

// Changes the row in the slot of a number, and answers how many rows were there. Where there is no slot, nothing happens.
fn change_slot<K: Number>(
    slots: &mut IndexMap<K, Option<NodeTable>, Seed>,
    last: &Places,
    alloc: Global,
    id: K,
    row: Option<NodeRow>,
) -> usize
    ensures entries { slots.new.entries ≡ set_value (K.eq id) slots.old.entries (row_changed row (option_flatten (lookup (K.eq id) slots.old.entries))) }
    ensures count { result ≡ row_count (option_flatten (lookup (K.eq id) slots.old.entries)) }
    ensures seed { hasher_of slots.new ≡ hasher_of slots.old }
{
    let Some(place) = find(slots, last, id) else {
        return 0;
    };
    match slots.get_index_mut(place) {
        Some(slot) => {
            let before = count_row(slot);
            change_table(slot, alloc, row);
            before
        }
        None => 0,
    }
}

fn change_table(slot: &mut Option<NodeTable>, alloc: Global, row: Option<NodeRow>)
    ensures { slot.new ≡ row_changed row slot.old }
{
    let Some(row) = row else {
        *slot = None;
        return;
    };
    match slot {
        Some(table) => table.row = row,
        None => {
            *slot = Some(NodeTable {
                row,
                edges: NodeEdges::new(alloc),
            });
        }
    }
}

// Gives the row in the slot of a number other edges. Where there is no slot, nothing happens.
fn relink_slot<K: Number>(
    slots: &mut IndexMap<K, Option<NodeTable>, Seed>,
    last: &Places,
    id: K,
    edges: NodeEdges,
)
    ensures entries { slots.new.entries ≡ set_value (K.eq id) slots.old.entries (relinked edges (option_flatten (lookup (K.eq id) slots.old.entries))) }
    ensures seed { hasher_of slots.new ≡ hasher_of slots.old }
{
    let Some(place) = find(slots, last, id) else {
        return;
    };
    if let Some(slot) = slots.get_index_mut(place) {
        relink_table(slot, edges);
    }
}

fn relink_table(slot: &mut Option<NodeTable>, edges: NodeEdges)
    ensures { slot.new ≡ relinked edges slot.old }
{
    if let Some(table) = slot {
        table.edges = edges;
    }
}
