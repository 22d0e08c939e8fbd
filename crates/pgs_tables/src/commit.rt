//! Rows and lists put into the slots that they have. Nothing here takes memory.

ghost use Rattle.std.specs.Prelude.{◌≡◌, true, cond};
ghost use Rattle.std.specs.List.{list_all};
ghost use Rattle.std.specs.List.Sorted.{IsStrictlySortedBy};
ghost use Rattle.std.specs.Map.{keys_of, lookup};
ghost use Rattle.std.specs.BTreeMap.{is_at};
ghost use Rattle.pgs_base.specs.declared.element.NodeId.{NodeId};
ghost use Rattle.pgs_base.specs.Graph.{node_cmp};
ghost use Rattle.pgs_graph.specs.Changed.{entry_changed, entries_changed};
ghost use Rattle.pgs_tables.specs.Slots.{has_slot};
ghost use Rattle.pgs_tables.specs.Commits.{row_put, rows_put, edges_put, lists_put};

use crate::node_edges::NodeTable;
use crate::numbered::in_place::{change_row, relink};
use crate::{NodeEdges, Number, Numbered};
use pgs_base::{NodeId, NodeRow};
use std::alloc::Global;

/// Does changes of rows whose numbers have slots.
pub(crate) fn put_rows<K: Number, V: Drop>(table: &mut Numbered<K, V>, changes: Vec<(K, Option<V>)>)
    requires { list_all (has_slot K.cmp table.old) (keys_of changes.items) ≡ true }
    ensures rows { table.new.rows ≡ entries_changed K.cmp table.old.rows changes.items }
    ensures numbers { table.new.numbers ≡ table.old.numbers }
    ensures seed { table.new.seed ≡ table.old.seed }
{
    for (id, row) in changes {
        put_row(table, id, row);
    }
}

fn put_row<K: Number, V: Drop>(table: &mut Numbered<K, V>, id: K, row: Option<V>)
    requires { has_slot K.cmp table.old id ≡ true }
    ensures rows { table.new.rows ≡ entry_changed K.cmp table.old.rows id row }
    ensures numbers { table.new.numbers ≡ table.old.numbers }
    ensures seed { table.new.seed ≡ table.old.seed }
{
    match row {
        Some(row) => table.put(id, row),
        None => {
            let _ = table.take(id);
        }
    }
}

/// Does changes of nodes whose numbers have slots. A node keeps the edges that it had.
pub(crate) fn put_nodes(
    nodes: &mut Numbered<NodeId, NodeTable>,
    alloc: Global,
    changes: Vec<(NodeId, Option<NodeRow>)>,
)
    requires { list_all (has_slot node_cmp nodes.old) (keys_of changes.items) ≡ true }
    ensures rows { (q : NodeId) → lookup (is_at (node_cmp q)) nodes.new.rows ≡ rows_put q (lookup (is_at (node_cmp q)) nodes.old.rows) changes.items }
    ensures numbers { nodes.new.numbers ≡ nodes.old.numbers }
    ensures seed { nodes.new.seed ≡ nodes.old.seed }
{
    for (id, row) in changes {
        put_node(nodes, alloc, id, row);
    }
}

fn put_node(
    nodes: &mut Numbered<NodeId, NodeTable>,
    alloc: Global,
    id: NodeId,
    row: Option<NodeRow>,
)
    requires { has_slot node_cmp nodes.old id ≡ true }
    ensures rows { (q : NodeId) → lookup (is_at (node_cmp q)) nodes.new.rows ≡ row_put q (lookup (is_at (node_cmp q)) nodes.old.rows) (id, row) }
    ensures numbers { nodes.new.numbers ≡ nodes.old.numbers }
    ensures seed { nodes.new.seed ≡ nodes.old.seed }
{
    change_row(nodes, alloc, id, row);
}

/// Puts in the lists of nodes, where they are there.
pub(crate) fn put_lists(nodes: &mut Numbered<NodeId, NodeTable>, lists: Vec<(NodeId, NodeEdges)>)
    ensures ascending { IsStrictlySortedBy node_cmp (keys_of nodes.new.rows) }
    ensures rows { (q : NodeId) → lookup (is_at (node_cmp q)) nodes.new.rows ≡ lists_put q (lookup (is_at (node_cmp q)) nodes.old.rows) lists.items }
    ensures numbers { nodes.new.numbers ≡ nodes.old.numbers }
    ensures seed { nodes.new.seed ≡ nodes.old.seed }
{
    for (id, edges) in lists {
        put_list(nodes, id, edges);
    }
    let _rows = nodes.len();
}

fn put_list(nodes: &mut Numbered<NodeId, NodeTable>, id: NodeId, edges: NodeEdges)
    ensures rows { (q : NodeId) → lookup (is_at (node_cmp q)) nodes.new.rows ≡ edges_put q (lookup (is_at (node_cmp q)) nodes.old.rows) (id, edges) }
    ensures numbers { nodes.new.numbers ≡ nodes.old.numbers }
    ensures seed { nodes.new.seed ≡ nodes.old.seed }
{
    relink(nodes, id, edges);
}
