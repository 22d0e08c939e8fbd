//! The lists of edges at the nodes, after changes of edges. The old lists stay as they are.

ghost use Rattle.std.specs.Prelude.{◌≡◌, ◌==◌, cond, [], IfOk, OnOk, unwrap_or};
ghost use Rattle.std.specs.Option.{option_copied};
ghost use Rattle.std.specs.List.Sorted.{IsStrictlySortedBy};
ghost use Rattle.std.specs.Map.{keys_of};
ghost use Rattle.pgs_base.specs.declared.element.NodeId.{NodeId};
ghost use Rattle.pgs_base.specs.Graph.{node_cmp, edge_cmp};
ghost use Rattle.pgs_base_slots.specs.Slots.{present};
ghost use Rattle.pgs_graph.specs.Changed.{entries_changed};
ghost use Rattle.pgs_graph.specs.Lists.{listed_after, AreListed, list_edited, edited_with, relisted};

use crate::scan::End;
use pgs_base::{EdgeId, EdgeRow, List, Memory, NodeId};
use pgs_base_keyed::Keyed;
use pgs_base_slots::Slots;
use pgs_tables_edges::EdgeList;
use std::alloc::Global;

/// The lists of edges at the nodes, by one of their ends.
pub(crate) type EdgeLists = Slots<NodeId, EdgeList>;

// Lists that are made anew, `None` for an empty one.
type NewLists = Keyed<NodeId, Option<EdgeList>>;

/// The changes of the lists by this end that changes of edges, of ascending numbers, lead to. `Memory` where none was left.
pub(crate) fn relist_edges(
    alloc: Global,
    end: End,
    lists: &EdgeLists,
    edges: &Slots<EdgeId, EdgeRow>,
    changes: &[(EdgeId, Option<EdgeRow>)],
) -> Result<List<(NodeId, Option<EdgeList>)>, Memory>
    requires listed { AreListed end (present edges.now) (present lists.now) }
    requires ascending { IsStrictlySortedBy edge_cmp (keys_of changes.now) }
    ensures ascending { IfOk result (λ made. IsStrictlySortedBy node_cmp (keys_of made)) }
    ensures listed { IfOk result (λ made. AreListed end (entries_changed edge_cmp (present edges.now) changes.now)
        (entries_changed node_cmp (present lists.now) made)) }
{
    let _lists = lists.len();
    let _edges = edges.len();
    let mut made = Keyed::new(alloc, changes.len());
    for change in changes {
        let old = edges.get(&change.0);
        relist_change(alloc, end, lists, &mut made, old, change)?;
    }
    let made = made.into_vec(alloc)?;
    Ok(List::from_vec(made))
}

// A changed edge taken out where it was, by its old row, and put in where it is.
fn relist_change(
    alloc: Global,
    end: End,
    lists: &EdgeLists,
    made: &mut NewLists,
    row: Option<&EdgeRow>,
    change: &(EdgeId, Option<EdgeRow>),
) -> Result<(), Memory>
    ensures { OnOk result ((q : NodeId) → listed_after (present lists.now) made.new q
        ≡ relisted end q (λ edge. option_copied row.entry) (listed_after (present lists.now) made.old q) change.now) }
{
    relist_end(alloc, end, lists, made, false, change.0, row)?;
    relist_end(alloc, end, lists, made, true, change.0, change.1.as_ref())?;
    Ok(())
}

// An edge put in at this end, or taken out there, where there is such an edge.
fn relist_end(
    alloc: Global,
    end: End,
    lists: &EdgeLists,
    made: &mut NewLists,
    adds: bool,
    edge: EdgeId,
    row: Option<&EdgeRow>,
) -> Result<(), Memory>
    ensures { OnOk result ((q : NodeId) → listed_after (present lists.now) made.new q
        ≡ edited_with end q adds edge (option_copied row.entry) (listed_after (present lists.now) made.old q)) }
{
    let Some(row) = row else {
        return Ok(());
    };
    relist_node(alloc, lists, made, end.of(row), adds, edge)?;
    Ok(())
}

// An edge put into the list of a node, or taken out of it.
fn relist_node(
    alloc: Global,
    lists: &EdgeLists,
    made: &mut NewLists,
    id: NodeId,
    adds: bool,
    edge: EdgeId,
) -> Result<(), Memory>
    ensures { OnOk result ((q : NodeId) → listed_after (present lists.now) made.new q
        ≡ cond (id.0 == q.0) (list_edited adds edge (listed_after (present lists.now) made.old q)) (listed_after (present lists.now) made.old q)) }
{
    let list = edited_list(alloc, list_at(lists, made, id), adds, edge)?;
    made.set(id, some_unless_empty(list))?;
    Ok(())
}

// The list of a node: the one that is made already, and else the one that it had.
fn list_at<'a>(lists: &'a EdgeLists, made: &'a NewLists, id: NodeId) -> Option<&'a EdgeList>
    ensures { unwrap_or (option_copied result) [] ≡ listed_after (present lists.now) made.now id }
{
    match made.get(&id) {
        Some(list) => list.as_ref(),
        None => lists.get(&id),
    }
}

// A list, empty where there is none, with an edge put in or taken out.
fn edited_list(
    alloc: Global,
    list: Option<&EdgeList>,
    adds: bool,
    edge: EdgeId,
) -> Result<EdgeList, Memory>
    ensures { IfOk result (λ edited. edited ≡ list_edited adds edge (unwrap_or (option_copied list.entry) [])) }
{
    match list {
        Some(list) => edit(alloc, list, adds, edge),
        None => edit(alloc, &EdgeList::new(alloc), adds, edge),
    }
}

fn edit(alloc: Global, list: &EdgeList, adds: bool, edge: EdgeId) -> Result<EdgeList, Memory>
    ensures { IfOk result (λ edited. edited ≡ list_edited adds edge list.now) }
{
    if adds {
        list.with(alloc, edge)
    } else {
        list.without(alloc, edge)
    }
}

fn some_unless_empty(list: EdgeList) -> Option<EdgeList>
    ensures { unwrap_or result [] ≡ list }
{
    if list.is_empty() { None } else { Some(list) }
}
