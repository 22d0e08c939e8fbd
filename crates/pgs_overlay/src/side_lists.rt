//! The lists of one side of the nodes at which a delta's edges stand, edited edge by edge.

ghost use Rattle.std.specs.Prelude.{◌≡◌, ◌+◌, ◌*◌, ◌^◌, ◌<◌, ◌≤◌, ℕ, true, false, ◌&&◌, length, option_map, OnOk, IfSome};
ghost use Rattle.std.specs.List.{list_any};
ghost use Rattle.std.specs.List.Sorted.{IsStrictlySortedBy};
ghost use Rattle.std.specs.Map.{keys_of, remove_entry};
ghost use Rattle.std.specs.BTreeMap.{is_at};
ghost use Rattle.pgs_base.specs.declared.element.NodeId.{NodeId};
ghost use Rattle.pgs_base.specs.Graph.{Graph, node_cmp, edge_cmp, edge_at, is_graph};
ghost use Rattle.pgs_graph.specs.Reads.{end_of};
ghost use Rattle.pgs_overlay.specs.Passed.{list_at, is_here, edit_here, edit_between, takes_out, AreReady, FollowsChange, IsEditAt, IsListOf, IsReadyAt};
ghost use Rattle.pgs_overlay.specs.Sides.{end_at, edges_at};

use crate::base_list::BaseList;
use crate::edit::{Edit, EditKind, edit_list};
use crate::edited_list::EditedList;
use crate::side::Side;
use pgs_base::{EdgeId, Memory, NodeId, Steps};
use pgs_base_keyed::Keyed;
use pgs_graph::GraphRead;
use std::alloc::Global;
use std::sync::ledger::Ledger;

// Takes the list of a node out, to edit it: what is kept, and else the base's list as it is.
fn take_list(lists: &mut Keyed<NodeId, EditedList>, alloc: Global, id: NodeId) -> EditedList
    ensures list { IsListOf (list_at lists.old id) result }
    ensures entries { lists.new ≡ remove_entry (is_at (node_cmp id)) lists.old }
    ensures ascending { IsStrictlySortedBy node_cmp (keys_of lists.old) }
{
    lists.facts();
    match lists.unset(&id) {
        Some(list) => list,
        None => EditedList::new(alloc),
    }
}

// Edits the list of a node at an end of an edge, where it has one there.
fn edit_at<B: GraphRead, L: Ledger>(
    lists: &mut Keyed<NodeId, EditedList>,
    alloc: Global,
    base: &B,
    end: Option<NodeId>,
    edit: Edit,
    steps: &mut Steps<L>,
) -> Result<(), Memory>
    requires ready { IfSome end (λ id. IsReadyAt edit.edge (edges_at edit.side id (B.meaning base.now).edges) (list_at lists.old id)) }
    requires fits { IfSome end (λ id. list_any (is_at (edge_cmp edit.edge)) (edges_at edit.side id (B.meaning base.now).edges) ≡ takes_out edit.kind) }
    ensures edited { OnOk result ((id : NodeId) → IsEditAt (edges_at edit.side id (B.meaning base.now).edges) edit.edge
        (edit_here edit.kind id end) (list_at lists.old id) (list_at lists.new id)) }
    ensures never_back { steps.old ≤ steps.new }
    ensures cost { (most k : ℕ) → most < 2 ^ k → IfSome end (λ id. length (edges_at edit.side id (B.meaning base.now).edges) ≤ most) →
        steps.new ≤ steps.old + 2 * k + 4 }
{
    let Some(id) = end else {
        return Ok(());
    };
    let base_list = BaseList::new(base, edit.side, id);
    let mut list = take_list(lists, alloc, id);
    edit_list(&mut list, &base_list, edit, steps)?;
    lists.set(id, list)?;
    Ok(())
}

// Whether two ends are one node.
fn are_same(first: Option<NodeId>, second: Option<NodeId>) -> bool
    ensures same { result ≡ true → first ≡ second }
    ensures apart { result ≡ false → (id : NodeId) → (is_here id first && is_here id second) ≡ false }
{
    match (first, second) {
        (Some(first), Some(second)) => first.0 == second.0,
        _ => false,
    }
}

/// Edits the lists of one side for an edge that the delta changes: it is taken out at its old end, and put in at its new one.
pub(crate) fn edit_side<B: GraphRead, L: Ledger>(
    lists: &mut Keyed<NodeId, EditedList>,
    alloc: Global,
    base: &B,
    side: Side,
    ends: (Option<NodeId>, Option<NodeId>),
    edge: EdgeId,
    steps: &mut Steps<L>,
) -> Result<(), Memory>
    requires graph { is_graph (B.meaning base.now) ≡ true }
    requires ready { AreReady edge side (B.meaning base.now) lists.old }
    requires old_end { ends.0 ≡ option_map (end_of (end_at side)) (edge_at (B.meaning base.now) edge) }
    ensures edited { OnOk result ((id : NodeId) → FollowsChange (edges_at side id (B.meaning base.now).edges) edge
        (edit_between id ends.0 ends.1) (list_at lists.old id) (list_at lists.new id)) }
    ensures never_back { steps.old ≤ steps.new }
    ensures cost { (most k : ℕ) → most < 2 ^ k → IfSome ends.0 (λ id. length (edges_at side id (B.meaning base.now).edges) ≤ most) →
        IfSome ends.1 (λ id. length (edges_at side id (B.meaning base.now).edges) ≤ most) → steps.new ≤ steps.old + 4 * k + 8 }
{
    let (old, new) = ends;
    if are_same(old, new) {
        return Ok(());
    }
    let take_out = Edit {
        side,
        kind: EditKind::TakeOut,
        edge,
    };
    edit_at(lists, alloc, base, old, take_out, steps)?;
    let put_in = Edit {
        side,
        kind: EditKind::PutIn,
        edge,
    };
    edit_at(lists, alloc, base, new, put_in, steps)?;
    Ok(())
}
