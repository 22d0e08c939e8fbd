//! The lists of the nodes at which a delta's edges stand, made in one pass over these edges that counts the edges too.

ghost use Rattle.std.specs.Prelude.{◌≡◌, ◌+◌, ◌*◌, ◌^◌, ◌<◌, ◌≤◌, ℕ, true, cond, [], length, is_some, OnOk, IfOk};
ghost use Rattle.std.specs.List.{list_any};
ghost use Rattle.std.specs.List.Sorted.{IsStrictlySortedBy};
ghost use Rattle.std.specs.Map.{keys_of};
ghost use Rattle.pgs_base.specs.declared.element.NodeId.{NodeId};
ghost use Rattle.pgs_base.specs.Graph.{edge_cmp, edge_at, is_graph};
ghost use Rattle.pgs_graph.specs.Changed.{entries_changed};
ghost use Rattle.pgs_tables.specs.Adjacency.{ends_here};
ghost use Rattle.pgs_overlay.specs.declared.side.Side.TheVariants.{Out, In};
ghost use Rattle.pgs_overlay.specs.Passed.{AllFollow, ArePassed, AreReady, HasFew, end_on};

use crate::counting::count_changed;
use crate::edited_list::EditedList;
use crate::side::Side;
use crate::side_lists::edit_side;
use pgs_base::{EdgeId, EdgeRow, Memory, NodeId, Steps};
use pgs_base_keyed::Keyed;
use pgs_graph::GraphRead;
use std::alloc::Global;
use std::sync::ledger::Ledger;

/// The edited lists of nodes, on each side. A node without one has the base's list.
#[derive(Drop)]
pub(crate) struct NodeLists {
    pub outgoing: Keyed<NodeId, EditedList>,
    pub incoming: Keyed<NodeId, EditedList>,
}

// The source and the target of an edge, where it is there, with one tick.
fn old_ends<B: GraphRead, L: Ledger>(
    base: &B,
    edge: EdgeId,
    steps: &mut Steps<L>,
) -> (Option<NodeId>, Option<NodeId>)
    ensures source { result.0 ≡ end_on Out (edge_at (B.meaning base.now) edge) }
    ensures target { result.1 ≡ end_on In (edge_at (B.meaning base.now) edge) }
    ensures tick { steps.new ≡ steps.old + 1 }
{
    match base.edge(edge, steps) {
        Some(row) => (Some(row.source), Some(row.target)),
        None => (None, None),
    }
}

// The source and the target of an edge's new row, where it has one.
fn new_ends(row: &Option<EdgeRow>) -> (Option<NodeId>, Option<NodeId>)
    ensures source { result.0 ≡ end_on Out row.now }
    ensures target { result.1 ≡ end_on In row.now }
{
    match row {
        Some(row) => (Some(row.source), Some(row.target)),
        None => (None, None),
    }
}

impl NodeLists {
    // Edits the lists at the old and the new ends of an edge, and answers a count of elements after the change. One look at the base says
    // both where its ends were and whether it was there.
    fn edit_edge<B: GraphRead, L: Ledger>(
        &mut self,
        alloc: Global,
        base: &B,
        change: &(EdgeId, Option<EdgeRow>),
        before: u64,
        steps: &mut Steps<L>,
    ) -> Result<u64, Memory>
        requires graph { is_graph (B.meaning base.now) ≡ true }
        requires outgoing { AreReady change.now.0 Out (B.meaning base.now) self.old.outgoing }
        requires incoming { AreReady change.now.0 In (B.meaning base.now) self.old.incoming }
        requires counted { is_some (edge_at (B.meaning base.now) change.now.0) ≡ true → 0 < before }
        ensures outgoing { OnOk result (AllFollow Out (B.meaning base.now) change.now self.old.outgoing self.new.outgoing) }
        ensures incoming { OnOk result (AllFollow In (B.meaning base.now) change.now self.old.incoming self.new.incoming) }
        ensures count { IfOk result (λ after. after + cond (is_some (edge_at (B.meaning base.now) change.now.0)) 1 0
            ≡ before + cond (is_some change.now.1) 1 0) }
        ensures never_back { steps.old ≤ steps.new }
        ensures cost { (most k : ℕ) → most < 2 ^ k → ((id : NodeId) → ends_here (B.meaning base.now) id change.now ≡ true → HasFew (B.meaning base.now) most id) →
            steps.new ≤ steps.old + 8 * k + 17 }
    {
        let (edge, row) = change;
        let old = old_ends(base, *edge, steps);
        let new = new_ends(row);
        edit_side(
            &mut self.outgoing,
            alloc,
            base,
            Side::Out,
            (old.0, new.0),
            *edge,
            steps,
        )?;
        edit_side(
            &mut self.incoming,
            alloc,
            base,
            Side::In,
            (old.1, new.1),
            *edge,
            steps,
        )?;
        count_changed(before, old.0.is_some(), row.is_some())
    }

    // Edits the lists, which are those before all changes, edge by edge, and answers a count of elements after the changes.
    fn edit_edges<B: GraphRead, L: Ledger>(
        &mut self,
        alloc: Global,
        base: &B,
        changes: &[(EdgeId, Option<EdgeRow>)],
        before: u64,
        steps: &mut Steps<L>,
    ) -> Result<u64, Memory>
        requires graph { is_graph (B.meaning base.now) ≡ true }
        requires ascending { IsStrictlySortedBy edge_cmp (keys_of changes.now) }
        requires counted { length (B.meaning base.now).edges ≤ before }
        requires outgoing { ArePassed Out (B.meaning base.now) [] (keys_of changes.now) self.old.outgoing }
        requires incoming { ArePassed In (B.meaning base.now) [] (keys_of changes.now) self.old.incoming }
        ensures outgoing { OnOk result (ArePassed Out (B.meaning base.now) changes.now [] self.new.outgoing) }
        ensures incoming { OnOk result (ArePassed In (B.meaning base.now) changes.now [] self.new.incoming) }
        ensures count { IfOk result (λ after. after + length (B.meaning base.now).edges
            ≡ before + length (entries_changed edge_cmp (B.meaning base.now).edges changes.now)) }
        ensures never_back { steps.old ≤ steps.new }
        ensures cost { (most k : ℕ) → most < 2 ^ k → ((id : NodeId) → list_any (ends_here (B.meaning base.now) id) changes.now ≡ true → HasFew (B.meaning base.now) most id) →
            steps.new ≤ steps.old + (8 * k + 17) * length changes.now }
    {
        let mut count = before;
        for change in changes {
            count = self.edit_edge(alloc, base, change, count, steps)?;
        }
        Ok(count)
    }

    /// The lists of the nodes at which changed edges stand, and a count of elements, after the changes, which are of ascending numbers.
    pub fn edited<B: GraphRead, L: Ledger>(
        alloc: Global,
        base: &B,
        changes: &[(EdgeId, Option<EdgeRow>)],
        before: u64,
        steps: &mut Steps<L>,
    ) -> Result<(NodeLists, u64), Memory>
        requires graph { is_graph (B.meaning base.now) ≡ true }
        requires ascending { IsStrictlySortedBy edge_cmp (keys_of changes.now) }
        requires counted { length (B.meaning base.now).edges ≤ before }
        ensures outgoing { IfOk result (λ edited. ArePassed Out (B.meaning base.now) changes.now [] edited.0.outgoing) }
        ensures incoming { IfOk result (λ edited. ArePassed In (B.meaning base.now) changes.now [] edited.0.incoming) }
        ensures count { IfOk result (λ edited. edited.1 + length (B.meaning base.now).edges
            ≡ before + length (entries_changed edge_cmp (B.meaning base.now).edges changes.now)) }
        ensures never_back { steps.old ≤ steps.new }
        ensures cost { (most k : ℕ) → most < 2 ^ k → ((id : NodeId) → list_any (ends_here (B.meaning base.now) id) changes.now ≡ true → HasFew (B.meaning base.now) most id) →
            steps.new ≤ steps.old + (8 * k + 17) * length changes.now }
    {
        let mut lists = NodeLists {
            outgoing: Keyed::new(alloc, changes.len()),
            incoming: Keyed::new(alloc, changes.len()),
        };
        let count = lists.edit_edges(alloc, base, changes, before, steps)?;
        Ok((lists, count))
    }
}
