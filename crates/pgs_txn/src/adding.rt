//! Operations that add elements.

ghost use Rattle.std.specs.Prelude.{◌≡◌, ◌+◌, ◌≤◌, Bool, true, false, IfOk, OnOk, MatchResult, Some, None, Err};
ghost use Rattle.pgs_base.specs.declared.element.NodeId.{NodeId};
ghost use Rattle.pgs_base.specs.declared.element.EdgeId.{EdgeId};
ghost use Rattle.std.specs.BTreeMap.{insert_entry};
ghost use Rattle.pgs_base.specs.declared.row.EdgeRow.{EdgeRow};
ghost use Rattle.pgs_base.specs.Graph.{edge_cmp, edge_at};
ghost use Rattle.pgs_base.specs.Pair.{pair_of};
ghost use Rattle.pgs_graph.specs.Reads.{edge_row};
ghost use Rattle.pgs_violation.specs.Staging.{Unable, put_edge, added_node, added_edge};
ghost use Rattle.pgs_txn.specs.Answers.{Makes};
ghost use Rattle.pgs_txn.specs.Rows.{IsIndexed, edge_change, was_put};
ghost use Rattle.pgs_txn.specs.Working.{StandsOn, graph_now, Lists};

use crate::edit::{new_edge, new_node};
use crate::faults::OpFault;
use crate::working::Working;
use pgs_base::{EdgeId, EdgeRow, Elem, Labels, Memory, NodeId, Props, Steps};
use pgs_graph::GraphRead;
use pgs_violation::Cause;
use std::alloc::Global;
use std::sync::ledger::Ledger;

// One element more. A graph of 2^64 elements has no room in the machine.
fn one_more(count: u64) -> Result<u64, Memory>
    ensures { IfOk result (λ more. more ≡ count + 1) }
{
    match count.checked_add(1) {
        Some(more) => Ok(more),
        None => Err(Memory),
    }
}

impl Working {
    /// Adds a node. At most one look at the graph.
    pub fn add_node<G: GraphRead, L: Ledger>(
        &mut self,
        alloc: Global,
        graph: &G,
        id: NodeId,
        labels: &Labels,
        props: &Props,
        steps: &mut Steps<L>,
    ) -> Result<(), OpFault>
        requires { StandsOn (G.meaning graph.now) self.old }
        ensures step { Makes result (graph_now (G.meaning graph.now) self.new)
            (added_node (graph_now (G.meaning graph.now) self.old) id (pair_of labels.now props.now)) }
        ensures stands { OnOk result (StandsOn (G.meaning graph.now) self.new) }
        ensures lists { OnOk result ((nodes : NodeId → Bool) (edges : EdgeId → Bool) → nodes id ≡ true → Lists nodes edges self.old.rows → Lists nodes edges self.new.rows) }
        ensures no_step_back { steps.old ≤ steps.new }
        ensures one_look { steps.new ≤ steps.old + 1 }
    {
        if self.has_node(graph, id, steps) {
            return Err(OpFault::Unable(Cause::AlreadyThere(Elem::Node(id))));
        }
        let row = new_node(alloc, labels, props)?;
        self.rows.put_node(id, Some(row))?;
        self.count = one_more(self.count)?;
        Ok(())
    }

    // Puts an edge in that isn't there.
    fn put_new_edge(&mut self, id: EdgeId, row: EdgeRow) -> Result<(), Memory>
        requires indexed { IsIndexed self.old.rows }
        requires absent { was_put (edge_change self.old.rows id) ≡ false }
        ensures edges { OnOk result (self.new.rows.edges ≡ insert_entry edge_cmp self.old.rows.edges id (Some row)) }
        ensures nodes { self.new.rows.nodes ≡ self.old.rows.nodes }
        ensures cleared { self.new.cleared ≡ self.old.cleared }
        ensures count { OnOk result (self.new.count ≡ self.old.count + 1) }
        ensures indexed { OnOk result (IsIndexed self.new.rows) }
    {
        self.rows.put_edge(id, row)?;
        self.count = one_more(self.count)?;
        Ok(())
    }

    // Whether an edge can be put in: its own number is tested first, then its source, then its target. At most three looks.
    fn test_edge<G: GraphRead, L: Ledger>(
        &self,
        graph: &G,
        id: EdgeId,
        ends: (NodeId, NodeId),
        steps: &mut Steps<L>,
    ) -> Result<(), Cause>
        requires { StandsOn (G.meaning graph.now) self.now }
        ensures fits { (row : EdgeRow) → row.source ≡ ends.0 → row.target ≡ ends.1 →
            MatchResult result (λ _. added_edge (graph_now (G.meaning graph.now) self.now) id row ≡ put_edge (graph_now (G.meaning graph.now) self.now) id row)
            (λ cause. added_edge (graph_now (G.meaning graph.now) self.now) id row ≡ Err (Unable cause)) }
        ensures new { OnOk result (edge_at (graph_now (G.meaning graph.now) self.now) id ≡ None) }
        ensures no_step_back { steps.old ≤ steps.new }
        ensures looks { steps.new ≤ steps.old + 3 }
    {
        let (source, target) = ends;
        if self.has_edge(graph, id, steps) {
            return Err(Cause::AlreadyThere(Elem::Edge(id)));
        }
        if !self.has_node(graph, source, steps) {
            return Err(Cause::NoNode(source));
        }
        if !self.has_node(graph, target, steps) {
            return Err(Cause::NoNode(target));
        }
        Ok(())
    }

    /// Adds an edge. At most three looks at the graph.
    pub fn add_edge<G: GraphRead, L: Ledger>(
        &mut self,
        alloc: Global,
        graph: &G,
        id: EdgeId,
        ends: (NodeId, NodeId),
        carried: (&Labels, &Props),
        steps: &mut Steps<L>,
    ) -> Result<(), OpFault>
        requires { StandsOn (G.meaning graph.now) self.old }
        ensures step { Makes result (graph_now (G.meaning graph.now) self.new)
            (added_edge (graph_now (G.meaning graph.now) self.old) id (edge_row ends.0 ends.1 carried.entry.0.now carried.entry.1.now)) }
        ensures stands { OnOk result (StandsOn (G.meaning graph.now) self.new) }
        ensures lists { OnOk result ((nodes : NodeId → Bool) (edges : EdgeId → Bool) → edges id ≡ true → Lists nodes edges self.old.rows → Lists nodes edges self.new.rows) }
        ensures no_step_back { steps.old ≤ steps.new }
        ensures looks { steps.new ≤ steps.old + 3 }
    {
        let (labels, props) = carried;
        if let Err(cause) = self.test_edge(graph, id, ends, steps) {
            return Err(OpFault::Unable(cause));
        }
        let row = new_edge(alloc, ends, labels, props)?;
        self.put_new_edge(id, row)?;
        Ok(())
    }
}
