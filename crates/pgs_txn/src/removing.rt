//! Operations that remove elements.

ghost use Rattle.std.specs.Prelude.{◌≡◌, ◌+◌, ◌-◌, ◌≤◌, ◌<◌, Bool, true, None, OnOk, length};
ghost use Rattle.std.specs.BTreeMap.{insert_entry};
ghost use Rattle.std.specs.BTreeSet.{insert_key};
ghost use Rattle.pgs_base.specs.declared.element.NodeId.{NodeId};
ghost use Rattle.pgs_base.specs.declared.element.EdgeId.{EdgeId};
ghost use Rattle.pgs_base.specs.Graph.{Graph, node_cmp, edge_cmp, edge_at};
ghost use Rattle.pgs_graph.specs.declared.operation.Op.TheVariants.{RemoveNode, DetachNode, RemoveEdge};
ghost use Rattle.pgs_graph.specs.Reads.{degree_of};
ghost use Rattle.pgs_violation.specs.Staging.{step};
ghost use Rattle.pgs_txn.specs.Answers.{Makes};
ghost use Rattle.pgs_txn.specs.Looks.{edges_of, has_direction, is_at_node};
ghost use Rattle.pgs_txn.specs.Removing.{OnlyEdgesAt};
ghost use Rattle.pgs_txn.specs.Rows.{IsIndexed, IsLeast, edge_change, is_changed, was_put, was_put_at};
ghost use Rattle.pgs_txn.specs.Working.{IsCovered, StandsOn, graph_now, Lists};

use crate::edges_at_node::{Direction, edge_in};
use crate::faults::OpFault;
use crate::working::Working;
use pgs_base::{EdgeId, Memory, NodeId, Steps};
use pgs_graph::GraphRead;
use pgs_violation::Cause;
use std::sync::ledger::Ledger;

impl Working {
    // Takes an edge out that is there.
    fn drop_edge(&mut self, id: EdgeId) -> Result<(), Memory>
        requires { IsIndexed self.old.rows }
        ensures edges { OnOk result (self.new.rows.edges ≡ insert_entry edge_cmp self.old.rows.edges id None) }
        ensures nodes { self.new.rows.nodes ≡ self.old.rows.nodes }
        ensures cleared { self.new.cleared ≡ self.old.cleared }
        ensures count { OnOk result (self.new.count ≡ self.old.count - 1) }
        ensures indexed { OnOk result (IsIndexed self.new.rows) }
        ensures fewer { OnOk result (was_put (edge_change self.old.rows id) ≡ true → length self.new.rows.ends < length self.old.rows.ends) }
    {
        self.rows.take_edge(id)?;
        self.count = self.count.saturating_sub(1);
        Ok(())
    }

    // Takes a node out that is there and has no edges, and marks it: all its edges were changed.
    fn drop_node(&mut self, id: NodeId) -> Result<(), Memory>
        requires { IsIndexed self.old.rows }
        ensures nodes { OnOk result (self.new.rows.nodes ≡ insert_entry node_cmp self.old.rows.nodes id None) }
        ensures edges { self.new.rows.edges ≡ self.old.rows.edges }
        ensures cleared { OnOk result (self.new.cleared.keys ≡ insert_key node_cmp self.old.cleared.keys id) }
        ensures count { OnOk result (self.new.count ≡ self.old.count - 1) }
        ensures indexed { OnOk result (IsIndexed self.new.rows) }
    {
        self.rows.put_node(id, None)?;
        self.cleared.insert(id)?;
        self.count = self.count.saturating_sub(1);
        Ok(())
    }

    /// Removes an edge. At most one look at the graph.
    pub fn remove_edge<G: GraphRead, L: Ledger>(
        &mut self,
        graph: &G,
        id: EdgeId,
        steps: &mut Steps<L>,
    ) -> Result<(), OpFault>
        requires { StandsOn (G.meaning graph.now) self.old }
        ensures step { Makes result (graph_now (G.meaning graph.now) self.new) (step (graph_now (G.meaning graph.now) self.old) (RemoveEdge id)) }
        ensures stands { OnOk result (StandsOn (G.meaning graph.now) self.new) }
        ensures lists { OnOk result ((nodes : NodeId → Bool) (edges : EdgeId → Bool) → edges id ≡ true → Lists nodes edges self.old.rows → Lists nodes edges self.new.rows) }
        ensures no_step_back { steps.old ≤ steps.new }
        ensures one_look { steps.new ≤ steps.old + 1 }
    {
        if !self.has_edge(graph, id, steps) {
            return Err(OpFault::Unable(Cause::NoEdge(id)));
        }
        self.drop_edge(id)?;
        Ok(())
    }

    /// Removes a node that has no edges.
    pub fn remove_node<G: GraphRead, L: Ledger>(
        &mut self,
        graph: &G,
        id: NodeId,
        steps: &mut Steps<L>,
    ) -> Result<(), OpFault>
        requires { StandsOn (G.meaning graph.now) self.old }
        ensures step { Makes result (graph_now (G.meaning graph.now) self.new) (step (graph_now (G.meaning graph.now) self.old) (RemoveNode id)) }
        ensures stands { OnOk result (StandsOn (G.meaning graph.now) self.new) }
        ensures lists { OnOk result ((nodes : NodeId → Bool) (edges : EdgeId → Bool) → nodes id ≡ true → Lists nodes edges self.old.rows → Lists nodes edges self.new.rows) }
        ensures no_step_back { steps.old ≤ steps.new }
        ensures looks { steps.new ≤ steps.old + degree_of (G.meaning graph.now) id + 3 }
    {
        if !self.has_node(graph, id, steps) {
            return Err(OpFault::Unable(Cause::NoNode(id)));
        }
        match self.least_edge(graph, id, steps) {
            Some(edge) => Err(OpFault::Unable(Cause::HasEdges(id, edge))),
            None => {
                self.drop_node(id)?;
                Ok(())
            }
        }
    }

    // Takes an edge at a node out, which the graph had at the start, where it was not changed.
    fn drop_unchanged(&mut self, edge: EdgeId) -> Result<(), Memory>
        requires { IsIndexed self.old.rows }
        ensures changed { OnOk result (is_changed self.new.rows edge ≡ true) }
        ensures only { OnOk result ((g : Graph) (id : NodeId) → StandsOn g self.old → is_at_node id g edge ≡ true → OnlyEdgesAt g id self.old self.new) }
    {
        if self.rows.edges.contains(&edge) {
            return Ok(());
        }
        self.drop_edge(edge)?;
        Ok(())
    }

    // Takes out the edges of a direction at a node, which the graph had at the start, where they were not changed.
    fn drop_direction<G: GraphRead, L: Ledger>(
        &mut self,
        graph: &G,
        direction: Direction,
        id: NodeId,
        steps: &mut Steps<L>,
    ) -> Result<(), Memory>
        requires { StandsOn (G.meaning graph.now) self.old }
        ensures only { OnOk result (OnlyEdgesAt (G.meaning graph.now) id self.old self.new) }
        ensures changed { OnOk result ((edge : EdgeId) → has_direction direction id (edge_at (G.meaning graph.now) edge) ≡ true → is_changed self.new.rows edge ≡ true) }
        ensures no_step_back { steps.old ≤ steps.new }
        ensures looks { steps.new ≤ steps.old + length (edges_of direction (G.meaning graph.now) id) + 1 }
    {
        for nth in 0..graph.count() as usize {
            let Some(edge) = edge_in(graph, direction, id, nth, steps) else {
                return Ok(());
            };
            self.drop_unchanged(edge)?;
        }
        Ok(())
    }

    // Takes out the edges at a node that the graph had at the start, where they were not changed.
    fn drop_old_edges<G: GraphRead, L: Ledger>(
        &mut self,
        graph: &G,
        id: NodeId,
        steps: &mut Steps<L>,
    ) -> Result<(), Memory>
        requires { StandsOn (G.meaning graph.now) self.old }
        ensures only { OnOk result (OnlyEdgesAt (G.meaning graph.now) id self.old self.new) }
        ensures covered { OnOk result (IsCovered (G.meaning graph.now) self.new.rows id) }
        ensures no_step_back { steps.old ≤ steps.new }
        ensures looks { steps.new ≤ steps.old + degree_of (G.meaning graph.now) id + 2 }
    {
        if self.cleared.contains(&id) {
            return Ok(());
        }
        self.drop_direction(graph, Direction::Out, id, steps)?;
        self.drop_direction(graph, Direction::In, id, steps)?;
        Ok(())
    }

    // Takes out the edges that were put in at a node.
    fn drop_put_edges(&mut self, id: NodeId) -> Result<(), Memory>
        requires { IsIndexed self.old.rows }
        ensures none { OnOk result (IsLeast (λ edge. was_put_at id (edge_change self.new.rows edge)) None) }
        ensures only { OnOk result ((g : Graph) → StandsOn g self.old → OnlyEdgesAt g id self.old self.new) }
        ensures indexed { OnOk result (IsIndexed self.new.rows) }
    {
        while let Some(edge) = self.rows.first_put_at(id) {
            self.drop_edge(edge)?;
        }
        Ok(())
    }

    /// Removes a node and all edges at it. The graph's edges at the node are walked at most once.
    pub fn detach_node<G: GraphRead, L: Ledger>(
        &mut self,
        graph: &G,
        id: NodeId,
        steps: &mut Steps<L>,
    ) -> Result<(), OpFault>
        requires { StandsOn (G.meaning graph.now) self.old }
        ensures step { Makes result (graph_now (G.meaning graph.now) self.new) (step (graph_now (G.meaning graph.now) self.old) (DetachNode id)) }
        ensures stands { OnOk result (StandsOn (G.meaning graph.now) self.new) }
        ensures lists { OnOk result ((nodes : NodeId → Bool) (edges : EdgeId → Bool) →
            (nodes id ≡ true) × ((edge : EdgeId) → is_at_node id (G.meaning graph.now) edge ≡ true → edges edge ≡ true) →
            Lists nodes edges self.old.rows → Lists nodes edges self.new.rows) }
        ensures no_step_back { steps.old ≤ steps.new }
        ensures looks { steps.new ≤ steps.old + degree_of (G.meaning graph.now) id + 3 }
    {
        if !self.has_node(graph, id, steps) {
            return Err(OpFault::Unable(Cause::NoNode(id)));
        }
        self.drop_old_edges(graph, id, steps)?;
        self.drop_put_edges(id)?;
        self.drop_node(id)?;
        Ok(())
    }
}
