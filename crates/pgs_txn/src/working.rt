//! A graph in the middle of a transaction, as the rows that were changed since its start: what stands there, and edits of one element.

ghost use Rattle.std.specs.Prelude.{◌≡◌, ◌+◌, ◌≤◌, [], true, Bool, IfOk, OnOk, None, is_some, option_map};
ghost use Rattle.std.specs.BTreeMap.{insert_entry};
ghost use Rattle.pgs_base.specs.declared.element.NodeId.{NodeId};
ghost use Rattle.pgs_base.specs.declared.element.EdgeId.{EdgeId};
ghost use Rattle.pgs_base.specs.Graph.{node_cmp, edge_cmp, node_at, edge_at};
ghost use Rattle.pgs_base.specs.Pair.{pair_of};
ghost use Rattle.pgs_graph.specs.Reads.{edge_row};
ghost use Rattle.pgs_violation.specs.Staging.{found_or, node_or_fault, edge_or_fault};
ghost use Rattle.pgs_txn.specs.Answers.{Gives, Makes};
ghost use Rattle.pgs_txn.specs.Edits.{with_edited_node, with_edited_edge};
ghost use Rattle.pgs_txn.specs.Rows.{delta_of, IsIndexed};
ghost use Rattle.pgs_txn.specs.Working.{StandsOn, graph_now, Lists};

use crate::changed_rows::ChangedRows;
use crate::edit::Edit;
use crate::faults::OpFault;
use pgs_base::{Copyable, EdgeId, EdgeRow, Memory, NodeId, NodeRow, Steps};
use pgs_graph::{EdgeRef, GraphRead, NodeRef};
use pgs_violation::Cause;
use std::alloc::Global;
use std::collections::BTreeSet;
use std::sync::ledger::Ledger;

/// The changes that a transaction has made to a graph so far.
#[derive(Drop)]
pub(crate) struct Working {
    /// The changed rows.
    pub rows: ChangedRows,
    /// Nodes all of whose edges in the graph at the start were changed: there is no need to look for them again.
    pub cleared: BTreeSet<NodeId>,
    /// How many nodes and edges there are so far.
    pub count: u64,
}

// A row that is there, or the cause that it isn't.
fn found<T: Drop>(row: Option<T>, cause: Cause) -> Result<T, OpFault>
    ensures { Gives result (found_or cause row) }
{
    match row {
        Some(row) => Ok(row),
        None => Err(OpFault::Unable(cause)),
    }
}

fn node_copy(alloc: Global, node: Option<NodeRef<'_>>) -> Result<Option<NodeRow>, Memory>
    ensures { IfOk result (λ row. row ≡ option_map (λ node. pair_of node.labels.now node.props.now) node.entry) }
{
    let Some(node) = node else {
        return Ok(None);
    };
    let labels = node.labels.copy(alloc)?;
    let props = node.props.copy(alloc)?;
    Ok(Some(NodeRow { labels, props }))
}

fn edge_copy(alloc: Global, edge: Option<EdgeRef<'_>>) -> Result<Option<EdgeRow>, Memory>
    ensures { IfOk result (λ row. row ≡ option_map (λ edge. edge_row edge.source edge.target edge.labels.now edge.props.now) edge.entry) }
{
    let Some(edge) = edge else {
        return Ok(None);
    };
    let labels = edge.labels.copy(alloc)?;
    let props = edge.props.copy(alloc)?;
    Ok(Some(EdgeRow {
        source: edge.source,
        target: edge.target,
        labels,
        props,
    }))
}

impl Working {
    /// No changes of a graph, in a form that suits about so many changes.
    pub fn new<G: GraphRead>(alloc: Global, graph: &G, changes: usize) -> Working
        ensures none { delta_of result.rows ≡ record { nodes = []; edges = [] } }
        ensures stands { StandsOn (G.meaning graph.now) result }
    {
        Working {
            rows: ChangedRows::new(alloc, changes),
            cleared: BTreeSet::new(alloc),
            count: graph.count(),
        }
    }

    /// Whether a node is there. At most one look at the graph.
    pub fn has_node<G: GraphRead, L: Ledger>(
        &self,
        graph: &G,
        id: NodeId,
        steps: &mut Steps<L>,
    ) -> bool
        requires { StandsOn (G.meaning graph.now) self.now }
        ensures value { result ≡ is_some (node_at (graph_now (G.meaning graph.now) self.now) id) }
        ensures no_step_back { steps.old ≤ steps.new }
        ensures one_look { steps.new ≤ steps.old + 1 }
    {
        match self.rows.nodes.get(&id) {
            Some(change) => change.is_some(),
            None => match graph.node(id, steps) {
                Some(_) => true,
                None => false,
            },
        }
    }

    /// Whether an edge is there. At most one look at the graph.
    pub fn has_edge<G: GraphRead, L: Ledger>(
        &self,
        graph: &G,
        id: EdgeId,
        steps: &mut Steps<L>,
    ) -> bool
        requires { StandsOn (G.meaning graph.now) self.now }
        ensures value { result ≡ is_some (edge_at (graph_now (G.meaning graph.now) self.now) id) }
        ensures no_step_back { steps.old ≤ steps.new }
        ensures one_look { steps.new ≤ steps.old + 1 }
    {
        match self.rows.edges.get(&id) {
            Some(change) => change.is_some(),
            None => match graph.edge(id, steps) {
                Some(_) => true,
                None => false,
            },
        }
    }

    // Takes the row of a node out; it is copied where it wasn't changed before.
    fn take_node<G: GraphRead, L: Ledger>(
        &mut self,
        alloc: Global,
        graph: &G,
        id: NodeId,
        steps: &mut Steps<L>,
    ) -> Result<NodeRow, OpFault>
        requires { StandsOn (G.meaning graph.now) self.old }
        ensures row { Gives result (node_or_fault (graph_now (G.meaning graph.now) self.old) id) }
        ensures nodes { OnOk result (self.new.rows.nodes ≡ insert_entry node_cmp self.old.rows.nodes id None) }
        ensures edges { self.new.rows.edges ≡ self.old.rows.edges }
        ensures cleared { self.new.cleared ≡ self.old.cleared }
        ensures count { self.new.count ≡ self.old.count }
        ensures indexed { OnOk result (IsIndexed self.new.rows) }
        ensures no_step_back { steps.old ≤ steps.new }
        ensures one_look { steps.new ≤ steps.old + 1 }
    {
        match self.rows.put_node(id, None)? {
            Some(row) => found(row, Cause::NoNode(id)),
            None => {
                let row = node_copy(alloc, graph.node(id, steps))?;
                found(row, Cause::NoNode(id))
            }
        }
    }

    // Takes the row of an edge out; it is copied where it wasn't changed before.
    fn take_edge<G: GraphRead, L: Ledger>(
        &mut self,
        alloc: Global,
        graph: &G,
        id: EdgeId,
        steps: &mut Steps<L>,
    ) -> Result<EdgeRow, OpFault>
        requires { StandsOn (G.meaning graph.now) self.old }
        ensures row { Gives result (edge_or_fault (graph_now (G.meaning graph.now) self.old) id) }
        ensures edges { OnOk result (self.new.rows.edges ≡ insert_entry edge_cmp self.old.rows.edges id None) }
        ensures nodes { self.new.rows.nodes ≡ self.old.rows.nodes }
        ensures cleared { self.new.cleared ≡ self.old.cleared }
        ensures count { self.new.count ≡ self.old.count }
        ensures indexed { OnOk result (IsIndexed self.new.rows) }
        ensures no_step_back { steps.old ≤ steps.new }
        ensures one_look { steps.new ≤ steps.old + 1 }
    {
        match self.rows.take_edge(id)? {
            Some(row) => found(row, Cause::NoEdge(id)),
            None => {
                let row = edge_copy(alloc, graph.edge(id, steps))?;
                found(row, Cause::NoEdge(id))
            }
        }
    }

    /// Changes what a node carries. At most one look at the graph.
    pub fn edit_node<G: GraphRead, L: Ledger>(
        &mut self,
        alloc: Global,
        graph: &G,
        id: NodeId,
        edit: &Edit<'_>,
        steps: &mut Steps<L>,
    ) -> Result<(), OpFault>
        requires { StandsOn (G.meaning graph.now) self.old }
        ensures step { Makes result (graph_now (G.meaning graph.now) self.new) (with_edited_node edit.now (graph_now (G.meaning graph.now) self.old) id) }
        ensures stands { OnOk result (StandsOn (G.meaning graph.now) self.new) }
        ensures lists { OnOk result ((nodes : NodeId → Bool) (edges : EdgeId → Bool) → nodes id ≡ true → Lists nodes edges self.old.rows → Lists nodes edges self.new.rows) }
        ensures no_step_back { steps.old ≤ steps.new }
        ensures one_look { steps.new ≤ steps.old + 1 }
    {
        let row = self.take_node(alloc, graph, id, steps)?;
        let edited = edit.node(alloc, row)?;
        self.rows.put_node(id, Some(edited))?;
        Ok(())
    }

    /// Changes what an edge carries. At most one look at the graph.
    pub fn edit_edge<G: GraphRead, L: Ledger>(
        &mut self,
        alloc: Global,
        graph: &G,
        id: EdgeId,
        edit: &Edit<'_>,
        steps: &mut Steps<L>,
    ) -> Result<(), OpFault>
        requires { StandsOn (G.meaning graph.now) self.old }
        ensures step { Makes result (graph_now (G.meaning graph.now) self.new) (with_edited_edge edit.now (graph_now (G.meaning graph.now) self.old) id) }
        ensures stands { OnOk result (StandsOn (G.meaning graph.now) self.new) }
        ensures lists { OnOk result ((nodes : NodeId → Bool) (edges : EdgeId → Bool) → edges id ≡ true → Lists nodes edges self.old.rows → Lists nodes edges self.new.rows) }
        ensures no_step_back { steps.old ≤ steps.new }
        ensures one_look { steps.new ≤ steps.old + 1 }
    {
        let row = self.take_edge(alloc, graph, id, steps)?;
        let edited = edit.edge(alloc, row)?;
        self.rows.put_edge(id, edited)?;
        Ok(())
    }
}
