ghost use Rattle.pgs_tables.specs.Standing.{TablesState};

use crate::Tables;
use pgs_base::{EdgeId, List, Memory, NodeId, Steps};
use pgs_graph::{EdgeRef, GraphRead, NodeRef, tick_each};
use std::alloc::Global;
use std::sync::ledger::Ledger;

impl GraphRead for Tables {
    ghost meaning = { λ tables. tables.graph };

    fn node<L: Ledger>(&self, id: NodeId, steps: &mut Steps<L>) -> Option<NodeRef<'_>> {
        steps.tick();
        match self.nodes.get(id) {
            Some(table) => Some(NodeRef::of(&table.row)),
            None => None,
        }
    }

    fn edge<L: Ledger>(&self, id: EdgeId, steps: &mut Steps<L>) -> Option<EdgeRef<'_>> {
        steps.tick();
        match self.edges.get(id) {
            Some(row) => Some(EdgeRef::of(row)),
            None => None,
        }
    }

    fn out_edge<L: Ledger>(&self, id: NodeId, nth: usize, steps: &mut Steps<L>) -> Option<EdgeId> {
        steps.tick();
        match self.nodes.get(id) {
            Some(table) => table.edges.outgoing.at(nth),
            None => None,
        }
    }

    fn in_edge<L: Ledger>(&self, id: NodeId, nth: usize, steps: &mut Steps<L>) -> Option<EdgeId> {
        steps.tick();
        match self.nodes.get(id) {
            Some(table) => table.edges.incoming.at(nth),
            None => None,
        }
    }

    fn node_ids<L: Ledger>(
        &self,
        alloc: Global,
        steps: &mut Steps<L>,
    ) -> Result<List<NodeId>, Memory> {
        let ids = self.nodes.ids(alloc)?;
        tick_each(steps, ids.len());
        Ok(ids)
    }

    fn edge_ids<L: Ledger>(
        &self,
        alloc: Global,
        steps: &mut Steps<L>,
    ) -> Result<List<EdgeId>, Memory> {
        let ids = self.edges.ids(alloc)?;
        tick_each(steps, ids.len());
        Ok(ids)
    }

    fn count(&self) -> u64 {
        self.nodes.len() as u64 + self.edges.len() as u64
    }
}
