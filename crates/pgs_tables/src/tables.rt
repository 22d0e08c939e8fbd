ghost use Rattle.std.specs.Prelude.{◌≡◌, ◌≤◌, true, None, Some, IfOk, OnOk, OnErr};
ghost use Rattle.pgs_base.specs.Graph.{empty_graph};
ghost use Rattle.pgs_graph.specs.Changed.{changed, is_sound};
ghost use Rattle.pgs_tables.specs.Adjacency.{Suits};
ghost use Rattle.pgs_base.specs.declared.seed.Seed.TheVariants.{Fixed};
ghost use Rattle.pgs_tables.specs.Standing.{most_slots, seeds_by};

use crate::commit::{put_lists, put_nodes, put_rows};
use crate::node_edges::NodeTable;
use crate::relist::make_slots;
use crate::{Numbered, Prepared};
use pgs_base::{EdgeId, EdgeRow, Memory, NodeId, Seed};
use pgs_graph::Delta;
use std::alloc::Global;
use std::marker::Model;
use std::snapshot::Snapshot;

/// A property graph in hashed tables. Contracts see the graph that the tables mean, the delta that they are ready for, if any, how many
/// slots they have, and the seeds by which they hash.
///
/// The delta that they are ready for takes no bytes: it is known to contracts alone.
pub struct Tables {
    pub(crate) alloc: Global,
    pub(crate) seed: Seed,
    pub(crate) nodes: Numbered<NodeId, NodeTable>,
    pub(crate) edges: Numbered<EdgeId, EdgeRow>,
    pub(crate) ready: Option<Snapshot<Delta>>,
}

// Dropped by one function of this crate, so that those above need not prove anew how tables is taken apart.
impl Drop for Tables {
    fn drop(self) {
        let Tables {
            alloc: _,
            seed: _,
            nodes: _,
            edges: _,
            ready: _,
        } = self;
    }
}

impl Model for Tables {
    ghost use Rattle.pgs_tables.specs.Standing.{TablesState, AreTables, graph_of, slot_count};
    ghost use Rattle.pgs_tables.specs.Ready.{ready_for};

    ghost Value = { TablesState };

    ghost view = { λ tables. record { graph = graph_of tables.nodes.rows tables.edges.rows; ready = ready_for tables.ready; slots = slot_count tables.nodes tables.edges; seeds = record { nodes = tables.nodes.seed; edges = tables.edges.seed } } };

    ghost invariant = { λ tables. AreTables tables.nodes tables.edges (ready_for tables.ready) };
}

impl Tables {
    /// The tables of the graph without nodes and edges, hashed by a seed that is fixed. They take no memory.
    pub fn new(alloc: Global) -> Tables
        ensures graph { result.graph ≡ empty_graph }
        ensures ready { result.ready ≡ None }
        ensures slots { result.slots ≡ 0 }
        ensures seeds { result.seeds ≡ seeds_by Fixed }
    {
        Tables::with_seed(alloc, Seed::Fixed)
    }

    /// The same, hashed by a seed of one's own.
    pub fn with_seed(alloc: Global, seed: Seed) -> Tables
        ensures graph { result.graph ≡ empty_graph }
        ensures ready { result.ready ≡ None }
        ensures slots { result.slots ≡ 0 }
        ensures seeds { result.seeds ≡ seeds_by seed }
    {
        Tables {
            alloc,
            seed,
            nodes: Numbered::new(alloc, seed),
            edges: Numbered::new(alloc, seed),
            ready: None,
        }
    }

    /// Takes all memory that a sound delta needs, so that `commit` needs none. The graph stays as it is. An Ok makes the tables ready
    /// for the delta; after `Memory` they are ready for none. In both cases they have at most two slots for each node and edge, and one
    /// for each change of the delta.
    pub fn prepare(&mut self, delta: Delta) -> Result<Prepared, Memory>
        requires { is_sound self.old.graph delta ≡ true }
        ensures graph { self.new.graph ≡ self.old.graph }
        ensures delta { IfOk result (λ prepared. prepared.delta ≡ delta) }
        ensures suits { IfOk result (Suits self.old.graph) }
        ensures ready { OnOk result (self.new.ready ≡ Some delta) }
        ensures err { OnErr result (self.new.ready ≡ None) }
        ensures slots { self.new.slots ≤ most_slots self.old.graph delta }
        ensures seeds { self.new.seeds ≡ self.old.seeds }
    {
        self.make_room(&delta)?;
        match self.relisted_edges(&delta) {
            Ok(lists) => Ok(Prepared { delta, lists }),
            Err(fault) => {
                self.ready = None;
                Err(fault)
            }
        }
    }

    // Makes a slot for each number of a delta. Empty slots are taken out first, where they are more than half.
    fn make_room(&mut self, delta: &Delta) -> Result<(), Memory>
        ensures graph { self.new.graph ≡ self.old.graph }
        ensures ready { OnOk result (self.new.ready ≡ Some delta.now) }
        ensures err { OnErr result (self.new.ready ≡ None) }
        ensures slots { self.new.slots ≤ most_slots self.old.graph delta.now }
        ensures seeds { self.new.seeds ≡ self.old.seeds }
    {
        self.ready = None;
        self.nodes.clear_slots();
        self.edges.clear_slots();
        make_slots(&mut self.nodes, delta.nodes.as_slice())?;
        make_slots(&mut self.edges, delta.edges.as_slice())?;
        self.ready = Some(Snapshot::of(delta));
        Ok(())
    }

    /// Puts in a delta that the tables are ready for, so that they mean the changed graph. It makes no slot, takes no memory and can't be
    /// refused.
    pub fn commit(&mut self, prepared: Prepared)
        requires ready { self.old.ready ≡ Some prepared.delta }
        requires suits { Suits self.old.graph prepared }
        ensures graph { self.new.graph ≡ changed self.old.graph prepared.delta }
        ensures ready { self.new.ready ≡ None }
        ensures slots { self.new.slots ≡ self.old.slots }
        ensures seeds { self.new.seeds ≡ self.old.seeds }
    {
        let Prepared { delta, lists } = prepared;
        let Delta { nodes, edges } = delta;
        self.ready = None;
        put_rows(&mut self.edges, edges.into_vec());
        put_nodes(&mut self.nodes, self.alloc, nodes.into_vec());
        put_lists(&mut self.nodes, lists.into_vec());
    }
}
