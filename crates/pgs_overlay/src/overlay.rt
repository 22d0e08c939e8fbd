ghost use Rattle.std.specs.Prelude.{◌≡◌, ◌+◌, ◌*◌, ◌^◌, ◌<◌, ◌≤◌, ℕ, true, IfOk};
ghost use Rattle.pgs_graph.specs.Changed.{changed, is_sound};
ghost use Rattle.pgs_overlay.specs.Standing.{HasDegreesWithin, row_count};

use crate::counting::count_nodes;
use crate::node_lists::NodeLists;
use pgs_base::{Memory, Steps};
use pgs_graph::{Delta, GraphRead};
use pgs_tables::Tables;
use std::alloc::Global;
use std::marker::Model;
use std::sync::ledger::Ledger;

/// A pending change seen as a graph: a base with the rows of a sound delta in place of its own. Contracts see the changed graph.
#[derive(Drop)]
pub struct Overlay<'a, B: GraphRead = Tables> {
    pub(crate) base: &'a B,
    pub(crate) delta: &'a Delta,
    pub(crate) lists: NodeLists,
    pub(crate) count: u64,
}

impl<'a, B: GraphRead> Model for Overlay<'a, B> {
    ghost use Rattle.pgs_base.specs.Graph.{Graph};
    ghost use Rattle.pgs_graph.specs.Changed.{changed};
    ghost use Rattle.pgs_overlay.specs.Standing.{IsOverlay};

    ghost Value = { Graph };

    ghost view = { λ overlay. changed (B.meaning overlay.base.now) overlay.delta.now };

    ghost invariant = { λ overlay. IsOverlay (B.meaning overlay.base.now) overlay.delta.now overlay.lists.outgoing
        overlay.lists.incoming overlay.count };
}

impl<'a, B: GraphRead> Overlay<'a, B> {
    /// A sound delta over a base, which stays as it is. Each row of the delta is looked up once in the base, and each change of an edge looks
    /// its place up in the lists of the nodes at its old and its new ends, by doubling and halving. `Memory` where none was left.
    pub fn new<L: Ledger>(
        alloc: Global,
        base: &'a B,
        delta: &'a Delta,
        steps: &mut Steps<L>,
    ) -> Result<Overlay<'a, B>, Memory>
        requires { is_sound (B.meaning base.now) delta.now ≡ true }
        ensures graph { IfOk result (λ overlay. overlay ≡ changed (B.meaning base.now) delta.now) }
        ensures no_step_back { steps.old ≤ steps.new }
        ensures logarithmic { (most k : ℕ) → most < 2 ^ k → HasDegreesWithin (B.meaning base.now) delta.now most →
            steps.new ≤ steps.old + (8 * k + 17) * row_count delta.now }
        ensures cost { (most : ℕ) → HasDegreesWithin (B.meaning base.now) delta.now most →
            steps.new ≤ steps.old + 16 * (row_count delta.now + 1) * (most + 2) }
    {
        let before = base.count();
        let nodes_counted = count_nodes(base, delta.nodes.as_slice(), before, steps)?;
        let (lists, count) = NodeLists::edited(
            alloc,
            base,
            delta.edges.as_slice(),
            nodes_counted,
            steps,
        )?;
        Ok(Overlay {
            base,
            delta,
            lists,
            count,
        })
    }
}
