ghost use Rattle.std.specs.Prelude.{◌≡◌, ◌+◌, ◌^◌, ◌<◌, length, slice_get};
ghost use Rattle.std.specs.List.Sorted.{IsStrictlySortedBy};
ghost use Rattle.pgs_base.specs.Graph.{edge_cmp};
ghost use Rattle.pgs_overlay.specs.Sides.{edges_at};

use crate::side::Side;
use pgs_base::{EdgeId, NodeId, Steps};
use pgs_graph::GraphRead;
use std::marker::Model;
use std::sync::ledger::Ledger;

/// One of the two lists of edges at a node of the base. Contracts see the edges.
#[derive(Drop)]
pub(crate) struct BaseList<'a, B: GraphRead> {
    base: &'a B,
    side: Side,
    id: NodeId,
}

impl<'a, B: GraphRead> Model for BaseList<'a, B> {
    ghost use Rattle.std.specs.Prelude.{List};
    ghost use Rattle.pgs_base.specs.declared.element.EdgeId.{EdgeId};
    ghost use Rattle.pgs_overlay.specs.Sides.{edges_at};

    ghost Value = { List EdgeId };

    ghost view = { λ list. edges_at list.side list.id (B.meaning list.base.now).edges };
}

impl<'a, B: GraphRead> BaseList<'a, B> {
    /// The list of a node on a side.
    pub fn new(base: &'a B, side: Side, id: NodeId) -> BaseList<'a, B>
        ensures { result ≡ edges_at side id (B.meaning base.now).edges }
    {
        BaseList { base, side, id }
    }

    /// The edge at a place, with one tick. `None` exactly past the last.
    pub fn at<L: Ledger>(&self, place: usize, steps: &mut Steps<L>) -> Option<EdgeId>
        ensures value { result ≡ slice_get self.now place }
        ensures tick { steps.new ≡ steps.old + 1 }
        ensures ascending { IsStrictlySortedBy edge_cmp self.now }
    {
        match self.side {
            Side::Out => self.base.out_edge(self.id, place, steps),
            Side::In => self.base.in_edge(self.id, place, steps),
        }
    }

    /// What every such list meets: a `usize` holds its length. Nothing is done.
    pub fn facts(&self)
        ensures { length self.now < 2 ^ 64 }
    {
        let _count = self.base.count();
    }
}
