//! What was noted of nodes on a way to one variable, and off it.

ghost use Rattle.std.specs.Prelude.{◌≡◌, ◌⊎◌, ℕ, List as Items, false, None, Some, option_map};
ghost use Rattle.pgs_base.specs.declared.element.NodeId.{NodeId};
ghost use Rattle.pgs_base.specs.Graph.{Graph};
ghost use Rattle.pgs_syntax.specs.declared.pattern.Atom.{Atom};
ghost use Rattle.pgs_syntax.specs.declared.resolved.Resolved.{Resolved};
ghost use Rattle.pgs_match.specs.declared.notes.Link.{Link};
ghost use Rattle.pgs_match.specs.declared.step.Step.{Step};
ghost use Rattle.pgs_match.specs.Answers.{noted};
ghost use Rattle.pgs_match.specs.Frontier.{linked, AreNoted};

use crate::answers::Answers;
use pgs_base::{List, Memory, NodeId};
use std::alloc::Global;
use std::collections::BTreeMap;

/// From a node over an edge to the node at its other end: the variables of the edge and of that end, and which ends of the edge these are.
#[derive(Clone, Copy, PartialEq, Eq)]
pub(crate) struct Hop {
    pub(crate) edge: u32,
    /// The edge goes out of the node from which one comes.
    pub(crate) forward: bool,
    pub(crate) node: u32,
    /// The node is the source of the edge.
    pub(crate) source: bool,
}

/// The nodes to which a hop leads from a node.
#[derive(Drop)]
pub(crate) struct Link {
    pub(crate) hop: Hop,
    pub(crate) ids: List<NodeId>,
}

/// Of nodes from which a way goes on, by the variable of the edge: the nodes behind them, as far as it was noted.
#[derive(Drop)]
pub(crate) struct Links {
    by_place: BTreeMap<(u32, u64), Link>,
}

/// What was noted of nodes: at variables on a way, whether each is admitted there and can be given all that hangs there off the way; at
/// variables off the way, whether it can be given all that hangs there; and the nodes behind nodes on the way.
pub(crate) struct Notes {
    pub(crate) on: Answers,
    pub(crate) off: Answers,
    pub(crate) links: Links,
}

// Dropped by one function, so that no other function need prove anew how notes are taken apart.
impl Drop for Notes {
    fn drop(self) {
        let Notes {
            on: _,
            off: _,
            links: _,
        } = self;
    }
}

impl Links {
    /// None is noted. It takes no memory.
    pub(crate) fn new(alloc: Global) -> Links
        ensures { (var : ℕ) (from : NodeId) → linked result var from ≡ None }
    {
        Links {
            by_place: BTreeMap::new(alloc),
        }
    }

    /// What was noted of a node at an edge variable, if anything was.
    pub(crate) fn of(&self, var: u32, from: NodeId) -> Option<&Link>
        ensures { option_map (λ link. link.now) result ≡ linked self.now var from }
    {
        self.by_place.get(&(var, from.0))
    }

    /// Notes the nodes behind a node. Where there is no memory for it all is as before.
    pub(crate) fn note(&mut self, hop: Hop, from: NodeId, ids: List<NodeId>) -> Result<(), Memory>
        ensures { (var : ℕ) (of : NodeId) (link : Link) → linked self.new var of ≡ Some link →
            (linked self.old var of ≡ Some link) ⊎ ((link.hop ≡ hop) × (link.ids ≡ ids) × (of ≡ from)) }
    {
        let _former = self.by_place.insert((hop.edge, from.0), Link { hop, ids })?;
        Ok(())
    }
}

impl Notes {
    /// Nothing is noted. It takes no memory.
    pub(crate) fn new(alloc: Global) -> Notes
        ensures right { (resolved : Resolved) (g : Graph) (atoms : Items Atom) (off : Items Step) → AreNoted resolved g atoms off result }
        ensures none { (var : ℕ) (id : NodeId) → (noted result.on var id ≡ None) × (noted result.off var id ≡ None) }
        ensures room { (result.on.is_full ≡ false) × (result.off.is_full ≡ false) }
    {
        Notes {
            on: Answers::new(alloc),
            off: Answers::new(alloc),
            links: Links::new(alloc),
        }
    }
}
