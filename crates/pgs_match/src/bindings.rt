ghost use Rattle.std.specs.Prelude.{◌≡◌, ◌<◌, replicate, length, Some, None};
ghost use Rattle.pgs_match.specs.Bounds.{elem_of, bound_at, with_bound, nothing_bound};

use pgs_base::{EdgeId, Elem, NodeId};
use std::marker::Model;

/// The most variables that a pattern has.
pub const MOST_VARIABLES: usize = 20;

/// To what a variable is bound: a node, or an edge with its ends.
#[derive(Clone, Copy)]
pub enum Bound {
    Node(NodeId),
    Edge {
        id: EdgeId,
        source: NodeId,
        target: NodeId,
    },
}

impl Bound {
    /// The element.
    pub fn elem(self) -> Elem
        ensures { result ≡ elem_of self }
    {
        match self {
            Bound::Node(id) => Elem::Node(id),
            Bound::Edge { id, .. } => Elem::Edge(id),
        }
    }
}

/// To what each variable of a pattern is bound, as far as it is. Contracts see a list of 20 options.
#[derive(Drop)]
pub struct Bindings {
    bounds: [Option<Bound>; MOST_VARIABLES],
}

impl Model for Bindings {
    ghost use Rattle.std.specs.Prelude.{◌≡◌, List, Option, length};
    ghost use Rattle.pgs_match.specs.declared.bindings.Bound.{Bound};

    ghost Value = { List (Option Bound) };

    ghost view = { λ bindings. bindings.bounds };

    ghost invariant = { λ bindings. length bindings.bounds ≡ 20 };
}

impl Bindings {
    /// No variable is bound.
    pub(crate) fn none() -> Bindings
        ensures { result ≡ nothing_bound }
    {
        Bindings {
            bounds: [None; MOST_VARIABLES],
        }
    }

    /// One variable is bound, and no other.
    pub fn alone(var: u32, bound: Bound) -> Bindings
        requires { var < 20 }
        ensures { result ≡ with_bound nothing_bound var bound }
    {
        let mut bounds = [None; MOST_VARIABLES];
        bounds[var as usize] = Some(bound);
        Bindings { bounds }
    }

    /// To what a variable is bound. `None` exactly where it is not.
    pub fn at(&self, var: u32) -> Option<Bound>
        ensures { result ≡ bound_at self.now var }
    {
        match self.bounds.get(var as usize) {
            Some(bound) => *bound,
            None => None,
        }
    }

    /// The bindings with one variable bound, and not as it was before. A variable past the last is left out.
    pub fn with(&self, var: u32, bound: Bound) -> Bindings
        ensures { result ≡ with_bound self.now var bound }
    {
        let mut bounds = self.bounds;
        if (var as usize) < MOST_VARIABLES {
            bounds[var as usize] = Some(bound);
        }
        Bindings { bounds }
    }
}
