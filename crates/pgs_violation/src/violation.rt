ghost use Rattle.std.specs.Prelude.{◌≡◌, ◌↔◌, IsTrue, Some, refl};
ghost use Rattle.std.specs.Ordering.{eq_by_cmp};
ghost use Rattle.std.specs.Cmp.{partial_equiv_from_equiv, eq_by_cmp_equiv, po};
ghost use Rattle.pgs_violation.specs.Standing.{violation_cmp, key_of, number_of, elem_of, carried_cmp};
ghost use Rattle.pgs_violation.specs.StandingLaws.{violation_cmp_total};

use pgs_base::{EdgeId, Elem, NodeId, Tuple};
use std::cmp::Ordering;

/// Why a graph doesn't conform to a schema. Keys are numbered from 1. Violations go as they stand in the list of a
/// graph's violations: 25 and 26 first, then key by key 27, 28, 29 and 39, each by its least element.
#[derive(Debug, Drop)]
pub enum Violation {
    /// 25: the node fits no type.
    UntypedNode {
        node: NodeId,
    },
    /// 26: the edge fits no type.
    UntypedEdge {
        edge: EdgeId,
    },
    /// 27: the element of the key's scope has no key value.
    Mandatory {
        key: u32,
        elem: Elem,
    },
    /// 28: the element of the scope has several key values, of which these are the two least.
    Singleton {
        key: u32,
        elem: Elem,
        first: Tuple,
        second: Tuple,
    },
    /// 29: the two elements of the scope share a key value. `second` is the least element after `first` that shares one
    /// with it, and `tuple` the least that the two share.
    Exclusive {
        key: u32,
        first: Elem,
        second: Elem,
        tuple: Tuple,
    },
    /// 39: the element of the scope has `count` different key values, fewer than `least` or more than `most`.
    CountOutside {
        key: u32,
        elem: Elem,
        count: u64,
        least: u32,
        most: u32,
    },
}

impl Violation {
    // The number of the key, or 0 where no key is violated.
    fn key(&self) -> u32
        ensures { result ≡ key_of self.now }
    {
        match self {
            Violation::UntypedNode { .. } | Violation::UntypedEdge { .. } => 0,
            Violation::Mandatory { key, .. }
            | Violation::Singleton { key, .. }
            | Violation::Exclusive { key, .. }
            | Violation::CountOutside { key, .. } => *key,
        }
    }

    /// The number of the violation: 25 to 29, or 39.
    pub fn number(&self) -> u8
        ensures { result ≡ number_of self.now }
    {
        match self {
            Violation::UntypedNode { .. } => 25,
            Violation::UntypedEdge { .. } => 26,
            Violation::Mandatory { .. } => 27,
            Violation::Singleton { .. } => 28,
            Violation::Exclusive { .. } => 29,
            Violation::CountOutside { .. } => 39,
        }
    }

    // The least element that is at fault.
    fn elem(&self) -> Elem
        ensures { result ≡ elem_of self.now }
    {
        match self {
            Violation::UntypedNode { node } => Elem::Node(*node),
            Violation::UntypedEdge { edge } => Elem::Edge(*edge),
            Violation::Mandatory { elem, .. }
            | Violation::Singleton { elem, .. }
            | Violation::CountOutside { elem, .. } => *elem,
            Violation::Exclusive { first, .. } => *first,
        }
    }

    // How what two violations of one kind carry compares.
    fn carried_cmp(&self, other: &Violation) -> Ordering
        ensures { result ≡ carried_cmp self.now other.now }
    {
        match (self, other) {
            (
                Violation::Singleton { first, second, .. },
                Violation::Singleton {
                    first: other_first,
                    second: other_second,
                    ..
                },
            ) => first.cmp(other_first).then(second.cmp(other_second)),
            (
                Violation::Exclusive { second, tuple, .. },
                Violation::Exclusive {
                    second: other_second,
                    tuple: other_tuple,
                    ..
                },
            ) => second.cmp(other_second).then(tuple.cmp(other_tuple)),
            (
                Violation::CountOutside {
                    count,
                    least,
                    most,
                    ..
                },
                Violation::CountOutside {
                    count: other_count,
                    least: other_least,
                    most: other_most,
                    ..
                },
            ) => count
                .cmp(other_count)
                .then(least.cmp(other_least))
                .then(most.cmp(other_most)),
            _ => Ordering::Equal,
        }
    }
}

impl PartialEq for Violation {
    ghost eq = { eq_by_cmp violation_cmp };

    ghost laws = { partial_equiv_from_equiv (eq_by_cmp_equiv violation_cmp_total) };

    #[tactic(auto, using(crate::specs::StandingLaws::violation_eq_decides))]
    fn eq(&self, other: &Violation) -> bool
        ensures value { result ≡ eq_by_cmp violation_cmp self.now other.now }
        ensures same { IsTrue result ↔ (self.now ≡ other.now) }
    {
        self.cmp(other).is_eq()
    }
}

impl Eq for Violation {
    ghost laws = { eq_by_cmp_equiv violation_cmp_total };
}

impl PartialOrd for Violation {
    ghost partial_cmp = { λ a b. Some (violation_cmp a b) };

    ghost laws = { po violation_cmp_total (λ a b. refl) };

    fn partial_cmp(&self, other: &Violation) -> Option<Ordering> {
        Some(self.cmp(other))
    }
}

impl Ord for Violation {
    ghost cmp = { violation_cmp };

    ghost total = { violation_cmp_total };

    ghost matches_partial_cmp = { λ a b. refl };

    ghost matches_eq = { λ a b. refl };

    fn cmp(&self, other: &Violation) -> Ordering {
        self.key()
            .cmp(&other.key())
            .then(self.number().cmp(&other.number()))
            .then(self.elem().cmp(&other.elem()))
            .then(self.carried_cmp(other))
    }
}

/// The judgement of a graph: its first violation, or that it conforms.
#[derive(PartialEq, Eq, Drop)]
pub enum Verdict {
    Conforms,
    Refused(Violation),
}
