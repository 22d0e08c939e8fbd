ghost use Rattle.std.specs.Prelude.{◌≡◌, ◌↔◌, [], ◌∷◌, IsTrue, Some, refl};
ghost use Rattle.std.specs.Ordering.{eq_by_cmp};
ghost use Rattle.std.specs.Cmp.{partial_equiv_from_equiv, eq_by_cmp_equiv, po};
ghost use Rattle.pgs_base.specs.Order.{tuple_cmp};
ghost use Rattle.pgs_base.specs.OrderLaws.{tuple_cmp_total};

use crate::{Copyable, List, Memory, Part};
use std::alloc::Global;
use std::cmp::Ordering;
use std::marker::Model;
use std::slice;

/// A tuple: its parts in order. Tuples go part by part, and a proper prefix comes first.
///
/// A tuple of one part takes no memory beside the part's own.
#[derive(Debug)]
pub struct Tuple {
    parts: Parts,
}

// Nearly every tuple has one part, so that one part lies in the tuple itself.
#[derive(Debug, Drop)]
pub(crate) enum Parts {
    One(Part),
    Many(List<Part>),
}

impl Model for Tuple {
    ghost use Rattle.std.specs.Prelude.{List as Items};
    ghost use Rattle.pgs_base.specs.declared.part.Part.{Part};
    ghost use Rattle.pgs_base.specs.Parts.{parts_of};

    ghost Value = { Items Part };

    ghost view = { λ tuple. parts_of tuple.parts };
}

// Dropped here, so that crates above need not prove what it holds.
impl Drop for Tuple {
    fn drop(self) {
        let Tuple { parts: _ } = self;
    }
}

impl Tuple {
    /// The tuple of these parts.
    pub fn new(parts: List<Part>) -> Tuple
        ensures { result ≡ parts }
    {
        if parts.len() != 1 {
            let parts = Parts::Many(parts);
            return Tuple { parts };
        }
        let mut parts = parts.into_vec();
        match parts.pop() {
            Some(part) => Tuple::one(part),
            None => Tuple {
                parts: Parts::Many(List::from_vec(parts)),
            },
        }
    }

    /// The tuple of one part. It takes no memory.
    pub fn one(part: Part) -> Tuple
        ensures { result ≡ part ∷ [] }
    {
        let parts = Parts::One(part);
        Tuple { parts }
    }

    /// The parts of the tuple, in order.
    pub fn parts(&self) -> &[Part]
        ensures { result.now ≡ self.now }
    {
        match &self.parts {
            Parts::One(part) => slice::from_ref(part),
            Parts::Many(parts) => parts.as_slice(),
        }
    }
}

impl Copyable for Tuple {
    fn copy(&self, alloc: Global) -> Result<Tuple, Memory> {
        let parts = self.parts.copy(alloc)?;
        Ok(Tuple { parts })
    }
}

impl Copyable for Parts {
    fn copy(&self, alloc: Global) -> Result<Parts, Memory> {
        match self {
            Parts::One(part) => {
                let part = part.copy(alloc)?;
                Ok(Parts::One(part))
            }
            Parts::Many(parts) => {
                let parts = parts.copy(alloc)?;
                Ok(Parts::Many(parts))
            }
        }
    }
}

impl PartialEq for Tuple {
    ghost eq = { eq_by_cmp tuple_cmp };

    ghost laws = { partial_equiv_from_equiv (eq_by_cmp_equiv tuple_cmp_total) };

    #[tactic(auto, using(crate::specs::OrderLaws::tuple_eq_decides))]
    fn eq(&self, other: &Tuple) -> bool
        ensures value { result ≡ eq_by_cmp tuple_cmp self.now other.now }
        ensures same { IsTrue result ↔ (self.now ≡ other.now) }
    {
        self.cmp(other).is_eq()
    }
}

impl Eq for Tuple {
    ghost laws = { eq_by_cmp_equiv tuple_cmp_total };
}

impl PartialOrd for Tuple {
    ghost partial_cmp = { λ a b. Some (tuple_cmp a b) };

    ghost laws = { po tuple_cmp_total (λ a b. refl) };

    fn partial_cmp(&self, other: &Tuple) -> Option<Ordering> {
        Some(self.cmp(other))
    }
}

impl Ord for Tuple {
    ghost cmp = { tuple_cmp };

    ghost total = { tuple_cmp_total };

    ghost matches_partial_cmp = { λ a b. refl };

    ghost matches_eq = { λ a b. refl };

    fn cmp(&self, other: &Tuple) -> Ordering {
        self.parts().cmp(other.parts())
    }
}
