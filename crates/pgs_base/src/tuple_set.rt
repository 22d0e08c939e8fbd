ghost use Rattle.std.specs.Prelude.{◌≡◌, ◌<◌, ◌↔◌, [], ◌∷◌, length, not, slice_get, IfOk, OnErr, OnOk, OnSome, IsTrue, false};
ghost use Rattle.std.specs.Option.{option_copied};
ghost use Rattle.std.specs.List.{list_any};
ghost use Rattle.std.specs.List.Sorted.{IsStrictlySortedBy};
ghost use Rattle.std.specs.BTreeMap.{is_at};
ghost use Rattle.std.specs.BTreeSet.{insert_key};
ghost use Rattle.pgs_base.specs.Order.{tuple_cmp};

use crate::{Copyable, Memory, Ordered, Tuple};
use std::alloc::Global;
use std::marker::Model;
use std::slice;

/// A set of tuples. Contracts see it as a list of tuples that ascends strictly.
///
/// A set of one tuple takes no memory beside the tuple's own.
pub struct TupleSet {
    alloc: Global,
    kept: Kept,
}

// Nearly every element has one key value, so that one tuple lies in the set itself.
#[derive(Drop)]
pub(crate) enum Kept {
    One(Tuple),
    Many(Ordered<Tuple>),
}

impl Model for TupleSet {
    ghost use Rattle.std.specs.Prelude.{List as Items};
    ghost use Rattle.pgs_base.specs.declared.part.Part.{Part};
    ghost use Rattle.pgs_base.specs.Kept.{tuples_of};

    ghost Value = { Items (Items Part) };

    ghost view = { λ set. tuples_of set.kept };
}

// Dropped here, so that crates above need not prove what it holds.
impl Drop for TupleSet {
    fn drop(self) {
        let TupleSet { alloc: _, kept: _ } = self;
    }
}

impl TupleSet {
    /// No tuples. It takes no memory.
    pub fn new(alloc: Global) -> TupleSet
        ensures { result ≡ [] }
    {
        TupleSet {
            alloc,
            kept: Kept::Many(Ordered::new(alloc)),
        }
    }

    /// How many tuples there are.
    pub fn len(&self) -> usize
        ensures value { result ≡ length self.now }
        ensures ascending { IsStrictlySortedBy tuple_cmp self.now }
    {
        self.as_slice().len()
    }

    /// Whether there is no tuple.
    pub fn is_empty(&self) -> bool
        ensures { IsTrue result ↔ (self.now ≡ []) }
    {
        self.as_slice().is_empty()
    }

    /// The tuple at a place, from 0. `None` exactly past the last.
    pub fn at(&self, place: usize) -> Option<&Tuple>
        ensures value { option_copied result ≡ slice_get self.now place }
        ensures within { OnSome result (place < length self.now) }
    {
        self.as_slice().get(place)
    }

    /// All tuples, in order.
    pub fn as_slice(&self) -> &[Tuple]
        ensures value { result.now ≡ self.now }
        ensures ascending { IsStrictlySortedBy tuple_cmp self.now }
    {
        match &self.kept {
            Kept::One(tuple) => slice::from_ref(tuple),
            Kept::Many(tuples) => tuples.as_slice(),
        }
    }

    /// Whether a tuple is there.
    pub fn contains(&self, tuple: &Tuple) -> bool
        ensures { result ≡ list_any (is_at (tuple_cmp tuple.now)) self.now }
    {
        match &self.kept {
            Kept::One(only) => tuple.cmp(only).is_eq(),
            Kept::Many(tuples) => tuples.contains(tuple),
        }
    }

    /// Puts a tuple in. Answers whether it was new. After `Memory`, which comes only for a new tuple,
    /// the set is as it was.
    pub fn insert(&mut self, tuple: Tuple) -> Result<bool, Memory>
        ensures ok { OnOk result (self.new ≡ insert_key tuple_cmp self.old tuple) }
        ensures answer { IfOk result (λ added. added ≡ not (list_any (is_at (tuple_cmp tuple)) self.old)) }
        ensures err { OnErr result (self.new ≡ self.old) }
        ensures only_new { OnErr result (list_any (is_at (tuple_cmp tuple)) self.old ≡ false) }
    {
        match &mut self.kept {
            Kept::One(only) => {
                if tuple.cmp(only).is_eq() {
                    return Ok(false);
                }
                let tuples = both(self.alloc, only, tuple)?;
                self.kept = Kept::Many(tuples);
                Ok(true)
            }
            Kept::Many(tuples) => {
                if tuples.is_empty() {
                    self.kept = Kept::One(tuple);
                    return Ok(true);
                }
                tuples.insert(tuple)
            }
        }
    }
}

impl Copyable for TupleSet {
    fn copy(&self, alloc: Global) -> Result<TupleSet, Memory> {
        let kept = self.kept.copy(alloc)?;
        Ok(TupleSet { alloc, kept })
    }
}

impl Copyable for Kept {
    fn copy(&self, alloc: Global) -> Result<Kept, Memory> {
        match self {
            Kept::One(tuple) => {
                let tuple = tuple.copy(alloc)?;
                Ok(Kept::One(tuple))
            }
            Kept::Many(tuples) => {
                let tuples = tuples.copy(alloc)?;
                Ok(Kept::Many(tuples))
            }
        }
    }
}

// A tuple and another, in order. `Memory` where none was left.
fn both(alloc: Global, only: &Tuple, other: Tuple) -> Result<Ordered<Tuple>, Memory>
    ensures { IfOk result (λ tuples. tuples ≡ insert_key tuple_cmp (only.now ∷ []) other) }
{
    let mut tuples = Ordered::new(alloc);
    let only = only.copy(alloc)?;
    tuples.insert(only)?;
    tuples.insert(other)?;
    Ok(tuples)
}
