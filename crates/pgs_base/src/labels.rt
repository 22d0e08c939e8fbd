ghost use Rattle.std.specs.Prelude.{◌≡◌, ◌<◌, ◌↔◌, [], ◌∷◌, length, not, slice_get, IfOk, OnErr, OnOk, OnSome, IsTrue, nat_eq, false, true};
ghost use Rattle.std.specs.Option.{option_copied};
ghost use Rattle.std.specs.Ordering.{nat_cmp};
ghost use Rattle.std.specs.Cmp.{partial_equiv_from_equiv};
ghost use Rattle.std.specs.Cmp.Lexicographic.{pointwise, slice_cmp, lists_equiv, nat_list_eq_equiv};
ghost use Rattle.std.specs.List.Sorted.{IsStrictlySortedBy};
ghost use Rattle.std.specs.List.{list_all};
ghost use Rattle.pgs_base.specs.LabelNames.{names_of};
ghost use Rattle.pgs_base.specs.Name.{is_name};
ghost use Rattle.pgs_base.specs.Names.{are_names, has_name, put_name, take_name};

use crate::{Copyable, Memory, Name, Ordered};
use std::alloc::Global;
use std::marker::Model;
use std::slice;

const _: () = prove!(size_of::<Labels>() == 32);

/// The labels of an element: a set of names. Contracts see them as a list that ascends strictly.
///
/// A set of one label takes no memory beside the name's own, unless it had more before.
pub struct Labels {
    alloc: Global,
    names: LabelNames,
}

// Most elements have one label, and rows are copied often, so that one name lies in the set itself. None is an
// empty `Many`. A list of which names were taken out stays one, whatever is left.
#[derive(Drop)]
pub(crate) enum LabelNames {
    One(Name),
    Many(Ordered<Name>),
}

impl Model for Labels {
    ghost use Rattle.std.specs.Prelude.{◌≡◌, List, ℕ, true};
    ghost use Rattle.std.specs.Coded.{coded_list, coded_ℕ};
    ghost use Rattle.pgs_base.specs.LabelNames.{names_of};
    ghost use Rattle.pgs_base.specs.Names.{are_names};

    ghost Value = { List (List ℕ) };

    ghost coded = { coded_list (coded_list coded_ℕ) };

    ghost view = { λ labels. names_of labels.names };

    ghost invariant = { λ labels. are_names (names_of labels.names) ≡ true };
}

// Dropped here, so that crates above need not prove what it holds.
impl Drop for Labels {
    fn drop(self) {
        let Labels { alloc: _, names: _ } = self;
    }
}

// What every slice of names meets. Nothing is done.
fn name_facts(names: &[Name])
    ensures { list_all is_name names.now ≡ true }
{
    for name in names {
        let _name = name.bytes();
    }
}

impl LabelNames {
    // The names of a vector in which they ascend strictly. The block of one name is given back.
    fn from_vec(mut names: Vec<Name>) -> LabelNames
        requires { IsStrictlySortedBy (slice_cmp nat_cmp) names.items }
        ensures { names_of result ≡ names.items }
    {
        if names.len() == 1 {
            LabelNames::One(names.remove(0))
        } else {
            LabelNames::Many(Ordered::from_vec(names))
        }
    }

    fn as_slice(&self) -> &[Name]
        ensures { result.now ≡ names_of self.now }
    {
        match self {
            LabelNames::One(name) => slice::from_ref(name),
            LabelNames::Many(names) => names.as_slice(),
        }
    }

    fn contains(&self, name: &Name) -> bool
        ensures { result ≡ has_name name.now (names_of self.now) }
    {
        match self {
            LabelNames::One(only) => name.cmp(only).is_eq(),
            LabelNames::Many(names) => names.contains(name),
        }
    }

    fn insert(&mut self, alloc: Global, name: Name) -> Result<bool, Memory>
        ensures ok { OnOk result (names_of self.new ≡ put_name (names_of self.old) name) }
        ensures answer { IfOk result (λ added. added ≡ not (has_name name (names_of self.old))) }
        ensures err { OnErr result (names_of self.new ≡ names_of self.old) }
        ensures only_new { OnErr result (has_name name (names_of self.old) ≡ false) }
    {
        match self {
            LabelNames::One(only) => {
                if name.cmp(only).is_eq() {
                    return Ok(false);
                }
                let names = both(alloc, only, name)?;
                *self = LabelNames::Many(names);
                Ok(true)
            }
            LabelNames::Many(names) => {
                if names.is_empty() {
                    *self = LabelNames::One(name);
                    return Ok(true);
                }
                names.insert(name)
            }
        }
    }

    fn remove(&mut self, alloc: Global, name: &Name) -> bool
        ensures names { names_of self.new ≡ take_name (names_of self.old) name.now }
        ensures answer { result ≡ has_name name.now (names_of self.old) }
    {
        match self {
            LabelNames::One(only) => {
                if name.cmp(only).is_ne() {
                    return false;
                }
                *self = LabelNames::Many(Ordered::new(alloc));
                true
            }
            LabelNames::Many(names) => names.remove(name),
        }
    }
}

// A name and another, in order. `Memory` where none was left.
fn both(alloc: Global, only: &Name, other: Name) -> Result<Ordered<Name>, Memory>
    ensures { IfOk result (λ names. names ≡ put_name (only.now ∷ []) other) }
{
    let mut names = Ordered::new(alloc);
    let only = only.share()?;
    names.insert(only)?;
    names.insert(other)?;
    Ok(names)
}

impl Labels {
    /// No labels. It takes no memory.
    pub fn new(alloc: Global) -> Labels
        ensures { result ≡ [] }
    {
        Labels {
            alloc,
            names: LabelNames::Many(Ordered::new(alloc)),
        }
    }

    /// The labels of a vector in which the names ascend strictly. The memory of a vector of one name is given back.
    pub fn from_vec(names: Vec<Name>) -> Labels
        requires { IsStrictlySortedBy (slice_cmp nat_cmp) names.items }
        ensures { result ≡ names.items }
    {
        name_facts(names.as_slice());
        Labels {
            alloc: *names.allocator(),
            names: LabelNames::from_vec(names),
        }
    }

    /// How many labels there are.
    pub fn len(&self) -> usize
        ensures value { result ≡ length self.now }
        ensures ascending { IsStrictlySortedBy (slice_cmp nat_cmp) self.now }
    {
        self.as_slice().len()
    }

    /// Whether there is no label.
    pub fn is_empty(&self) -> bool
        ensures { IsTrue result ↔ (self.now ≡ []) }
    {
        self.as_slice().is_empty()
    }

    /// The label at a place, from 0. `None` exactly past the last.
    pub fn at(&self, place: usize) -> Option<&Name>
        ensures value { option_copied result ≡ slice_get self.now place }
        ensures within { OnSome result (place < length self.now) }
    {
        self.as_slice().get(place)
    }

    /// All labels, in order.
    pub fn as_slice(&self) -> &[Name]
        ensures value { result.now ≡ self.now }
        ensures ascending { IsStrictlySortedBy (slice_cmp nat_cmp) self.now }
        ensures names { are_names self.now ≡ true }
    {
        self.names.as_slice()
    }

    /// Whether a label is there.
    pub fn contains(&self, name: &Name) -> bool
        ensures { result ≡ has_name name.now self.now }
    {
        self.names.contains(name)
    }

    /// Puts a label in. Answers whether it was new. After `Memory`, which comes only for a new label,
    /// the labels are as they were. The first label takes no memory.
    pub fn insert(&mut self, name: Name) -> Result<bool, Memory>
        ensures ok { OnOk result (self.new ≡ put_name self.old name) }
        ensures answer { IfOk result (λ added. added ≡ not (has_name name self.old)) }
        ensures err { OnErr result (self.new ≡ self.old) }
        ensures only_new { OnErr result (has_name name self.old ≡ false) }
    {
        let _bytes = name.bytes();
        let added = self.names.insert(self.alloc, name)?;
        Ok(added)
    }

    /// Takes a label out. Answers whether it was there.
    pub fn remove(&mut self, name: &Name) -> bool
        ensures names { self.new ≡ take_name self.old name.now }
        ensures answer { result ≡ has_name name.now self.old }
    {
        self.names.remove(self.alloc, name)
    }
}

impl Copyable for Labels {
    fn copy(&self, alloc: Global) -> Result<Labels, Memory> {
        let names = self.names.copy(alloc)?;
        Ok(Labels { alloc, names })
    }
}

impl Copyable for LabelNames {
    fn copy(&self, alloc: Global) -> Result<LabelNames, Memory> {
        match self {
            LabelNames::One(name) => {
                let name = name.copy(alloc)?;
                Ok(LabelNames::One(name))
            }
            LabelNames::Many(names) => {
                let names = names.copy(alloc)?;
                Ok(LabelNames::Many(names))
            }
        }
    }
}

impl PartialEq for Labels {
    ghost eq = { pointwise (pointwise nat_eq) };

    ghost laws = { partial_equiv_from_equiv (lists_equiv nat_list_eq_equiv) };

    #[tactic(auto, using(crate::specs::OrderLaws::labels_eq_decides))]
    fn eq(&self, other: &Labels) -> bool
        ensures value { result ≡ pointwise (pointwise nat_eq) self.now other.now }
        ensures same { IsTrue result ↔ (self.now ≡ other.now) }
    {
        self.as_slice() == other.as_slice()
    }
}

impl Eq for Labels {
    ghost laws = { lists_equiv nat_list_eq_equiv };
}
