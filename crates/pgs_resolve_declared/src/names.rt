ghost use Rattle.std.specs.Prelude.{◌≡◌, ◌↔◌, ◌<◌, ◌^◌, ◌||◌, ℕ, List, Some, [], ◌∷◌, ◌++◌, not, is_some, length, slice_get, if◌then◌else◌, IfOk, IsOk, OnOk, OnErr};
ghost use Rattle.std.specs.BTreeMap.{get};
ghost use Rattle.std.specs.Cmp.Lexicographic.{slice_cmp};
ghost use Rattle.std.specs.Ordering.{nat_cmp};
ghost use Rattle.std.specs.List.{position};
ghost use Rattle.std.specs.Option.{option_copied};
ghost use Rattle.pgs_base.specs.Pair.{same_name, has_name};

use pgs_base::{Copyable, Memory, Name};
use std::alloc::Global;
use std::collections::BTreeMap;
use std::marker::Model;

/// Names in order, with a look-up of the first place of each. Contracts see the list of them.
#[derive(Drop)]
pub struct Names {
    items: Vec<Name>,
    places: BTreeMap<Name, u32>,
}

impl Model for Names {
    ghost use Rattle.std.specs.Prelude.{List, ℕ, ◌≡◌};
    ghost use Rattle.std.specs.Ordering.{nat_cmp};
    ghost use Rattle.std.specs.Cmp.Lexicographic.{slice_cmp};
    ghost use Rattle.std.specs.BTreeMap.{get};
    ghost use Rattle.std.specs.List.{position};
    ghost use Rattle.pgs_base.specs.Pair.{same_name};

    ghost Value = { List (List ℕ) };

    ghost view = { λ names. names.items.items };

    ghost invariant = { λ names. (name : List ℕ) → get (slice_cmp nat_cmp) names.places name ≡ position (same_name name) names.items.items };
}

/// The number of a new name after so many. Numbers have 32 bits: `Memory` exactly from 2^32 names on.
pub fn next_number(len: usize) -> Result<u32, Memory>
    ensures number { IfOk result (λ number. number ≡ len) }
    ensures fits { IsOk result ↔ len < 2 ^ 32 }
{
    match u32::try_from(len) {
        Ok(number) => Ok(number),
        Err(_) => Err(Memory),
    }
}

// Gives a name the number, unless it has one.
fn place_first(
    alloc: Global,
    places: &mut BTreeMap<Name, u32>,
    name: &Name,
    number: u32,
) -> Result<(), Memory>
    ensures ok { OnOk result ((q : List ℕ) → get (slice_cmp nat_cmp) places.new q
        ≡ (if is_some (get (slice_cmp nat_cmp) places.old name.now) || not (same_name name.now q) then get (slice_cmp nat_cmp) places.old q else Some number)) }
    ensures err { OnErr result ((q : List ℕ) → get (slice_cmp nat_cmp) places.new q ≡ get (slice_cmp nat_cmp) places.old q) }
{
    if places.contains_key(name) {
        return Ok(());
    }
    let key = name.copy(alloc)?;
    places.insert(key, number)?;
    Ok(())
}

impl Names {
    /// No names.
    pub fn new(alloc: Global) -> Names
        ensures { result ≡ [] }
    {
        Names {
            items: Vec::new(alloc),
            places: BTreeMap::new(alloc),
        }
    }

    /// Puts a name last. It may be there before.
    pub fn push(&mut self, alloc: Global, name: Name) -> Result<(), Memory>
        ensures ok { OnOk result (self.new ≡ self.old ++ name ∷ []) }
        ensures err { OnErr result (self.new ≡ self.old) }
    {
        let number = next_number(self.items.len())?;
        self.items.reserve(1)?;
        place_first(alloc, &mut self.places, &name, number)?;
        self.items.push(name)?;
        Ok(())
    }

    /// The number of a name, its first place from 0. `None` exactly where it isn't there.
    pub fn number(&self, name: &Name) -> Option<u32>
        ensures { result ≡ position (same_name name.now) self.now }
    {
        self.places.get(name).copied()
    }

    /// Whether a name is there.
    pub fn contains(&self, name: &Name) -> bool
        ensures { result ≡ has_name name.now self.now }
    {
        self.places.contains_key(name)
    }

    /// The first name. `None` exactly where there is none.
    pub fn first(&self) -> Option<&Name>
        ensures { option_copied result ≡ slice_get self.now 0 }
    {
        self.items.get(0)
    }

    /// All names in order.
    pub fn as_slice(&self) -> &[Name]
        ensures { result.now ≡ self.now }
    {
        self.items.as_slice()
    }
}
