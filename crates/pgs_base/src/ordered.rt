ghost use Rattle.std.specs.Prelude.{◌≡◌, ◌<◌, ◌↔◌, [], length, not, slice_get, IfOk, OnErr, OnOk, OnSome, IsTrue, MatchResult, false};
ghost use Rattle.std.specs.Option.{option_copied};
ghost use Rattle.std.specs.List.{list_any};
ghost use Rattle.std.specs.List.Sorted.{IsStrictlySortedBy};
ghost use Rattle.std.specs.BTreeMap.{is_at};
ghost use Rattle.std.specs.BTreeSet.{insert_key};
ghost use Rattle.std.specs.Set.{remove_key};
ghost use Rattle.pgs_base.specs.Places.{IsKeyAt, IsKeyGap};

use crate::copying::copy_items;
use crate::{Copyable, Memory};
use std::alloc::Global;
use std::marker::Model;

/// Keys that ascend strictly by their order, in a `Vec`. Contracts see the list of them.
pub struct Ordered<K: Ord> {
    keys: Vec<K>,
}

impl<K: Ord> Model for Ordered<K> {
    ghost use Rattle.std.specs.Prelude.{List as Items};
    ghost use Rattle.std.specs.Coded.{coded_list};
    ghost use Rattle.std.specs.List.Sorted.{IsStrictlySortedBy};

    ghost Value = { Items K };

    ghost coded = { coded_list K.code };

    ghost view = { λ ordered. ordered.keys.items };

    ghost invariant = { λ ordered. IsStrictlySortedBy K.cmp ordered.keys.items };
}

// Dropped here, so that crates above need not prove what it holds.
impl<K: Ord + Drop> Drop for Ordered<K> {
    fn drop(self) {
        let Ordered { keys: _ } = self;
    }
}

impl<K: Ord> Ordered<K> {
    /// No keys. It takes no memory.
    pub fn new(alloc: Global) -> Ordered<K>
        ensures { result ≡ [] }
    {
        Ordered {
            keys: Vec::new(alloc),
        }
    }

    /// The keys of a vector in which they ascend strictly.
    pub fn from_vec(keys: Vec<K>) -> Ordered<K>
        requires { IsStrictlySortedBy K.cmp keys.items }
        ensures { result ≡ keys.items }
    {
        Ordered { keys }
    }

    /// How many keys there are.
    pub fn len(&self) -> usize
        ensures value { result ≡ length self.now }
        ensures ascending { IsStrictlySortedBy K.cmp self.now }
    {
        self.keys.len()
    }

    /// Whether there is no key.
    pub fn is_empty(&self) -> bool
        ensures { IsTrue result ↔ (self.now ≡ []) }
    {
        self.keys.is_empty()
    }

    /// The key at a place, from 0. `None` exactly past the last.
    pub fn at(&self, place: usize) -> Option<&K>
        ensures value { option_copied result ≡ slice_get self.now place }
        ensures within { OnSome result (place < length self.now) }
    {
        self.keys.get(place)
    }

    /// All keys, in order.
    pub fn as_slice(&self) -> &[K]
        ensures value { result.now ≡ self.now }
        ensures ascending { IsStrictlySortedBy K.cmp self.now }
    {
        self.keys.as_slice()
    }

    // Where the key stands, or where it would go.
    fn place(&self, key: &K) -> Result<usize, usize>
        ensures { MatchResult result (IsKeyAt K.cmp key.now self.now) (IsKeyGap K.cmp key.now self.now) }
    {
        self.keys.as_slice().binary_search(key)
    }

    /// Whether the key is there.
    pub fn contains(&self, key: &K) -> bool
        ensures { result ≡ list_any (is_at (K.cmp key.now)) self.now }
    {
        self.place(key).is_ok()
    }

    /// Puts a key at its place. Answers whether it was new; an equal key stays as it is. After `Memory`,
    /// which comes only for a new key, the keys are as they were.
    pub fn insert(&mut self, key: K) -> Result<bool, Memory>
    where
        K: Drop,
        ensures ok { OnOk result (self.new ≡ insert_key K.cmp self.old key) }
        ensures answer { IfOk result (λ added. added ≡ not (list_any (is_at (K.cmp key)) self.old)) }
        ensures err { OnErr result (self.new ≡ self.old) }
        ensures only_new { OnErr result (list_any (is_at (K.cmp key)) self.old ≡ false) }
    {
        match self.place(&key) {
            Ok(_) => Ok(false),
            Err(place) => {
                self.keys.insert(place, key)?;
                Ok(true)
            }
        }
    }

    /// Takes a key out. Answers whether it was there.
    pub fn remove(&mut self, key: &K) -> bool
    where
        K: Drop,
        ensures keys { self.new ≡ remove_key (is_at (K.cmp key.now)) self.old }
        ensures answer { result ≡ list_any (is_at (K.cmp key.now)) self.old }
    {
        match self.place(key) {
            Ok(place) => {
                drop(self.keys.remove(place));
                true
            }
            Err(_) => false,
        }
    }
}

impl<K: Ord + Copyable + Drop> Copyable for Ordered<K> {
    fn copy(&self, alloc: Global) -> Result<Ordered<K>, Memory> {
        let keys = copy_items(alloc, self.keys.as_slice())?;
        Ok(Ordered { keys })
    }
}
