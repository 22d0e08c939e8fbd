ghost use Rattle.std.specs.Prelude.{◌≡◌, ◌<◌, ◌↔◌, [], length, slice_get, IfOk, OnErr, OnOk, OnSome, IsTrue, MatchResult, is_some, None, vec_len};
ghost use Rattle.std.specs.Option.{option_copied};
ghost use Rattle.std.specs.List.Sorted.{IsStrictlySortedBy};
ghost use Rattle.std.specs.Map.{keys_of, lookup, remove_entry};
ghost use Rattle.std.specs.BTreeMap.{is_at, insert_entry};
ghost use Rattle.pgs_base.specs.Places.{IsEntryAt, IsEntryGap};

use crate::copying::copy_items;
use crate::{Copyable, Memory};
use std::alloc::Global;
use std::cmp::Ordering;
use std::marker::Model;
use std::mem;

/// Values by keys that ascend strictly by their order, in a `Vec`. Contracts see the list of the pairs.
pub struct Rows<K: Ord, V> {
    rows: Vec<(K, V)>,
}

impl<K: Ord, V> Model for Rows<K, V> {
    ghost use Rattle.std.specs.Prelude.{List as Items};
    ghost use Rattle.std.specs.Coded.{coded_list, coded×};
    ghost use Rattle.std.specs.List.Sorted.{IsStrictlySortedBy};
    ghost use Rattle.std.specs.Map.{keys_of};

    ghost Value = { Items (K × V) };

    ghost coded = { coded_list (coded× K.code V.code) };

    ghost view = { λ rows. rows.rows.items };

    ghost invariant = { λ rows. IsStrictlySortedBy K.cmp (keys_of rows.rows.items) };
}

// Dropped here, so that crates above need not prove what it holds.
impl<K: Ord + Drop, V: Drop> Drop for Rows<K, V> {
    fn drop(self) {
        let Rows { rows: _ } = self;
    }
}

impl<K: Ord, V> Rows<K, V> {
    /// No rows. It takes no memory.
    pub fn new(alloc: Global) -> Rows<K, V>
        ensures { result ≡ [] }
    {
        Rows {
            rows: Vec::new(alloc),
        }
    }

    /// How many rows there are.
    pub fn len(&self) -> usize
        ensures value { result ≡ length self.now }
        ensures ascending { IsStrictlySortedBy K.cmp (keys_of self.now) }
    {
        self.rows.len()
    }

    /// Whether there is no row.
    pub fn is_empty(&self) -> bool
        ensures { IsTrue result ↔ (self.now ≡ []) }
    {
        self.rows.is_empty()
    }

    /// The key and the value at a place, from 0. `None` exactly past the last.
    pub fn at(&self, place: usize) -> Option<&(K, V)>
        ensures value { option_copied result ≡ slice_get self.now place }
        ensures within { OnSome result (place < length self.now) }
    {
        self.rows.get(place)
    }

    /// All keys with their values, in order.
    pub fn as_slice(&self) -> &[(K, V)]
        ensures value { result.now ≡ self.now }
        ensures ascending { IsStrictlySortedBy K.cmp (keys_of self.now) }
    {
        self.rows.as_slice()
    }

    /// The rows of a vector whose keys ascend strictly.
    pub fn from_vec(rows: Vec<(K, V)>) -> Rows<K, V>
        requires { IsStrictlySortedBy K.cmp (keys_of rows.items) }
        ensures { result ≡ rows.items }
    {
        Rows { rows }
    }

    /// The rows as a vector, in order.
    pub fn into_vec(self) -> Vec<(K, V)>
        ensures items { result.items ≡ self }
        ensures len { vec_len result ≡ length self }
        ensures ascending { IsStrictlySortedBy K.cmp (keys_of self) }
    {
        let Rows { rows } = self;
        rows
    }

    // Where the key stands, or where it would go.
    fn place(&self, key: &K) -> Result<usize, usize>
        ensures { MatchResult result (IsEntryAt K.cmp key.now self.now) (IsEntryGap K.cmp key.now self.now) }
    {
        self.rows.as_slice().binary_search_by(
            |row: &(K, V)| -> Ordering
                ensures { result ≡ K.cmp row.now.0 key.entry.now }
            { row.0.cmp(key) },
        )
    }

    /// The value at a key. `None` exactly where the key is absent.
    pub fn get(&self, key: &K) -> Option<&V>
        ensures { option_copied result ≡ lookup (is_at (K.cmp key.now)) self.now }
    {
        match self.place(key) {
            Ok(place) => Some(&self.rows[place].1),
            Err(_) => None,
        }
    }

    /// Whether the key is there.
    pub fn contains(&self, key: &K) -> bool
        ensures { result ≡ is_some (lookup (is_at (K.cmp key.now)) self.now) }
    {
        match self.place(key) {
            Ok(_) => true,
            Err(_) => false,
        }
    }

    /// Sets the value at a key, and answers the value that was there. An equal key stays as it is. After
    /// `Memory`, which comes only for a new key, the rows are as they were.
    pub fn set(&mut self, key: K, value: V) -> Result<Option<V>, Memory>
    where
        K: Drop,
        V: Drop,
        ensures ok { OnOk result (self.new ≡ insert_entry K.cmp self.old key value) }
        ensures answer { IfOk result (λ old. old ≡ lookup (is_at (K.cmp key)) self.old) }
        ensures err { OnErr result (self.new ≡ self.old) }
        ensures only_new { OnErr result (lookup (is_at (K.cmp key)) self.old ≡ None) }
    {
        match self.place(&key) {
            Ok(place) => {
                let old = mem::replace(&mut self.rows[place].1, value);
                Ok(Some(old))
            }
            Err(place) => {
                self.rows.insert(place, (key, value))?;
                Ok(None)
            }
        }
    }

    /// Takes a key and its value out. Answers the value, or `None` exactly where the key was absent.
    pub fn unset(&mut self, key: &K) -> Option<V>
    where
        K: Drop,
        ensures rows { self.new ≡ remove_entry (is_at (K.cmp key.now)) self.old }
        ensures answer { result ≡ lookup (is_at (K.cmp key.now)) self.old }
    {
        match self.place(key) {
            Ok(place) => {
                let (_, value) = self.rows.remove(place);
                Some(value)
            }
            Err(_) => None,
        }
    }
}

impl<K: Ord + Copyable + Drop, V: Copyable + Drop> Copyable for Rows<K, V> {
    fn copy(&self, alloc: Global) -> Result<Rows<K, V>, Memory> {
        let rows = copy_items(alloc, self.rows.as_slice())?;
        Ok(Rows { rows })
    }
}
