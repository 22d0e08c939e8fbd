ghost use Rattle.std.specs.Prelude.{◌≡◌, ◌+◌, ◌*◌, ◌<◌, ◌≤◌, ◌^◌, ◌++◌, true, [], length, filter, IfOk, OnErr, OnOk, IsSome, None};
ghost use Rattle.std.specs.Option.{option_copied, option_flatten};
ghost use Rattle.std.specs.List.{list_all};
ghost use Rattle.std.specs.List.Sorted.{IsStrictlySortedBy};
ghost use Rattle.std.specs.Map.{keys_of, lookup, remove_entry};
ghost use Rattle.std.specs.BTreeMap.{is_at, insert_entry};
ghost use Rattle.std.proofs.lemmas.Map.Lookups.{CmpEqualImpliesEq};
ghost use Rattle.pgs_base_slots.specs.Slots.{has_slot, holds_row, left_at, present, row_count};

use pgs_base::{Copyable, List, Memory};
use std::alloc::Global;
use std::collections::BTreeMap;
use std::marker::Model;

/// Rows by key, each in a slot. Contracts see the slots by ascending key: a key, and its row or `None`.
pub struct Slots<K: Ord, V> {
    slots: BTreeMap<K, Option<V>>,
    live: usize,
}

impl<K: Ord, V> Model for Slots<K, V> {
    ghost use Rattle.std.specs.Prelude.{◌≡◌, Option, length, List as Items};
    ghost use Rattle.std.specs.Coded.{coded_list, coded×, coded_option};
    ghost use Rattle.pgs_base_slots.specs.Slots.{present};

    ghost Value = { Items (K × Option V) };

    ghost coded = { coded_list (coded× K.code (coded_option V.code)) };

    ghost view = { λ slots. slots.slots.entries };

    ghost invariant = { λ slots. slots.live ≡ length (present slots.slots.entries) };
}

// Dropped here, so that crates above need not prove what it holds.
impl<K: Ord + Drop, V: Drop> Drop for Slots<K, V> {
    fn drop(self) {
        let Slots { slots: _, live: _ } = self;
    }
}

impl<K: Ord + Copy + Drop, V: Drop> Slots<K, V> {
    /// No rows and no slots. It takes no memory.
    pub fn new(alloc: Global) -> Slots<K, V>
        ensures { result ≡ [] }
    {
        Slots {
            slots: BTreeMap::new(alloc),
            live: 0,
        }
    }

    /// How many rows there are.
    pub fn len(&self) -> usize
        ensures value { result ≡ length (present self.now) }
        ensures small { result < 2 ^ 63 }
        ensures ascending { IsStrictlySortedBy K.cmp (keys_of (present self.now)) }
    {
        let _slots = self.slots.len();
        self.live
    }

    /// The row of a key. `None` exactly where there is none.
    pub fn get(&self, key: &K) -> Option<&V>
        ensures { option_copied result ≡ lookup (is_at (K.cmp key.now)) (present self.now) }
    {
        let _slots = self.slots.len();
        match self.slots.get(key) {
            Some(slot) => slot.as_ref(),
            None => None,
        }
    }

    /// Makes a slot for each of these keys that has none, and takes out the empty slots before, where they are more than half. So there
    /// are at most twice as many slots as rows, and one for each key. After `Memory` some of the keys may have got one. The rows stay.
    pub fn make_slots<W>(&mut self, keys: &[(K, W)]) -> Result<(), Memory>
        ensures rows { present self.new ≡ present self.old }
        ensures there { OnOk result (list_all (has_slot K.cmp self.new) (keys_of keys.now) ≡ true) }
        ensures few { length self.new ≤ 2 * length (present self.old) + length keys.now }
    {
        self.clear_slots();
        for entry in keys {
            self.make_slot(entry.0)?;
        }
        Ok(())
    }

    // Takes out the slots without a row, where they are more than half of all.
    fn clear_slots(&mut self)
        ensures rows { present self.new ≡ present self.old }
        ensures cleared { 2 * length (present self.old) < length self.old → self.new ≡ filter holds_row self.old }
        ensures left { length self.old ≤ 2 * length (present self.old) → self.new ≡ self.old }
        ensures few { length self.new ≤ 2 * length (present self.old) }
    {
        let empty = self.slots.len() - self.live;
        if self.live < empty {
            self.slots.retain(|_, row| row.is_some());
        }
    }

    // Makes a slot for a key that has none.
    fn make_slot(&mut self, key: K) -> Result<(), Memory>
        ensures rows { present self.new ≡ present self.old }
        ensures there { OnOk result (has_slot K.cmp self.new key ≡ true) }
        ensures kept { (other : K) → has_slot K.cmp self.old other ≡ true → has_slot K.cmp self.new other ≡ true }
        ensures few { length self.new ≤ length self.old + 1 }
    {
        if self.slots.contains_key(&key) {
            return Ok(());
        }
        let _none = insert(&mut self.slots, key, None)?;
        Ok(())
    }

    /// Puts a row into the slot of a key, which has one. What was there is dropped.
    pub fn put(&mut self, key: K, row: V)
        requires exact { CmpEqualImpliesEq K.cmp }
        requires there { has_slot K.cmp self.old key ≡ true }
        ensures rows { present self.new ≡ insert_entry K.cmp (present self.old) key row }
        ensures slots { keys_of self.new ≡ keys_of self.old }
    {
        self.fill(key, Some(row));
    }

    /// Takes the row out of the slot of a key, which has one. The slot stays.
    pub fn take(&mut self, key: K)
        requires { has_slot K.cmp self.old key ≡ true }
        ensures rows { present self.new ≡ remove_entry (is_at (K.cmp key)) (present self.old) }
        ensures slots { keys_of self.new ≡ keys_of self.old }
    {
        self.fill(key, None);
    }

    // Puts a row, or none, into the slot of a key, which has one.
    fn fill(&mut self, key: K, row: Option<V>)
        requires { has_slot K.cmp self.old key ≡ true }
        ensures entries { self.new ≡ insert_entry K.cmp self.old key row }
        ensures ascending { IsStrictlySortedBy K.cmp (keys_of self.old) }
        ensures slots { keys_of self.new ≡ keys_of self.old }
    {
        let _slots = self.slots.len();
        let new = count_row(&row);
        match insert(&mut self.slots, key, row) {
            Ok(old) => self.live = self.live - old + new,
            Err(_) => unreachable!(),
        }
    }

    /// The keys of the rows, ascending. `Memory` where none was left.
    pub fn keys(&self, alloc: Global) -> Result<List<K>, Memory>
        ensures { IfOk result (λ keys. keys ≡ keys_of (present self.now)) }
    {
        let mut keys = Vec::with_capacity(alloc, self.live)?;
        for (key, slot) in self.slots.iter() {
            list_key(&mut keys, *key, slot)?;
        }
        Ok(List::from_vec(keys))
    }
}

// Puts a row, or none, at a key, and answers how many rows were there. `Memory` comes for a new key alone.
fn insert<K: Ord + Copy + Drop, V: Drop>(
    slots: &mut BTreeMap<K, Option<V>>,
    key: K,
    row: Option<V>,
) -> Result<usize, Memory>
    ensures ascending { IsStrictlySortedBy K.cmp (keys_of slots.old.entries) }
    ensures entries { OnOk result (slots.new.entries ≡ insert_entry K.cmp slots.old.entries key row) }
    ensures keys { IsSome (lookup (is_at (K.cmp key)) slots.old.entries) → OnOk result (keys_of slots.new.entries ≡ keys_of slots.old.entries) }
    ensures old { IfOk result (λ count. count ≡ row_count (option_flatten (lookup (is_at (K.cmp key)) slots.old.entries))) }
    ensures err { OnErr result (slots.new.entries ≡ slots.old.entries) }
    ensures only_new { OnErr result (lookup (is_at (K.cmp key)) slots.old.entries ≡ None) }
{
    let old = slots.insert(key, row)?;
    Ok(count_slot(&old))
}

fn count_row<V>(row: &Option<V>) -> usize
    ensures { result ≡ row_count row.now }
{
    match row {
        Some(_) => 1,
        None => 0,
    }
}

// How many rows there are in a slot, if it is there.
fn count_slot<V>(slot: &Option<Option<V>>) -> usize
    ensures { result ≡ row_count (option_flatten slot.now) }
{
    match slot {
        Some(row) => count_row(row),
        None => 0,
    }
}

// Lists the key of a slot that holds a row.
fn list_key<K: Drop, V>(keys: &mut Vec<K>, key: K, slot: &Option<V>) -> Result<(), Memory>
    ensures { OnOk result (keys.new.items ≡ keys.old.items ++ keys_of (left_at key slot.now)) }
{
    if slot.is_some() {
        keys.push(key)?;
    }
    Ok(())
}

fn copy_row<V: Copyable>(alloc: Global, row: &Option<V>) -> Result<Option<V>, Memory>
    ensures { IfOk result (λ copied. copied ≡ row.now) }
{
    match row {
        Some(row) => Ok(Some(row.copy(alloc)?)),
        None => Ok(None),
    }
}

// Copies a slot into others.
fn copy_slot<K: Ord + Copy + Drop, V: Copyable + Drop>(
    alloc: Global,
    slots: &mut BTreeMap<K, Option<V>>,
    key: K,
    row: &Option<V>,
) -> Result<(), Memory>
    ensures { OnOk result (slots.new.entries ≡ insert_entry K.cmp slots.old.entries key row.now) }
{
    let copied = copy_row(alloc, row)?;
    let _none = insert(slots, key, copied)?;
    Ok(())
}

impl<K: Ord + Copy + Drop, V: Copyable + Drop> Copyable for Slots<K, V> {
    fn copy(&self, alloc: Global) -> Result<Slots<K, V>, Memory> {
        let mut slots = BTreeMap::new(alloc);
        for (key, row) in self.slots.iter() {
            copy_slot(alloc, &mut slots, *key, row)?;
        }
        Ok(Slots {
            slots,
            live: self.live,
        })
    }
}
