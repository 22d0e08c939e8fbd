ghost use Rattle.std.specs.Prelude.{◌≡◌, ◌+◌, ◌*◌, ◌<◌, ◌≤◌, ◌^◌, true, false, [], length, filter, is_some, OnErr, OnOk, OnSome, IfOk, IfSome, MatchOption, None, Some};
ghost use Rattle.std.specs.Option.{option_copied, option_flatten};
ghost use Rattle.std.specs.List.{IsDistinct};
ghost use Rattle.std.specs.List.Sorted.{IsStrictlySortedBy};
ghost use Rattle.std.specs.BTreeMap.{is_at, insert_entry};
ghost use Rattle.std.specs.Map.{keys_of, lookup, remove_entry, set_value};
ghost use Rattle.indexmap.specs.IndexMap.{hasher_of};
ghost use Rattle.pgs_tables.specs.Slots.{has_row, has_slot, is_above, present, raised, row_count, with_number, AreKept, IsFoundAt};

pub(crate) mod in_place;

use crate::Number;
use crate::places::Places;
use indexmap::IndexMap;
use indexmap::map::Entry;
use pgs_base::{List, Memory, Seed};
use std::alloc::Global;
use std::marker::Model;
use std::mem;

/// Rows by number. Contracts see the rows that are there, the numbers that have a slot, and the seed by which numbers are hashed.
#[derive(Drop)]
pub struct Numbered<K: Number, V> {
    slots: IndexMap<K, Option<V>, Seed>,
    live: usize,
    // The greatest number that had a slot: those above it have none, and aren't looked up.
    greatest: Option<K>,
    last: Places,
}

impl<K: Number, V> Model for Numbered<K, V> {
    ghost use Rattle.std.specs.Map.{keys_of};
    ghost use Rattle.indexmap.specs.IndexMap.{hasher_of};
    ghost use Rattle.pgs_tables.specs.Slots.{Slots, code_slots, by_key, present, AreSlots};

    ghost Value = { Slots K V };

    ghost coded = { code_slots K.code V.code };

    ghost view = { λ table. record { rows = by_key K.cmp (present table.slots.entries); numbers = keys_of table.slots.entries; seed = hasher_of table.slots } };

    ghost invariant = { λ table. AreSlots K.eq K.cmp table.live table.greatest table.slots.entries };
}

impl<K: Number, V: Drop> Numbered<K, V> {
    /// No rows and no slots, hashed by a seed. It takes no memory.
    pub fn new(alloc: Global, seed: Seed) -> Numbered<K, V>
        ensures rows { result.rows ≡ [] }
        ensures numbers { result.numbers ≡ [] }
        ensures seed { result.seed ≡ seed }
    {
        Numbered {
            slots: IndexMap::with_hasher(alloc, seed),
            live: 0,
            greatest: None,
            last: Places::new(),
        }
    }

    /// The row of a number. `None` exactly where there is none.
    pub fn get(&self, id: K) -> Option<&V>
        ensures { option_copied result ≡ lookup (is_at (K.cmp id)) self.now.rows }
    {
        if is_above(self.greatest, id) {
            return None;
        }
        match read(&self.slots, &self.last, id) {
            Some(slot) => slot.as_ref(),
            None => None,
        }
    }

    /// Makes a slot for a number that has none. The rows stay, and after `Memory` the slots too.
    pub fn make_slot(&mut self, id: K) -> Result<(), Memory>
        ensures rows { self.new.rows ≡ self.old.rows }
        ensures ok { OnOk result (self.new.numbers ≡ with_number K.cmp self.old.numbers id) }
        ensures err { OnErr result (self.new.numbers ≡ self.old.numbers) }
        ensures there { OnOk result (has_slot K.cmp self.new id ≡ true) }
        ensures kept { (other : K) → has_slot K.cmp self.old other ≡ true → has_slot K.cmp self.new other ≡ true }
        ensures seed { self.new.seed ≡ self.old.seed }
    {
        if stands_at(&self.slots, self.last.near(id.number()), id) {
            return Ok(());
        }
        let place = slot_of(&mut self.slots, id)?;
        self.last.note(id.number(), place);
        self.greatest = raise(self.greatest, id);
        Ok(())
    }

    /// Takes out the row of a number, where there is one. Its slot stays.
    pub fn take(&mut self, id: K) -> Option<V>
        ensures row { result ≡ lookup (is_at (K.cmp id)) self.old.rows }
        ensures rows { self.new.rows ≡ remove_entry (is_at (K.cmp id)) self.old.rows }
        ensures numbers { self.new.numbers ≡ self.old.numbers }
        ensures there { OnSome result (has_slot K.cmp self.new id ≡ true) }
        ensures seed { self.new.seed ≡ self.old.seed }
        ensures ascending { IsStrictlySortedBy K.cmp (keys_of self.old.rows) }
    {
        let old = replace(&mut self.slots, &self.last, id, None);
        self.live -= count_row(&old);
        old
    }

    /// Puts a row into the slot of a number, which has one. What was there is dropped.
    pub fn put(&mut self, id: K, row: V)
        requires { has_slot K.cmp self.old id ≡ true }
        ensures rows { self.new.rows ≡ insert_entry K.cmp self.old.rows id row }
        ensures numbers { self.new.numbers ≡ self.old.numbers }
        ensures seed { self.new.seed ≡ self.old.seed }
    {
        let _slots = self.slots.len();
        let old = replace(&mut self.slots, &self.last, id, Some(row));
        self.live = self.live - count_row(&old) + 1;
    }

    /// How many rows there are.
    pub fn len(&self) -> usize
        ensures value { result ≡ length self.now.rows }
        ensures small { result < 2 ^ 63 }
        ensures ascending { IsStrictlySortedBy K.cmp (keys_of self.now.rows) }
    {
        let _slots = self.slots.len();
        self.live
    }

    /// The numbers of the rows, ascending. `Memory` where none was left.
    pub fn ids(&self, alloc: Global) -> Result<List<K>, Memory>
        ensures { IfOk result (λ ids. ids ≡ keys_of self.now.rows) }
    {
        let mut ids = present_ids(&self.slots, alloc)?;
        ids.sort_unstable();
        Ok(List::from_vec(ids))
    }

    /// Takes out the slots without a row, where they are more than half of all. So there are at most twice as many slots as rows.
    pub fn clear_slots(&mut self)
        ensures rows { self.new.rows ≡ self.old.rows }
        ensures cleared { 2 * length self.old.rows < length self.old.numbers → self.new.numbers ≡ filter (has_row K.cmp self.old) self.old.numbers }
        ensures left { length self.old.numbers ≤ 2 * length self.old.rows → self.new.numbers ≡ self.old.numbers }
        ensures few { length self.new.numbers ≤ 2 * length self.old.rows }
        ensures seed { self.new.seed ≡ self.old.seed }
    {
        if self.is_sparse() {
            self.slots.retain(|_, row| row.is_some());
        }
    }

    // Whether more than half of the slots have no row.
    fn is_sparse(&self) -> bool
        ensures sparse { result ≡ true → 2 * length self.now.rows < length self.now.numbers }
        ensures dense { result ≡ false → length self.now.numbers ≤ 2 * length self.now.rows }
    {
        let empty = self.slots.len() - self.live;
        self.live < empty
    }
}

// The numbers of the rows, in the order in which they got their slots.
fn present_ids<K: Number, V: Drop>(
    slots: &IndexMap<K, Option<V>, Seed>,
    alloc: Global,
) -> Result<Vec<K>, Memory>
    ensures { IfOk result (λ ids. ids.items ≡ keys_of (present slots.now.entries)) }
{
    let mut ids = Vec::new(alloc);
    for (id, slot) in slots.iter() {
        if slot.is_some() {
            ids.push(*id)?;
        }
    }
    Ok(ids)
}

// Whether a number is above the greatest, or there is none.
fn is_above<K: Number>(greatest: Option<K>, id: K) -> bool
    ensures { result ≡ is_above K.cmp greatest id }
{
    match greatest {
        Some(greatest) => greatest.cmp(&id).is_lt(),
        None => true,
    }
}

// The greatest of numbers and one more.
fn raise<K: Number>(greatest: Option<K>, id: K) -> Option<K>
    ensures { result ≡ raised K.cmp greatest id }
{
    if is_above(greatest, id) {
        Some(id)
    } else {
        greatest
    }
}

// Whether the slot of a number stands at a place.
fn stands_at<K: Number, V: Drop>(slots: &IndexMap<K, Option<V>, Seed>, place: usize, id: K) -> bool
    ensures { result ≡ true → IsFoundAt (K.eq id) slots.now.entries place }
{
    let _unique = slots.len();
    match slots.get_index(place) {
        Some((key, _)) => id == *key,
        None => false,
    }
}

// The place of the slot of a number, where it is one of those that are tried before a number is hashed.
fn near_place<K: Number, V: Drop>(
    slots: &IndexMap<K, Option<V>, Seed>,
    last: &Places,
    id: K,
) -> Option<usize>
    ensures { IfSome result (IsFoundAt (K.eq id) slots.now.entries) }
{
    let near = last.near(id.number());
    if stands_at(slots, near, id) {
        return Some(near);
    }
    let next = last.next(id.number());
    if stands_at(slots, next, id) {
        return Some(next);
    }
    None
}

// The place of the slot of a number.
fn find<K: Number, V: Drop>(
    slots: &IndexMap<K, Option<V>, Seed>,
    last: &Places,
    id: K,
) -> Option<usize>
    ensures place { MatchOption result (lookup (K.eq id) slots.now.entries ≡ None) (IsFoundAt (K.eq id) slots.now.entries) }
    ensures unique { IsDistinct K.eq (keys_of slots.now.entries) }
{
    let _unique = slots.len();
    if let Some(place) = near_place(slots, last, id) {
        last.note(id.number(), place);
        return Some(place);
    }
    let (place, _, _) = slots.get_full(&id)?;
    last.note(id.number(), place);
    Some(place)
}

// The place of the slot of a number, which is made, empty, where the number has none.
fn slot_of<K: Number, V: Drop>(
    slots: &mut IndexMap<K, Option<V>, Seed>,
    id: K,
) -> Result<usize, Memory>
    ensures numbers { OnOk result (keys_of slots.new.entries ≡ with_number K.cmp (keys_of slots.old.entries) id) }
    ensures err { OnErr result (keys_of slots.new.entries ≡ keys_of slots.old.entries) }
    ensures there { OnOk result (is_some (lookup (K.eq id) slots.new.entries) ≡ true) }
    ensures kept { AreKept slots.old.entries slots.new.entries }
    ensures seed { hasher_of slots.new ≡ hasher_of slots.old }
    ensures unique { IsDistinct K.eq (keys_of slots.new.entries) }
{
    match slots.entry(id)? {
        Entry::Occupied(entry) => Ok(entry.index()),
        Entry::Vacant(entry) => {
            let place = entry.index();
            entry.insert(None);
            Ok(place)
        }
    }
}

// The slot of a number.
fn read<'a, K: Number, V: Drop>(
    slots: &'a IndexMap<K, Option<V>, Seed>,
    last: &Places,
    id: K,
) -> Option<&'a Option<V>>
    ensures { option_copied result ≡ lookup (K.eq id) slots.now.entries }
{
    let place = find(slots, last, id)?;
    match slots.get_index(place) {
        Some((_, slot)) => Some(slot),
        None => None,
    }
}

// Puts a row, or none, into the slot of a number, and answers what was there. Where there is no slot, nothing happens.
fn replace<K: Number, V: Drop>(
    slots: &mut IndexMap<K, Option<V>, Seed>,
    last: &Places,
    id: K,
    row: Option<V>,
) -> Option<V>
    ensures entries { slots.new.entries ≡ set_value (K.eq id) slots.old.entries row }
    ensures old { result ≡ option_flatten (lookup (K.eq id) slots.old.entries) }
    ensures seed { hasher_of slots.new ≡ hasher_of slots.old }
    ensures unique { IsDistinct K.eq (keys_of slots.old.entries) }
{
    let Some(place) = find(slots, last, id) else {
        return None;
    };
    match slots.get_index_mut(place) {
        Some(slot) => mem::replace(slot, row),
        None => None,
    }
}

fn count_row<V>(row: &Option<V>) -> usize
    ensures { result ≡ row_count row.now }
{
    match row {
        Some(_) => 1,
        None => 0,
    }
}
