//! The rows of an index, and the elements that may hold a value.

ghost use Rattle.std.specs.Prelude.{◌≡◌, true, false, [], filter, IfOk, IfSome, OnOk, MatchOption};
ghost use Rattle.std.specs.Option.{option_copied};
ghost use Rattle.std.specs.List.{list_all};
ghost use Rattle.std.specs.List.Sorted.{IsStrictlySortedBy};
ghost use Rattle.std.specs.Map.{keys_of};
ghost use Rattle.pgs_base.specs.declared.element.Elem.{Elem};
ghost use Rattle.pgs_keyindex.specs.Members.{member_cmp};
ghost use Rattle.pgs_keyindex.specs.Rows.{values_at, has_value, is_exclusive, row_changed};
ghost use Rattle.pgs_keyindex.specs.Table.{has_digest, has_elem, has_room, is_listed, listed_at, stands, Grows, KeepsRoom, SameRows};

use crate::KeyChange;
use crate::digest::Digest;
use crate::few::Few;
use crate::holders::{elements_at, has_elem, relist, with_elem};
use crate::member::Member;
use pgs_base::{Elem, List, Memory, Seed, Tuple, TupleSet};
use pgs_tables::Numbered;
use std::alloc::Global;
use std::marker::Model;

/// The rows of an index. Where a value of an exclusive key is looked for, the elements are listed that may have it; some of them may
/// have lost it, or not have got it. The digests at which that may be so are kept: of the values that elements had when memory was taken
/// last, and of those that they were to get, until they have got them.
pub(crate) struct KeyTable {
    alloc: Global,
    seed: Seed,
    exclusive: List<bool>,
    rows: Numbered<Member, TupleSet>,
    holders: Numbered<Digest, Few>,
    former: Vec<Digest>,
    coming: Vec<Digest>,
}

impl Model for KeyTable {
    ghost use Rattle.pgs_keyindex.specs.Table.{TableState, IsHeld};

    ghost Value = { TableState };

    ghost view = { λ table. record { exclusive = table.exclusive; seed = table.seed; rows = table.rows; holders = table.holders } };

    ghost invariant = { λ table. IsHeld (record { exclusive = table.exclusive; seed = table.seed; rows = table.rows; holders = table.holders }) };
}

// Dropped here, so that what holds it need not prove what it holds.
impl Drop for KeyTable {
    fn drop(self) {
        let KeyTable {
            alloc: _,
            seed: _,
            exclusive: _,
            rows: _,
            holders: _,
            former: _,
            coming: _,
        } = self;
    }
}

impl KeyTable {
    /// No rows, where it is known which keys are exclusive. It takes no memory.
    pub(crate) fn new(alloc: Global, exclusive: List<bool>, seed: Seed) -> KeyTable
        ensures exclusive { result.exclusive ≡ exclusive }
        ensures seed { result.seed ≡ seed }
        ensures rows { result.rows.rows ≡ [] }
        ensures hashed { (result.rows.seed ≡ seed) × (result.holders.seed ≡ seed) }
    {
        KeyTable {
            alloc,
            seed,
            exclusive,
            rows: Numbered::new(alloc, seed),
            holders: Numbered::new(alloc, seed),
            former: Vec::new(alloc),
            coming: Vec::new(alloc),
        }
    }

    /// The rows ascend by key and element. Nothing is done.
    pub(crate) fn facts(&self)
        ensures { IsStrictlySortedBy member_cmp (keys_of self.now.rows.rows) }
    {
        let _rows = self.rows.len();
    }

    // Whether the key of a number is exclusive.
    fn is_exclusive(&self, key: u32) -> bool
        ensures { result ≡ is_exclusive self.now.exclusive key }
    {
        if key == 0 {
            return false;
        }
        match self.exclusive.at(key as usize - 1) {
            Some(asked) => *asked,
            None => false,
        }
    }

    /// The key values of an element. `None` exactly where it has no row.
    pub(crate) fn values(&self, key: u32, elem: Elem) -> Option<&TupleSet>
        ensures { option_copied result ≡ values_at self.now.rows.rows key elem }
    {
        self.rows.get(Member::new(key, elem))
    }

    // Whether an element has a key value.
    fn has_value(&self, key: u32, elem: Elem, tuple: &Tuple) -> bool
        ensures { result ≡ has_value self.now.rows.rows key elem tuple.now }
    {
        match self.values(key, elem) {
            Some(values) => values.contains(tuple),
            None => false,
        }
    }

    /// The element that has a value of an exclusive key. `None` exactly where none has it.
    pub(crate) fn owner(&self, key: u32, tuple: &Tuple) -> Option<Elem>
        requires { is_exclusive self.now.exclusive key ≡ true }
        ensures { MatchOption result
            ((elem : Elem) → has_value self.now.rows.rows key elem tuple.now ≡ false)
            (λ elem. has_value self.now.rows.rows key elem tuple.now ≡ true) }
    {
        let digest = Digest::of(self.seed, key, tuple);
        let lent = elements_at(&self.holders, digest);
        let elems = lent.as_slice();
        for elem in elems {
            if self.has_value(key, *elem, tuple) {
                return Some(*elem);
            }
        }
        None
    }

    // Whether some tuple has a digest.
    fn has_digest(&self, digest: Digest, tuples: &TupleSet) -> bool
        ensures { result ≡ has_digest self.now.seed digest tuples.now }
    {
        let tuples = tuples.as_slice();
        for tuple in tuples {
            if digest
                .cmp(&Digest::of(self.seed, digest.key, tuple))
                .is_eq()
            {
                return true;
            }
        }
        false
    }

    // Whether an element has a value of a digest.
    fn stands(&self, digest: Digest, elem: Elem) -> bool
        ensures { result ≡ stands self.now digest elem }
    {
        match self.values(digest.key, elem) {
            Some(values) => self.has_digest(digest, values),
            None => false,
        }
    }

    // The elements listed at a digest that have a value of it, unless all have one. `Memory` where none was left.
    fn standing(&self, digest: Digest) -> Result<Option<Few>, Memory>
        ensures { IfOk result (λ found. IfSome found (λ few. few ≡ filter (stands self.now digest) (listed_at self.now.holders.rows digest))) }
    {
        let lent = elements_at(&self.holders, digest);
        let elems = lent.as_slice();
        let mut standing = Vec::new(self.alloc);
        for elem in elems {
            if self.stands(digest, *elem) {
                standing.push(*elem)?;
            }
        }
        if standing.len() == elems.len() {
            return Ok(None);
        }
        let few = Few::many(self.alloc, List::from_vec(standing))?;
        Ok(Some(few))
    }

    // Leaves at a digest the elements that have a value of it.
    fn tidy(&mut self, digest: Digest) -> Result<(), Memory>
        ensures { SameRows self.old self.new }
    {
        let found = self.standing(digest)?;
        let Some(standing) = found else {
            return Ok(());
        };
        self.holders.make_slot(digest)?;
        relist(&mut self.holders, digest, standing);
        Ok(())
    }

    // Tidies the holders at a digest that is kept, where there is one.
    fn tidy_kept(&mut self, kept: Option<Digest>) -> Result<(), Memory>
        ensures { SameRows self.old self.new }
    {
        match kept {
            Some(digest) => self.tidy(digest),
            None => Ok(()),
        }
    }

    // Tidies the holders at all digests that are kept, which then are forgotten.
    fn tidy_all_kept(&mut self) -> Result<(), Memory>
        ensures { SameRows self.old self.new }
    {
        self.former.append(&mut self.coming)?;
        for place in 0..self.former.len() {
            let kept = self.former.get(place).copied();
            self.tidy_kept(kept)?;
        }
        self.former.clear();
        Ok(())
    }

    /// Takes out the slots without a row where they are more than half of all, and what is listed without a value at the digests that are
    /// kept.
    pub(crate) fn clear(&mut self) -> Result<(), Memory>
        ensures { SameRows self.old self.new }
    {
        self.rows.clear_slots();
        self.holders.clear_slots();
        self.tidy_all_kept()
    }

    // Lists an element at a digest of an exclusive key.
    fn list(&mut self, digest: Digest, elem: Elem) -> Result<(), Memory>
        requires { is_exclusive self.old.exclusive digest.key ≡ true }
        ensures grows { Grows self.old self.new }
        ensures there { OnOk result (has_elem elem (listed_at self.new.holders.rows digest) ≡ true) }
    {
        // The slot is made first, so that it is found again without hashing.
        self.holders.make_slot(digest)?;
        let lent = elements_at(&self.holders, digest);
        let elems = lent.as_slice();
        if has_elem(elems, elem) {
            return Ok(());
        }
        let few = with_elem(self.alloc, elems, elem)?;
        relist(&mut self.holders, digest, few);
        Ok(())
    }

    // Whether an element has a value of an exclusive key, which then is listed.
    fn has_listed(&self, key: u32, elem: Elem, tuple: &Tuple) -> bool
        requires { is_exclusive self.now.exclusive key ≡ true }
        ensures { result ≡ true → is_listed self.now key tuple.now elem ≡ true }
    {
        let Some(values) = self.rows.get(Member::new(key, elem)) else {
            return false;
        };
        values.contains(tuple)
    }

    // Lists an element where a value that it is to get under an exclusive key is looked for. The digest is kept.
    fn list_value(&mut self, key: u32, elem: Elem, tuple: &Tuple) -> Result<(), Memory>
        requires { is_exclusive self.old.exclusive key ≡ true }
        ensures grows { Grows self.old self.new }
        ensures there { OnOk result (is_listed self.new key tuple.now elem ≡ true) }
    {
        let digest = Digest::of(self.seed, key, tuple);
        self.coming.push(digest)?;
        self.list(digest, elem)
    }

    // Lists an element where each of its values of an exclusive key is looked for. Those that it has already are listed, so that only those
    // that come are hashed.
    fn list_at_each(&mut self, key: u32, elem: Elem, values: &TupleSet) -> Result<(), Memory>
        requires { is_exclusive self.old.exclusive key ≡ true }
        ensures grows { Grows self.old self.new }
        ensures there { OnOk result (list_all (λ tuple. is_listed self.new key tuple elem) values.now ≡ true) }
    {
        let tuples = values.as_slice();
        for tuple in tuples {
            if !self.has_listed(key, elem, tuple) {
                self.list_value(key, elem, tuple)?;
            }
        }
        Ok(())
    }

    // Keeps the digests of the values that an element loses by a change under an exclusive key.
    fn keep_former(&mut self, change: &KeyChange) -> Result<(), Memory>
        ensures { self.new ≡ self.old }
    {
        if !self.is_exclusive(change.key) {
            return Ok(());
        }
        match self.rows.get(Member::new(change.key, change.elem)) {
            Some(values) => add_lost(&mut self.former, self.seed, values, change),
            None => Ok(()),
        }
    }

    /// Takes all memory that a change needs: a slot for the row, and the element listed where its values are looked for. The digests of
    /// the values that it has before and after are kept. A slot is made before the row in it is looked for, which then is found without
    /// hashing.
    pub(crate) fn make_room(&mut self, change: &KeyChange) -> Result<(), Memory>
        ensures grows { Grows self.old self.new }
        ensures room { OnOk result (has_room self.new change.now ≡ true) }
    {
        let Some(values) = &change.values else {
            return self.keep_former(change);
        };
        self.rows.make_slot(Member::new(change.key, change.elem))?;
        self.keep_former(change)?;
        if self.is_exclusive(change.key) {
            self.list_at_each(change.key, change.elem, values)?;
        }
        Ok(())
    }

    /// Forgets the digests that are kept of values that elements were to get by changes, all of which are now done: they have got them
    /// then. Where a row may change twice the digests stay.
    pub(crate) fn settle(&mut self, changes: &[KeyChange])
        ensures { self.new ≡ self.old }
    {
        if ascend(changes) {
            self.coming.clear();
        }
    }

    /// Does a change for which there is room. It takes no memory.
    pub(crate) fn set(&mut self, change: KeyChange)
        requires { has_room self.old change ≡ true }
        ensures rows { self.new.rows.rows ≡ row_changed self.old.rows.rows change }
        ensures room { KeepsRoom self.old self.new }
    {
        let KeyChange { key, elem, values } = change;
        match values {
            Some(values) => self.rows.put(Member::new(key, elem), values),
            None => {
                let _ = self.rows.take(Member::new(key, elem));
            }
        }
    }
}

// Whether changes ascend by key and element, so that each is of a row of its own.
fn ascend(changes: &[KeyChange]) -> bool {
    let mut before: Option<Member> = None;
    for change in changes {
        let member = Member::new(change.key, change.elem);
        if let Some(before) = before {
            if before.cmp(&member).is_ge() {
                return false;
            }
        }
        before = Some(member);
    }
    true
}

// Whether a change leaves its element a value.
fn leaves(change: &KeyChange, tuple: &Tuple) -> bool {
    match &change.values {
        Some(values) => values.contains(tuple),
        None => false,
    }
}

// Adds the digests of those of an element's values that a change doesn't leave it.
fn add_lost(
    digests: &mut Vec<Digest>,
    seed: Seed,
    values: &TupleSet,
    change: &KeyChange,
) -> Result<(), Memory> {
    for tuple in values.as_slice() {
        if !leaves(change, tuple) {
            digests.push(Digest::of(seed, change.key, tuple))?;
        }
    }
    Ok(())
}
