ghost use Rattle.std.specs.Prelude.{◌≡◌, ◌+◌, ◌↔◌, true, None, Some, [], IfOk, OnOk, OnErr};
ghost use Rattle.std.specs.Option.{option_copied};
ghost use Rattle.std.specs.List.{list_all};
ghost use Rattle.std.specs.List.Sorted.{IsStrictlySortedBy};
ghost use Rattle.std.specs.Map.{keys_of};
ghost use Rattle.pgs_base.specs.declared.element.Elem.{Elem};
ghost use Rattle.pgs_base.specs.declared.seed.Seed.TheVariants.{Fixed};
ghost use Rattle.pgs_keyindex.specs.Members.{member_cmp};
ghost use Rattle.pgs_keyindex.specs.Rows.{values_at, has_value, is_exclusive, rows_changed, IsOwned};
ghost use Rattle.pgs_keyindex.specs.Standing.{exclusive_keys};
ghost use Rattle.pgs_keyindex.specs.Table.{has_room, Grows, SameRows};

use crate::table::KeyTable;
use crate::{KeyChange, KeyReady};
use pgs_base::{Elem, List, Memory, Seed, Steps, Tuple, TupleSet};
use pgs_syntax::Key;
use std::alloc::Global;
use std::marker::Model;
use std::snapshot::Snapshot;
use std::sync::ledger::Ledger;

/// For each key the elements of its scope with their key values, and for an exclusive key the owner of each value. Contracts see which
/// keys are exclusive, the seed by which values are hashed, the rows, and the changes that the index is ready for, if any. Keys are
/// numbered from 1.
///
/// The changes that it is ready for take no bytes: they are known to contracts alone.
pub struct KeyIndex {
    table: KeyTable,
    ready: Option<Snapshot<KeyReady>>,
}

impl Model for KeyIndex {
    ghost use Rattle.pgs_keyindex.specs.Index.{IndexState, AreIndexed, ready_for};

    ghost Value = { IndexState };

    ghost view = { λ index. record { exclusive = index.table.exclusive; seed = index.table.seed; rows = index.table.rows.rows; ready = ready_for index.ready } };

    ghost invariant = { λ index. AreIndexed index.table (ready_for index.ready) };
}

// Dropped here, so that crates above need not prove what it holds.
impl Drop for KeyIndex {
    fn drop(self) {
        let KeyIndex { table: _, ready: _ } = self;
    }
}

impl KeyIndex {
    /// The index of these keys without rows, hashed by a seed that is fixed.
    pub fn new(alloc: Global, keys: &List<Key>) -> Result<KeyIndex, Memory>
        ensures exclusive { IfOk result (λ index. index.exclusive ≡ exclusive_keys keys.now) }
        ensures seed { IfOk result (λ index. index.seed ≡ Fixed) }
        ensures rows { IfOk result (λ index. index.rows ≡ []) }
        ensures ready { IfOk result (λ index. index.ready ≡ None) }
    {
        KeyIndex::with_seed(alloc, keys, Seed::Fixed)
    }

    /// The index of these keys without rows, hashed by the given seed.
    pub fn with_seed(alloc: Global, keys: &List<Key>, seed: Seed) -> Result<KeyIndex, Memory>
        ensures exclusive { IfOk result (λ index. index.exclusive ≡ exclusive_keys keys.now) }
        ensures seed { IfOk result (λ index. index.seed ≡ seed) }
        ensures rows { IfOk result (λ index. index.rows ≡ []) }
        ensures ready { IfOk result (λ index. index.ready ≡ None) }
    {
        let exclusive = exclusive_keys(alloc, keys.as_slice())?;
        Ok(KeyIndex {
            table: KeyTable::new(alloc, exclusive, seed),
            ready: None,
        })
    }

    /// What every index meets: its rows ascend by key and element, and no two elements share a value of an exclusive key. Nothing is
    /// done.
    pub fn facts(&self)
        ensures ascending { IsStrictlySortedBy member_cmp (keys_of self.now.rows) }
        ensures owned { IsOwned self.now.exclusive self.now.rows }
    {
        self.table.facts();
    }

    /// The key values of an element under the key of a number. `None` exactly where it has no row. It is one look-up.
    pub fn values_of<L: Ledger>(
        &self,
        key: u32,
        elem: Elem,
        steps: &mut Steps<L>,
    ) -> Option<&TupleSet>
        ensures values { option_copied result ≡ values_at self.now.rows key elem }
        ensures ticks { steps.new ≡ steps.old + 1 }
    {
        steps.tick();
        self.table.values(key, elem)
    }

    /// The element that has a value of an exclusive key. `None` exactly where none has it. It is one look-up.
    pub fn owner_of<L: Ledger>(&self, key: u32, tuple: &Tuple, steps: &mut Steps<L>) -> Option<Elem>
        requires { is_exclusive self.now.exclusive key ≡ true }
        ensures owner { (elem : Elem) → (has_value self.now.rows key elem tuple.now ≡ true) ↔ (result ≡ Some elem) }
        ensures ticks { steps.new ≡ steps.old + 1 }
    {
        steps.tick();
        self.table.owner(key, tuple)
    }

    /// Takes all memory that changes need, so that `commit` needs none. It asks that after them no two elements share a value of an
    /// exclusive key. The rows stay as they are. An Ok makes the index ready for the changes; after `Memory` it is ready for none.
    pub fn prepare(&mut self, changes: List<KeyChange>) -> Result<KeyReady, Memory>
        requires { IsOwned self.old.exclusive (rows_changed self.old.rows changes) }
        ensures exclusive { self.new.exclusive ≡ self.old.exclusive }
        ensures seed { self.new.seed ≡ self.old.seed }
        ensures rows { self.new.rows ≡ self.old.rows }
        ensures changes { IfOk result (λ ready. ready.changes ≡ changes) }
        ensures ready { OnOk result (self.new.ready ≡ Some changes) }
        ensures err { OnErr result (self.new.ready ≡ None) }
    {
        self.ready = None;
        take_memory(&mut self.table, changes.as_slice())?;
        let ready = KeyReady { changes };
        self.ready = Some(Snapshot::of(&ready));
        Ok(ready)
    }

    /// Does changes that the index is ready for: each row with values is set, each without is taken out, and no other changes. It takes
    /// no memory and can't be refused.
    pub fn commit(&mut self, ready: KeyReady)
        requires { self.old.ready ≡ Some ready.changes }
        ensures exclusive { self.new.exclusive ≡ self.old.exclusive }
        ensures seed { self.new.seed ≡ self.old.seed }
        ensures rows { self.new.rows ≡ rows_changed self.old.rows ready.changes }
        ensures ready { self.new.ready ≡ None }
    {
        let KeyReady { changes } = ready;
        self.ready = None;
        self.table.settle(changes.as_slice());
        put_changes(&mut self.table, changes.into_vec());
    }
}

// Which keys are exclusive.
fn exclusive_keys(alloc: Global, keys: &[Key]) -> Result<List<bool>, Memory>
    ensures { IfOk result (λ exclusive. exclusive ≡ exclusive_keys keys.now) }
{
    let mut exclusive = Vec::with_capacity(alloc, keys.len())?;
    for key in keys {
        exclusive.push(key.qualifiers.exclusive)?;
    }
    Ok(List::from_vec(exclusive))
}

// Makes room for changes, in place of what nothing is looked for at any more.
fn take_memory(table: &mut KeyTable, changes: &[KeyChange]) -> Result<(), Memory>
    ensures same { SameRows table.old table.new }
    ensures room { OnOk result (list_all (has_room table.new) changes.now ≡ true) }
{
    table.clear()?;
    make_room(table, changes)
}

fn make_room(table: &mut KeyTable, changes: &[KeyChange]) -> Result<(), Memory>
    ensures grows { Grows table.old table.new }
    ensures room { OnOk result (list_all (has_room table.new) changes.now ≡ true) }
{
    for change in changes {
        table.make_room(change)?;
    }
    Ok(())
}

fn put_changes(table: &mut KeyTable, changes: Vec<KeyChange>)
    requires { list_all (has_room table.old) changes.items ≡ true }
    ensures exclusive { table.new.exclusive ≡ table.old.exclusive }
    ensures seed { table.new.seed ≡ table.old.seed }
    ensures rows { table.new.rows.rows ≡ rows_changed table.old.rows.rows changes.items }
{
    for change in changes {
        table.set(change);
    }
}
