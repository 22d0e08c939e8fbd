//! What the changes of a delta say of one number, of all numbers, and of how many there are.

ghost use Rattle.std.specs.Prelude.{◌≡◌, ◌+◌, length, List, IfOk, OnOk, OnErr, MatchResult};
ghost use Rattle.std.specs.Option.{option_copied};
ghost use Rattle.std.specs.List.Sorted.{IsStrictlySortedBy};
ghost use Rattle.std.specs.Map.{keys_of, lookup};
ghost use Rattle.std.specs.BTreeMap.{is_at};
ghost use Rattle.pgs_base.specs.Places.{IsEntryAt, IsEntryGap};
ghost use Rattle.pgs_graph.specs.Changed.{entries_changed};
ghost use Rattle.pgs_overlay.specs.Keys.{key_changed};

use pgs_base::{List, Memory, Steps};
use pgs_graph::tick_each;
use std::alloc::Global;
use std::cmp::Ordering;
use std::collections::BTreeSet;
use std::sync::ledger::Ledger;

// Where a key stands among changes, or where it would go.
fn place<K: Ord, V>(changes: &[(K, Option<V>)], key: &K) -> Result<usize, usize>
    requires { IsStrictlySortedBy K.cmp (keys_of changes.now) }
    ensures { MatchResult result (IsEntryAt K.cmp key.now changes.now) (IsEntryGap K.cmp key.now changes.now) }
{
    changes.binary_search_by(
        |change: &(K, Option<V>)| -> Ordering
            ensures { result ≡ K.cmp change.now.0 key.entry.now }
        { change.0.cmp(key) },
    )
}

/// The change of a key, where there is one, among changes of ascending keys.
pub(crate) fn change_of<'a, K: Ord, V>(
    changes: &'a [(K, Option<V>)],
    key: &K,
) -> Option<&'a Option<V>>
    requires { IsStrictlySortedBy K.cmp (keys_of changes.now) }
    ensures { option_copied result ≡ lookup (is_at (K.cmp key.now)) changes.now }
{
    match place(changes, key) {
        Ok(place) => Some(&changes[place].1),
        Err(_) => None,
    }
}

// Puts a changed key in, or takes it out.
fn change_key<K: Ord + Copy + Drop, V>(
    keys: &mut BTreeSet<K>,
    change: &(K, Option<V>),
) -> Result<(), Memory>
    ensures { OnOk result (keys.new.keys ≡ key_changed K.cmp keys.old.keys change.now.0 change.now.1) }
{
    if change.1.is_some() {
        keys.insert(change.0)?;
    } else {
        keys.remove(&change.0);
    }
    Ok(())
}

// The keys before changes, in order, as a set.
fn key_set<K: Ord + Copy + Drop>(alloc: Global, before: &[K]) -> Result<BTreeSet<K>, Memory>
    requires { IsStrictlySortedBy K.cmp before.now }
    ensures { IfOk result (λ keys. keys.keys ≡ before.now) }
{
    let mut keys = BTreeSet::new(alloc);
    for key in before {
        keys.insert(*key)?;
    }
    Ok(keys)
}

// Puts all changed keys in, or takes them out.
fn change_keys<K: Ord + Copy + Drop, V>(
    keys: &mut BTreeSet<K>,
    changes: &[(K, Option<V>)],
) -> Result<(), Memory>
    ensures { (entries : List (K × V)) → keys_of entries ≡ keys.old.keys →
        OnOk result (keys.new.keys ≡ keys_of (entries_changed K.cmp entries changes.now)) }
{
    for change in changes {
        change_key(keys, change)?;
    }
    Ok(())
}

fn key_list<K: Ord + Drop>(alloc: Global, keys: BTreeSet<K>) -> Result<List<K>, Memory>
    ensures { IfOk result (λ list. list ≡ keys.keys) }
{
    let list = keys.into_iter().collect::<Vec<_>>(alloc)?;
    Ok(List::from_vec(list))
}

/// The keys after changes, ascending, of the keys before them, with a tick for each. After `Memory` there was no tick.
pub(crate) fn changed_keys<K: Ord + Copy + Drop, V, L: Ledger>(
    alloc: Global,
    before: &[K],
    changes: &[(K, Option<V>)],
    steps: &mut Steps<L>,
) -> Result<List<K>, Memory>
    requires { IsStrictlySortedBy K.cmp before.now }
    ensures keys { (entries : List (K × V)) → keys_of entries ≡ before.now →
        IfOk result (λ keys. keys ≡ keys_of (entries_changed K.cmp entries changes.now)) }
    ensures each_ticks { IfOk result (λ keys. steps.new ≡ steps.old + length keys) }
    ensures err { OnErr result (steps.new ≡ steps.old) }
{
    let mut keys = key_set(alloc, before)?;
    change_keys(&mut keys, changes)?;
    let keys = key_list(alloc, keys)?;
    tick_each(steps, keys.len());
    Ok(keys)
}
