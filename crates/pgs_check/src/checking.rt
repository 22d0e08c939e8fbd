//! The first violation of a changed graph, or the changes of the index that stands for it.

ghost use Rattle.std.specs.Prelude.{◌≡◌, ◌+◌, ◌*◌, ◌^◌, ◌≤◌, ◌++◌, ℕ, true, [], Some, None, Option, List as Items, length, map, IfErr, IfOk, OnOk};
ghost use Rattle.std.specs.List.{sum_by};
ghost use Rattle.pgs_base.specs.Graph.{is_graph};
ghost use Rattle.pgs_base.specs.declared.part.Part.{Part};
ghost use Rattle.pgs_base.specs.declared.element.Elem.{Elem};
ghost use Rattle.pgs_base.specs.Order.{ascends, elem_cmp};
ghost use Rattle.pgs_graph.specs.Changed.{changed, is_sound};
ghost use Rattle.pgs_syntax.specs.Valid.{is_valid_key_of};
ghost use Rattle.pgs_violation.specs.Violations.{conforms, key_violations, keys_violations};
ghost use Rattle.pgs_match.specs.Planned.{most_edges};
ghost use Rattle.pgs_check_affected.specs.Changes.{elems_of};
ghost use Rattle.pgs_check_affected.specs.Touched.{touched, AreSparse};
ghost use Rattle.pgs_keyindex.specs.declared.change.KeyChange.{KeyChange};
ghost use Rattle.pgs_keyindex.specs.Rows.{IsOwned, is_exclusive, rows_changed};
ghost use Rattle.pgs_keyindex.specs.Standing.{StandsFor, key_at, values_in_scope};
ghost use Rattle.pgs_check.specs.Clashes.{IsOwner, look_ups};
ghost use Rattle.pgs_check.specs.Costs.{HaveEdgesWithin};
ghost use Rattle.pgs_check.specs.Rows.{first_outside, first_of_rows};
ghost use Rattle.pgs_check.specs.Standing.{IsFirst, IsFirstOf, IsFound, AreRows, AreChanges, ChangeEachOnce, index_changed};

use crate::changed_rows::changed_rows;
use crate::check_types;
use crate::rule::{Rule, first_found, first_if};
use crate::sharing::Owners;
use pgs_base::{Elem, List, Memory, Steps};
use pgs_check_affected::Change;
use pgs_conform::Compiled;
use pgs_graph::{Delta, GraphRead};
use pgs_keyindex::{KeyChange, KeyIndex};
use pgs_match::PlannedKey;
use pgs_overlay::Overlay;
use pgs_syntax::Qualifiers;
use pgs_tables::Tables;
use pgs_violation::Violation;
use std::alloc::Global;
use std::mem;
use std::sync::ledger::Ledger;

/// Why a check gives no changes.
#[derive(Drop)]
pub enum CheckFault {
    /// No memory was left.
    Memory,
    /// The changed graph doesn't conform, and this is its first violation.
    Violated(Violation),
}

impl From<Memory> for CheckFault {
    ghost use Rattle.std.specs.Prelude.{◌≡◌};
    ghost use Rattle.pgs_check.specs.declared.checking.CheckFault.TheVariants as faults;

    ghost from_gives = { λ _ e. e ≡ faults.Memory };

    fn from(_: Memory) -> CheckFault {
        CheckFault::Memory
    }
}

// The first 39 that rows make, where a key has bounds.
fn first_outside(
    alloc: Global,
    bounds: Option<(u32, u32)>,
    number: u32,
    rows: &[KeyChange],
) -> Result<Option<Violation>, Memory>
    ensures { IfOk result (λ found. found ≡ first_outside bounds number rows.now) }
{
    match bounds {
        Some(bounds) => first_found(alloc, Rule::Count(bounds), number, rows),
        None => Ok(None),
    }
}

// The first violation of a key that rows make: 27, else 28, else 29, else 39.
fn first_of_rows<L: Ledger>(
    alloc: Global,
    owners: &Owners<'_>,
    asked: Qualifiers,
    rows: &[KeyChange],
    steps: &mut Steps<L>,
) -> Result<Option<Violation>, Memory>
    requires exclusive { asked.exclusive ≡ true → is_exclusive owners.now.index.now.exclusive owners.now.number ≡ true }
    requires ascending { ascends elem_cmp owners.now.changed.now ≡ true }
    requires elems { map (λ (row : KeyChange). row.elem) rows.now ≡ owners.now.changed.now }
    ensures first { (owner : Items Part → Option Elem) →
        (asked.exclusive ≡ true → IsOwner owners.now.index.now.rows owners.now.number owners.now.changed.now owner) →
        IfOk result (λ found. found ≡ first_of_rows asked owners.now.number owner rows.now) }
    ensures no_step_back { steps.old ≤ steps.new }
    ensures cost { steps.new ≤ steps.old + sum_by (look_ups owners.now.index.now.rows owners.now.number) rows.now }
{
    let missing = first_if(alloc, asked.mandatory, Rule::Mandatory, owners.number, rows)?;
    if let Some(found) = missing {
        return Ok(Some(found));
    }
    let several = first_if(alloc, asked.singleton, Rule::Singleton, owners.number, rows)?;
    if let Some(found) = several {
        return Ok(Some(found));
    }
    let shared = owners.least_shared(alloc, asked.exclusive, rows, steps)?;
    match shared {
        Some(found) => Ok(Some(found)),
        None => first_outside(alloc, asked.count, owners.number, rows),
    }
}

// The first violation of a key that the rows of the changed elements make.
fn first_of_changed<L: Ledger>(
    alloc: Global,
    index: &KeyIndex,
    number: u32,
    key: &PlannedKey,
    changed: &[Elem],
    rows: &[KeyChange],
    steps: &mut Steps<L>,
) -> Result<Option<Violation>, Memory>
    requires exclusive { key.now.qualifiers.exclusive ≡ true → is_exclusive index.now.exclusive number ≡ true }
    requires ascending { ascends elem_cmp changed.now ≡ true }
    requires elems { map (λ (row : KeyChange). row.elem) rows.now ≡ changed.now }
    ensures first { (owner : Items Part → Option Elem) →
        (key.now.qualifiers.exclusive ≡ true → IsOwner index.now.rows number changed.now owner) →
        IfOk result (λ found. found ≡ first_of_rows key.now.qualifiers number owner rows.now) }
    ensures no_step_back { steps.old ≤ steps.new }
    ensures cost { steps.new ≤ steps.old + sum_by (look_ups index.now.rows number) rows.now }
{
    let owners = Owners {
        index,
        number,
        changed,
    };
    let asked = key.key().qualifiers;
    first_of_rows(alloc, &owners, asked, rows, steps)
}

// The elements of rows, in their order.
fn elems_of(alloc: Global, rows: &[KeyChange]) -> Result<Vec<Elem>, Memory>
    ensures { IfOk result (λ elems. elems.items ≡ map (λ (row : KeyChange). row.elem) rows.now) }
{
    let mut elems = Vec::with_capacity(alloc, rows.len())?;
    for row in rows {
        elems.push(row.elem)?;
    }
    Ok(elems)
}

// The rows of the changed elements, where they make no violation of the key.
fn kept_rows<L: Ledger>(
    alloc: Global,
    index: &KeyIndex,
    number: u32,
    key: &PlannedKey,
    changed: &[Elem],
    rows: Vec<KeyChange>,
    steps: &mut Steps<L>,
) -> Result<Vec<KeyChange>, CheckFault>
    requires exclusive { key.now.qualifiers.exclusive ≡ true → is_exclusive index.now.exclusive number ≡ true }
    requires ascending { ascends elem_cmp changed.now ≡ true }
    requires elems { map (λ (row : KeyChange). row.elem) rows.items ≡ changed.now }
    ensures violated { (owner : Items Part → Option Elem) →
        (key.now.qualifiers.exclusive ≡ true → IsOwner index.now.rows number changed.now owner) →
        IfErr result (IsFound (first_of_rows key.now.qualifiers number owner rows.items)) }
    ensures none { (owner : Items Part → Option Elem) →
        (key.now.qualifiers.exclusive ≡ true → IsOwner index.now.rows number changed.now owner) →
        OnOk result (first_of_rows key.now.qualifiers number owner rows.items ≡ None) }
    ensures kept { IfOk result (λ kept. kept.items ≡ rows.items) }
    ensures no_step_back { steps.old ≤ steps.new }
    ensures cost { steps.new ≤ steps.old + sum_by (look_ups index.now.rows number) rows.items }
{
    let found = first_of_changed(alloc, index, number, key, changed, rows.as_slice(), steps)?;
    match found {
        Some(violation) => Err(CheckFault::Violated(violation)),
        None => Ok(rows),
    }
}

// The rows of one key, of this number, that the change may alter, where the changed graph doesn't violate it.
fn check_key<L: Ledger>(
    alloc: Global,
    index: &KeyIndex,
    compiled: &Compiled,
    number: u32,
    key: &PlannedKey,
    change: &Change<'_>,
    new: &Overlay<'_>,
    steps: &mut Steps<L>,
) -> Result<Vec<KeyChange>, CheckFault>
    requires typed { is_valid_key_of compiled.now key.now ≡ true }
    requires number { key_at compiled.now.guard.keys number ≡ Some key.now }
    requires before { is_graph change.now.before ≡ true }
    requires after { new.now ≡ change.now.after }
    requires index { StandsFor compiled.now change.now.before compiled.now.guard.keys index.now }
    requires conforms { key_violations compiled.now change.now.before number key.now ≡ [] }
    ensures violated { IfErr result (IsFirstOf (key_violations compiled.now new.now number key.now)) }
    ensures none { OnOk result (key_violations compiled.now new.now number key.now ≡ []) }
    ensures rows { IfOk result (λ rows. AreRows number (values_in_scope compiled.now change.now.before key.now)
        (values_in_scope compiled.now new.now key.now) rows.items) }
    ensures no_step_back { steps.old ≤ steps.new }
    ensures cost { (edges most : ℕ) → most_edges key.now ≤ edges →
        AreSparse change.now.before change.now.after (2 * edges) (touched change.now.before change.now.elems) most →
        steps.new ≤ steps.old + 2048 * length (touched change.now.before change.now.elems) * (most + 2) ^ (2 * edges + 2) }
{
    // The count's clause says that what is read is a graph.
    let _facts = new.count();
    let rows = changed_rows(alloc, compiled, number, key, change, new, steps)?;
    let given = rows.as_slice();
    if given.is_empty() {
        return Ok(rows);
    }
    let changed = elems_of(alloc, given)?;
    let elems = changed.as_slice();
    kept_rows(alloc, index, number, key, elems, rows, steps)
}

// The rows of all keys, where the changed graph violates none of them.
fn check_keys<L: Ledger>(
    alloc: Global,
    index: &KeyIndex,
    compiled: &Compiled,
    keys: &[PlannedKey],
    change: &Change<'_>,
    new: &Overlay<'_>,
    steps: &mut Steps<L>,
) -> Result<Vec<KeyChange>, CheckFault>
    requires keys { keys.now ≡ compiled.now.guard.keys }
    requires before { is_graph change.now.before ≡ true }
    requires after { new.now ≡ change.now.after }
    requires index { StandsFor compiled.now change.now.before compiled.now.guard.keys index.now }
    requires conforms { keys_violations compiled.now change.now.before 1 compiled.now.guard.keys ≡ [] }
    ensures violated { IfErr result (IsFirstOf (keys_violations compiled.now new.now 1 compiled.now.guard.keys)) }
    ensures none { OnOk result (keys_violations compiled.now new.now 1 compiled.now.guard.keys ≡ []) }
    ensures changes { IfOk result (λ changes. AreChanges compiled.now change.now.before new.now compiled.now.guard.keys (length keys.now) changes.items) }
    ensures no_step_back { steps.old ≤ steps.new }
    ensures cost { (edges most : ℕ) → HaveEdgesWithin keys.now edges →
        AreSparse change.now.before change.now.after (2 * edges) (touched change.now.before change.now.elems) most →
        steps.new ≤ steps.old + length keys.now * (2048 * length (touched change.now.before change.now.elems) * (most + 2) ^ (2 * edges + 2)) }
{
    // The schema's clause says that its keys are valid.
    let _facts = compiled.resolved();
    let mut changes = Vec::new(alloc);
    for (place, key) in keys.iter().enumerate() {
        let number = place as u32 + 1;
        let mut rows = check_key(alloc, index, compiled, number, key, change, new, steps)?;
        append(&mut changes, &mut rows)?;
    }
    Ok(changes)
}

// Moves rows behind changes. Those of the first key are taken as they are.
fn append(changes: &mut Vec<KeyChange>, rows: &mut Vec<KeyChange>) -> Result<(), Memory>
    ensures { OnOk result (changes.new.items ≡ changes.old.items ++ rows.old.items) }
{
    if changes.is_empty() {
        mem::swap(changes, rows);
    } else {
        changes.append(rows)?;
    }
    Ok(())
}

/// The first violation of a changed graph, or the changes that make an index of the graph before it an index of the changed one. It asks
/// that the graph before conforms, that the index stands for it, that `keys` are the plans of all keys of the guard, in order, and that
/// `new` is its overlay by the sound delta.
///
/// `Violated` comes exactly where the changed graph doesn't conform, with the first of its violations by `verdict` of `pgs_violation`;
/// `Memory` where none was left. Nothing is changed. The changes ascend by key and element; after them no two elements share a value of
/// an exclusive key, as `KeyIndex::prepare` asks.
///
/// Let k be the number of keys, u that of the delta's elements and the edges of either graph at its nodes, and let no node within twice w
/// edges of one of these, over the edges of both graphs together, have more than d edges in either, where no pattern of the keys has more
/// than w edge variables. Then it takes at most 3072 * (k + 1) * (u + 1) * (d + 2)^(2w + 2) look-ups, at every exit.
pub fn check<L: Ledger>(
    alloc: Global,
    old: &Tables,
    index: &KeyIndex,
    compiled: &Compiled,
    keys: &List<PlannedKey>,
    new: &Overlay<'_>,
    delta: &Delta,
    steps: &mut Steps<L>,
) -> Result<List<KeyChange>, CheckFault>
    requires sound { is_sound old.now.graph delta.now ≡ true }
    requires overlay { new.now ≡ changed old.now.graph delta.now }
    requires conforms { conforms compiled.now old.now.graph ≡ true }
    requires index { StandsFor compiled.now old.now.graph compiled.now.guard.keys index.now }
    requires keys { keys.now ≡ compiled.now.guard.keys }
    ensures violated { IfErr result (IsFirst compiled.now new.now) }
    ensures conforms { OnOk result (conforms compiled.now new.now ≡ true) }
    ensures once { IfOk result ChangeEachOnce }
    ensures owned { IfOk result (λ changes. IsOwned index.now.exclusive (rows_changed index.now.rows changes)) }
    ensures stands { IfOk result (λ changes. StandsFor compiled.now new.now compiled.now.guard.keys (index_changed index.now changes)) }
    ensures no_step_back { steps.old ≤ steps.new }
    ensures cost { (edges most : ℕ) → HaveEdgesWithin keys.now edges →
        AreSparse old.now.graph new.now (2 * edges) (touched old.now.graph (elems_of delta.now)) most →
        steps.new ≤ steps.old + 3072 * (length keys.now + 1) * (length (touched old.now.graph (elems_of delta.now)) + 1) * (most + 2) ^ (2 * edges + 2) }
{
    // What is read is a graph, and the index has one owner for each value of an exclusive key.
    let _facts = old.count();
    index.facts();
    if let Some(violation) = check_types(old, compiled, new, delta, steps) {
        return Err(CheckFault::Violated(violation));
    }
    let change = Change::new(alloc, old, new, delta, steps)?;
    let changes = check_keys(alloc, index, compiled, keys.as_slice(), &change, new, steps)?;
    Ok(List::from_vec(changes))
}
