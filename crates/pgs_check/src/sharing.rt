//! 29: changed elements that share a key value with each other, or with an element that isn't changed.

ghost use Rattle.std.specs.Prelude.{◌≡◌, ◌↔◌, ◌+◌, ◌≤◌, true, false, cond, None, Some, Option, List as Items, map, count_by, IfOk, OnOk, MatchResult};
ghost use Rattle.std.specs.BTreeMap as tree;
ghost use Rattle.std.specs.Option.{option_copied, option_map_or};
ghost use Rattle.std.specs.List.{sum_by};
ghost use Rattle.pgs_base.specs.declared.element.Elem.{Elem};
ghost use Rattle.pgs_base.specs.declared.part.Part.{Part};
ghost use Rattle.pgs_base.specs.Order.{ascends, elem_cmp, tuple_cmp};
ghost use Rattle.pgs_base.specs.Places.{IsKeyAt, IsKeyGap};
ghost use Rattle.pgs_check_affected.specs.Local.{is_one_of};
ghost use Rattle.pgs_keyindex.specs.declared.change.KeyChange.{KeyChange};
ghost use Rattle.pgs_keyindex.specs.Rows.{has_tuple, has_value, is_exclusive};
ghost use Rattle.pgs_check.specs.Clashes.{IsOwner, comes, look_ups, tuples_of, with_holders, with_earlier};
ghost use Rattle.pgs_check.specs.Rows.{first_if, least_shared};

use crate::clash::with_holder;
use pgs_base::{Elem, Memory, Steps, Tuple, TupleSet};
use pgs_keyindex::{KeyChange, KeyIndex};
use pgs_violation::Violation;
use std::alloc::Global;
use std::collections::BTreeMap;
use std::sync::ledger::Ledger;

/// The owners of the key values of an exclusive key, of this number, before a change, and the elements that the change may alter.
#[derive(Clone, Copy)]
pub(crate) struct Owners<'a> {
    pub(crate) index: &'a KeyIndex,
    pub(crate) number: u32,
    pub(crate) changed: &'a [Elem],
}

/// The key values of a row.
fn tuples_of(row: &KeyChange) -> &[Tuple]
    ensures { result.now ≡ tuples_of row.now }
{
    match &row.values {
        Some(tuples) => tuples.as_slice(),
        None => &[],
    }
}

// Whether a tuple is among the key values that an element had, if any.
fn is_former(former: Option<&TupleSet>, tuple: &Tuple) -> bool
    ensures { result ≡ option_map_or (has_tuple tuple.now) (option_copied former.entry) false }
{
    match former {
        Some(tuples) => tuples.contains(tuple),
        None => false,
    }
}

// Where an element stands among those that ascend, or would stand.
fn place_of(elems: &[Elem], elem: Elem) -> Result<usize, usize>
    requires { ascends elem_cmp elems.now ≡ true }
    ensures { MatchResult result (IsKeyAt elem_cmp elem elems.now) (IsKeyGap elem_cmp elem elems.now) }
{
    elems.binary_search(&elem)
}

// Whether an element is one of those that ascend.
fn is_one_of(elems: &[Elem], elem: Elem) -> bool
    requires { ascends elem_cmp elems.now ≡ true }
    ensures { result ≡ is_one_of elems.now elem }
{
    place_of(elems, elem).is_ok()
}

impl<'a> Owners<'a> {
    // The owner of a tuple, where it has one that isn't changed. One look-up.
    fn unchanged_owner<L: Ledger>(&self, tuple: &Tuple, steps: &mut Steps<L>) -> Option<Elem>
        requires exclusive { is_exclusive self.now.index.now.exclusive self.now.number ≡ true }
        requires ascending { ascends elem_cmp self.now.changed.now ≡ true }
        ensures owner { (elem : Elem) → ((has_value self.now.index.now.rows self.now.number elem tuple.now ≡ true)
            × (is_one_of self.now.changed.now elem ≡ false)) ↔ (result ≡ Some elem) }
        ensures tick { steps.new ≡ steps.old + 1 }
    {
        let Some(owner) = self.index.owner_of(self.number, tuple, steps) else {
            return None;
        };
        if is_one_of(self.changed, owner) {
            None
        } else {
            Some(owner)
        }
    }

    // What was found, or the least that a changed element makes with the unchanged owners of its tuples. No other element owns a tuple that
    // it had before, so that an owner is looked for of those alone that come to it. One look-up for what it had, and one for each of these.
    fn with_owners_of<L: Ledger>(
        &self,
        alloc: Global,
        elem: Elem,
        mut found: Option<Violation>,
        tuples: &[Tuple],
        steps: &mut Steps<L>,
    ) -> Result<Option<Violation>, Memory>
        requires exclusive { is_exclusive self.now.index.now.exclusive self.now.number ≡ true }
        requires ascending { ascends elem_cmp self.now.changed.now ≡ true }
        requires changed { is_one_of self.now.changed.now elem ≡ true }
        ensures least { (owner : Items Part → Option Elem) → IsOwner self.now.index.now.rows self.now.number self.now.changed.now owner →
            IfOk result (λ least. least ≡ with_holders self.now.number owner elem found tuples.now) }
        ensures no_step_back { steps.old ≤ steps.new }
        ensures cost { steps.new ≤ steps.old + 1 + count_by (comes self.now.index.now.rows self.now.number elem) tuples.now }
    {
        self.index.facts();
        let former = self.index.values_of(self.number, elem, steps);
        for tuple in tuples {
            if !is_former(former, tuple) {
                let owner = self.unchanged_owner(tuple, steps);
                let least = with_holder(alloc, self.number, elem, found, tuple, owner)?;
                found = least;
            }
        }
        Ok(found)
    }

    /// The least violation that rows make by their key values, with the unchanged owners of these and among each other, where the key asks
    /// for it. One look-up for each row, and one for each key value that comes to its element.
    pub(crate) fn least_shared<L: Ledger>(
        &self,
        alloc: Global,
        asked: bool,
        rows: &[KeyChange],
        steps: &mut Steps<L>,
    ) -> Result<Option<Violation>, Memory>
        requires exclusive { asked ≡ true → is_exclusive self.now.index.now.exclusive self.now.number ≡ true }
        requires ascending { ascends elem_cmp self.now.changed.now ≡ true }
        requires elems { map (λ (row : KeyChange). row.elem) rows.now ≡ self.now.changed.now }
        ensures least { (owner : Items Part → Option Elem) →
            (asked ≡ true → IsOwner self.now.index.now.rows self.now.number self.now.changed.now owner) →
            IfOk result (λ least. least ≡ first_if asked (least_shared self.now.number owner rows.now)) }
        ensures no_step_back { steps.old ≤ steps.new }
        ensures cost { steps.new ≤ steps.old + sum_by (look_ups self.now.index.now.rows self.now.number) rows.now }
    {
        if !asked {
            return Ok(None);
        }
        let mut found = None;
        for row in rows {
            let tuples = tuples_of(row);
            let least = self.with_owners_of(alloc, row.elem, found, tuples, steps)?;
            found = least;
        }
        // A row alone has none before it.
        if rows.len() < 2 {
            return Ok(found);
        }
        with_earlier(alloc, self.number, found, rows)
    }
}

// What was found, or the least that an element makes with those that a table has for its tuples.
fn with_holders<'a>(
    alloc: Global,
    table: &BTreeMap<&'a Tuple, Elem>,
    number: u32,
    elem: Elem,
    mut found: Option<Violation>,
    tuples: &'a [Tuple],
) -> Result<Option<Violation>, Memory>
    ensures { IfOk result (λ least. least ≡ with_holders number (λ q. tree.get_by (λ k. tuple_cmp q k.now) table.now) elem found tuples.now) }
{
    for tuple in tuples {
        let holder = table.get(&tuple).copied();
        let least = with_holder(alloc, number, elem, found, tuple, holder)?;
        found = least;
    }
    Ok(found)
}

// Makes an element the holder of each of its tuples.
fn enter<'a>(
    table: &mut BTreeMap<&'a Tuple, Elem>,
    elem: Elem,
    tuples: &'a [Tuple],
) -> Result<(), Memory>
    ensures { OnOk result ((q : Items Part) → tree.get_by (λ k. tuple_cmp q k.now) table.new
        ≡ cond (has_tuple q tuples.now) (Some elem) (tree.get_by (λ k. tuple_cmp q k.now) table.old)) }
{
    for tuple in tuples {
        table.insert(tuple, elem)?;
    }
    Ok(())
}

// What was found, or the least that rows make among each other. One table serves all rows: it has the last row before with each tuple.
fn with_earlier(
    alloc: Global,
    number: u32,
    mut found: Option<Violation>,
    rows: &[KeyChange],
) -> Result<Option<Violation>, Memory>
    ensures { IfOk result (λ least. least ≡ with_earlier number (λ q. None) found rows.now) }
{
    let mut table = BTreeMap::new(alloc);
    for row in rows {
        let tuples = tuples_of(row);
        let least = with_holders(alloc, &table, number, row.elem, found, tuples)?;
        found = least;
        enter(&mut table, row.elem, tuples)?;
    }
    Ok(found)
}
