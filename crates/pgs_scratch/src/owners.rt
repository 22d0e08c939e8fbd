//! Rows that share a key value, by one table from each tuple to the first of the later rows that has it.

ghost use Rattle.std.specs.Prelude.{◌≡◌, true, Some, None, List as Items, map, reverse, option_map, cond, IfOk, OnOk};
ghost use Rattle.std.specs.BTreeMap as tree;
ghost use Rattle.std.specs.List.{list_any};
ghost use Rattle.pgs_base.specs.declared.part.Part.{Part};
ghost use Rattle.pgs_base.specs.Order.{ascends, elem_cmp, tuple_cmp};
ghost use Rattle.pgs_violation.specs.declared.violation.Violation.TheVariants.{Exclusive};
ghost use Rattle.pgs_scratch.specs.declared.key_row.KeyRow.{KeyRow};
ghost use Rattle.pgs_scratch.specs.Owners.{nearer, nearest, with_tuple};
ghost use Rattle.pgs_scratch.specs.Rows.{shared_values};

use crate::finding::add;
use crate::key_row::KeyRow;
use crate::marks::are_apart;
use pgs_base::{Copyable, Elem, Memory, Tuple};
use pgs_violation::Violation;
use std::alloc::Global;
use std::collections::BTreeMap;

// Of what was found, an element with a tuple, and the owner of a further tuple, the one with the lesser element.
fn nearer<'a>(
    found: Option<(Elem, &'a Tuple)>,
    owner: Option<Elem>,
    tuple: &'a Tuple,
) -> Option<(Elem, &'a Tuple)>
    ensures { option_map with_tuple result ≡ nearer (option_map with_tuple found.entry) owner tuple.now }
{
    let Some(elem) = owner else {
        return found;
    };
    match found {
        Some(sharer) => {
            if elem < sharer.0 {
                Some((elem, tuple))
            } else {
                Some(sharer)
            }
        }
        None => Some((elem, tuple)),
    }
}

// Makes a row the owner of each of its tuples, and gives the nearest of the owners before, with the first tuple that it had. One look-up
// for each tuple. No tuple of the row is another one, so none of these owners is the row itself.
fn enter<'a>(
    table: &mut BTreeMap<&'a Tuple, Elem>,
    row: &'a KeyRow,
) -> Result<Option<(Elem, &'a Tuple)>, Memory>
    ensures nearest { IfOk result (λ found. option_map with_tuple found
        ≡ nearest (λ q. tree.get_by (λ k. tuple_cmp q k.now) table.old) None row.now.tuples) }
    ensures owners { OnOk result ((q : Items Part) → tree.get_by (λ k. tuple_cmp q k.now) table.new
        ≡ cond (list_any (tree.is_at (tuple_cmp q)) row.now.tuples) (Some row.now.elem) (tree.get_by (λ k. tuple_cmp q k.now) table.old)) }
{
    let mut found = None;
    for tuple in row.tuples.as_slice() {
        let owner = table.insert(tuple, row.elem)?;
        found = nearer(found, owner, tuple);
    }
    Ok(found)
}

// 29 for a row, by the table of the rows after it, in which the row becomes the owner of each of its tuples.
fn first_sharer<'a>(
    alloc: Global,
    number: u32,
    row: &'a KeyRow,
    table: &mut BTreeMap<&'a Tuple, Elem>,
) -> Result<Option<Violation>, Memory>
    ensures first { IfOk result (λ found. found ≡ option_map (λ sharer. Exclusive number row.now.elem sharer.0 sharer.1)
        (nearest (λ q. tree.get_by (λ k. tuple_cmp q k.now) table.old) None row.now.tuples)) }
    ensures owners { OnOk result ((q : Items Part) → tree.get_by (λ k. tuple_cmp q k.now) table.new
        ≡ cond (list_any (tree.is_at (tuple_cmp q)) row.now.tuples) (Some row.now.elem) (tree.get_by (λ k. tuple_cmp q k.now) table.old)) }
{
    match enter(table, row)? {
        Some((second, tuple)) => {
            let tuple = tuple.copy(alloc)?;
            Ok(Some(Violation::Exclusive {
                key: number,
                first: row.elem,
                second,
                tuple,
            }))
        }
        None => Ok(None),
    }
}

// The same by one table, which is gone through from the last row, and has the owners among the rows after.
fn shared_by_table(alloc: Global, number: u32, rows: &[KeyRow]) -> Result<Vec<Violation>, Memory>
    requires { ascends elem_cmp (map (λ (row : KeyRow). row.elem) rows.now) ≡ true }
    ensures { IfOk result (λ found. reverse found.items ≡ shared_values number rows.now) }
{
    let mut table = BTreeMap::new(alloc);
    let mut found = Vec::new(alloc);
    for place in (0..rows.len()).rev() {
        let row = &rows[place];
        let violation = first_sharer(alloc, number, row, &mut table)?;
        add(&mut found, violation)?;
    }
    Ok(found)
}

/// 29 for each row that shares a key value with a later one, the last first. The rows ascend. Where their key values are seen to be all
/// apart, as nearly always, no table is made.
pub(crate) fn shared_values(
    alloc: Global,
    number: u32,
    rows: &[KeyRow],
) -> Result<Vec<Violation>, Memory>
    requires { ascends elem_cmp (map (λ (row : KeyRow). row.elem) rows.now) ≡ true }
    ensures { IfOk result (λ found. reverse found.items ≡ shared_values number rows.now) }
{
    let apart = are_apart(alloc, rows)?;
    if apart {
        return Ok(Vec::new(alloc));
    }
    shared_by_table(alloc, number, rows)
}
