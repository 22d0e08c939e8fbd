//! 27, 28, 29 and 39: the violations of one key from its rows.

ghost use Rattle.std.specs.Prelude.{◌≡◌, ◌++◌, true, map, filter_map, IfOk, OnOk};
ghost use Rattle.pgs_base.specs.Order.{ascends, elem_cmp};
ghost use Rattle.pgs_scratch.specs.declared.key_row.KeyRow.{KeyRow};
ghost use Rattle.pgs_scratch.specs.Rows.{missing_value, several_values, shared_values, count_of_row, rows_violations};

use crate::finding::add;
use crate::key_row::KeyRow;
use crate::owners::shared_values;
use pgs_base::{Copyable, Memory};
use pgs_syntax::Qualifiers;
use pgs_violation::Violation;
use std::alloc::Global;

/// 27 for a row without a key value.
pub(crate) fn missing_value(number: u32, row: &KeyRow) -> Option<Violation>
    ensures { result ≡ missing_value number row.now }
{
    if row.tuples.is_empty() {
        Some(Violation::Mandatory {
            key: number,
            elem: row.elem,
        })
    } else {
        None
    }
}

/// 28 for a row with several key values, with the two least.
pub(crate) fn several_values(
    alloc: Global,
    number: u32,
    row: &KeyRow,
) -> Result<Option<Violation>, Memory>
    ensures { IfOk result (λ found. found ≡ several_values number row.now) }
{
    match row.tuples.as_slice() {
        [first, second, ..] => {
            let first = first.copy(alloc)?;
            let second = second.copy(alloc)?;
            Ok(Some(Violation::Singleton {
                key: number,
                elem: row.elem,
                first,
                second,
            }))
        }
        _ => Ok(None),
    }
}

/// 39 for a row whose number of key values isn't within the bounds.
pub(crate) fn count_of_row(number: u32, bounds: (u32, u32), row: &KeyRow) -> Option<Violation>
    ensures { result ≡ count_of_row number bounds row.now }
{
    let (least, most) = bounds;
    let count = row.tuples.len() as u64;
    if u64::from(least) <= count && count <= u64::from(most) {
        None
    } else {
        Some(Violation::CountOutside {
            key: number,
            elem: row.elem,
            count,
            least,
            most,
        })
    }
}

// Adds 27 for each row without a key value.
fn add_missing_values(
    found: &mut Vec<Violation>,
    number: u32,
    rows: &[KeyRow],
) -> Result<(), Memory>
    ensures { OnOk result (found.new.items ≡ found.old.items ++ filter_map (missing_value number) rows.now) }
{
    for row in rows {
        let violation = missing_value(number, row);
        add(found, violation)?;
    }
    Ok(())
}

// Adds 28 for each row with several key values.
fn add_several_values(
    alloc: Global,
    found: &mut Vec<Violation>,
    number: u32,
    rows: &[KeyRow],
) -> Result<(), Memory>
    ensures { OnOk result (found.new.items ≡ found.old.items ++ filter_map (several_values number) rows.now) }
{
    for row in rows {
        let violation = several_values(alloc, number, row)?;
        add(found, violation)?;
    }
    Ok(())
}

// Adds 29 for each row that shares a key value with a later one.
fn add_shared_values(
    alloc: Global,
    found: &mut Vec<Violation>,
    number: u32,
    rows: &[KeyRow],
) -> Result<(), Memory>
    requires { ascends elem_cmp (map (λ (row : KeyRow). row.elem) rows.now) ≡ true }
    ensures { OnOk result (found.new.items ≡ found.old.items ++ shared_values number rows.now) }
{
    let mut shared = shared_values(alloc, number, rows)?;
    while let Some(violation) = shared.pop() {
        found.push(violation)?;
    }
    Ok(())
}

// Adds 39 for each row whose number of key values isn't within the bounds.
fn add_counts(
    found: &mut Vec<Violation>,
    number: u32,
    bounds: (u32, u32),
    rows: &[KeyRow],
) -> Result<(), Memory>
    ensures { OnOk result (found.new.items ≡ found.old.items ++ filter_map (count_of_row number bounds) rows.now) }
{
    for row in rows {
        let violation = count_of_row(number, bounds, row);
        add(found, violation)?;
    }
    Ok(())
}

/// Adds the violations of a key of this number that has these rows, which ascend.
pub(crate) fn add_rows_violations(
    alloc: Global,
    found: &mut Vec<Violation>,
    asked: Qualifiers,
    number: u32,
    rows: &[KeyRow],
) -> Result<(), Memory>
    requires { ascends elem_cmp (map (λ (row : KeyRow). row.elem) rows.now) ≡ true }
    ensures { OnOk result (found.new.items ≡ found.old.items ++ rows_violations asked number rows.now) }
{
    if asked.mandatory {
        add_missing_values(found, number, rows)?;
    }
    if asked.singleton {
        add_several_values(alloc, found, number, rows)?;
    }
    if asked.exclusive {
        add_shared_values(alloc, found, number, rows)?;
    }
    if let Some(bounds) = asked.count {
        add_counts(found, number, bounds, rows)?;
    }
    Ok(())
}
