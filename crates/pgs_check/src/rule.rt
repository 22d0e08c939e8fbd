//! 27, 28 and 39: what a key asks of each element of its scope alone.

ghost use Rattle.std.specs.Prelude.{◌≡◌, None, IfOk};
ghost use Rattle.pgs_violation.specs.Violations.{two_least, count_outside};
ghost use Rattle.pgs_check.specs.Rows.{missing_value, found_in, first_found, first_if};

use pgs_base::{Copyable, Elem, Memory, TupleSet};
use pgs_keyindex::KeyChange;
use pgs_violation::Violation;
use std::alloc::Global;

/// What a key asks of an element alone: that it has a key value, that it has at most one, or that their number is within bounds.
#[derive(Clone, Copy)]
pub(crate) enum Rule {
    Mandatory,
    Singleton,
    Count((u32, u32)),
}

// 27 for an element without a key value.
fn missing_value(number: u32, elem: Elem, tuples: &TupleSet) -> Option<Violation>
    ensures { result ≡ missing_value number elem tuples.now }
{
    if tuples.is_empty() {
        Some(Violation::Mandatory { key: number, elem })
    } else {
        None
    }
}

// 28 for an element with several key values, with the two least.
fn several_values(
    alloc: Global,
    number: u32,
    elem: Elem,
    tuples: &TupleSet,
) -> Result<Option<Violation>, Memory>
    ensures { IfOk result (λ found. found ≡ two_least number elem tuples.now) }
{
    match tuples.as_slice() {
        [first, second, ..] => {
            let first = first.copy(alloc)?;
            let second = second.copy(alloc)?;
            Ok(Some(Violation::Singleton {
                key: number,
                elem,
                first,
                second,
            }))
        }
        _ => Ok(None),
    }
}

// 39 for an element whose number of key values isn't within the bounds.
fn count_outside(
    number: u32,
    bounds: (u32, u32),
    elem: Elem,
    tuples: &TupleSet,
) -> Option<Violation>
    ensures { result ≡ count_outside number bounds elem tuples.now }
{
    let (least, most) = bounds;
    let count = tuples.len() as u64;
    if u64::from(least) <= count && count <= u64::from(most) {
        None
    } else {
        Some(Violation::CountOutside {
            key: number,
            elem,
            count,
            least,
            most,
        })
    }
}

// What a rule finds of a row.
fn found_in(
    alloc: Global,
    rule: Rule,
    number: u32,
    row: &KeyChange,
) -> Result<Option<Violation>, Memory>
    ensures { IfOk result (λ found. found ≡ found_in rule number row.now) }
{
    let Some(tuples) = &row.values else {
        return Ok(None);
    };
    match rule {
        Rule::Mandatory => Ok(missing_value(number, row.elem, tuples)),
        Rule::Singleton => several_values(alloc, number, row.elem, tuples),
        Rule::Count(bounds) => Ok(count_outside(number, bounds, row.elem, tuples)),
    }
}

/// The first that a rule finds of rows.
pub(crate) fn first_found(
    alloc: Global,
    rule: Rule,
    number: u32,
    rows: &[KeyChange],
) -> Result<Option<Violation>, Memory>
    ensures { IfOk result (λ found. found ≡ first_found rule number rows.now) }
{
    for row in rows {
        let found = found_in(alloc, rule, number, row)?;
        if let Some(violation) = found {
            return Ok(Some(violation));
        }
    }
    Ok(None)
}

/// The first violation of a key by a rule, where the key asks for it.
pub(crate) fn first_if(
    alloc: Global,
    asked: bool,
    rule: Rule,
    number: u32,
    rows: &[KeyChange],
) -> Result<Option<Violation>, Memory>
    ensures { IfOk result (λ found. found ≡ first_if asked (first_found rule number rows.now)) }
{
    if asked {
        first_found(alloc, rule, number, rows)
    } else {
        Ok(None)
    }
}
