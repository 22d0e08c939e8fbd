//! The violations that two elements make by sharing a key value, and the least of them.

ghost use Rattle.std.specs.Prelude.{◌≡◌, Some, IfOk};
ghost use Rattle.pgs_violation.specs.declared.violation.Violation.TheVariants.{Exclusive};
ghost use Rattle.pgs_check.specs.Clashes.{lesser, clash, with_holder};

use pgs_base::{Copyable, Elem, Memory, Tuple};
use pgs_violation::Violation;
use std::alloc::Global;
use std::cmp::Ordering;

// Of what was found and a further violation, the lesser.
fn lesser(found: Option<Violation>, further: Violation) -> Option<Violation>
    ensures { result ≡ lesser found (Some further) }
{
    let Some(found) = found else {
        return Some(further);
    };
    if further < found {
        Some(further)
    } else {
        Some(found)
    }
}

// 29 for two elements, in order, with a copy of the tuple.
fn exclusive(
    alloc: Global,
    number: u32,
    first: Elem,
    second: Elem,
    tuple: &Tuple,
) -> Result<Option<Violation>, Memory>
    ensures { IfOk result (λ found. found ≡ Some (Exclusive number first second tuple.now)) }
{
    let tuple = tuple.copy(alloc)?;
    Ok(Some(Violation::Exclusive {
        key: number,
        first,
        second,
        tuple,
    }))
}

// 29 for two elements that share a tuple; none where they are one.
fn clash(
    alloc: Global,
    number: u32,
    tuple: &Tuple,
    elem: Elem,
    other: Elem,
) -> Result<Option<Violation>, Memory>
    ensures { IfOk result (λ found. found ≡ clash number tuple.now elem other) }
{
    match elem.cmp(&other) {
        Ordering::Less => exclusive(alloc, number, elem, other, tuple),
        Ordering::Greater => exclusive(alloc, number, other, elem, tuple),
        Ordering::Equal => Ok(None),
    }
}

/// What was found, or the violation that an element makes with the holder of one of its tuples, where this is less.
pub(crate) fn with_holder(
    alloc: Global,
    number: u32,
    elem: Elem,
    found: Option<Violation>,
    tuple: &Tuple,
    holder: Option<Elem>,
) -> Result<Option<Violation>, Memory>
    ensures { IfOk result (λ least. least ≡ with_holder number elem found tuple.now holder) }
{
    let Some(other) = holder else {
        return Ok(found);
    };
    match clash(alloc, number, tuple, elem, other)? {
        Some(further) => Ok(lesser(found, further)),
        None => Ok(found),
    }
}
