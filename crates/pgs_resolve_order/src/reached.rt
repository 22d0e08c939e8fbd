ghost use Rattle.std.specs.Prelude.{◌≡◌, ◌∷◌, [], ◌++◌, ◌<◌, ◌==◌, length, slice_set, slice_index_or, true, OnOk, IfOk, List, ℕ};
ghost use Rattle.pgs_resolve_order.specs.Links.{row_at, leads_in, is_set};
ghost use Rattle.pgs_resolve_order.specs.Reached.{is_unseen, with_reached, AreReached, AreSeen, StaySeen, StayReached};

use crate::links::row_at;
use pgs_base::{List, Memory};
use std::alloc::Global;

fn is_unseen(seen: &[bool], number: usize) -> bool
    ensures { result ≡ is_unseen seen.now number }
{
    match seen.get(number) {
        Some(flag) => !*flag,
        None => false,
    }
}

// Sets the flag of a number, and puts it last where it wasn't set.
fn see(number: usize, seen: &mut Vec<bool>, reached: &mut Vec<usize>) -> Result<(), Memory>
    ensures seen { OnOk result (seen.new.items ≡ slice_set seen.old.items number true) }
    ensures reached { OnOk result (reached.new.items ≡ with_reached seen.old.items reached.old.items number) }
{
    if is_unseen(seen, number) {
        seen[number] = true;
        reached.push(number)?;
    }
    Ok(())
}

// Sees all that a number leads to.
fn see_row(
    rows: &[List<u32>],
    from: usize,
    seen: &mut Vec<bool>,
    reached: &mut Vec<usize>,
) -> Result<(), Memory>
    ensures reached { (start place : ℕ) → AreReached rows.now start seen.old.items reached.old.items → place < length reached.old.items →
        slice_index_or reached.old.items place 0 ≡ from → OnOk result (AreReached rows.now start seen.new.items reached.new.items) }
    ensures all { OnOk result (AreSeen seen.new.items (row_at rows.now from)) }
    ensures seen { OnOk result (StaySeen seen.old.items seen.new.items) }
    ensures places { OnOk result (StayReached reached.old.items reached.new.items) }
{
    for next in row_at(rows, from) {
        see(*next as usize, seen, reached)?;
    }
    Ok(())
}

/// For each number whether a start leads to it, found along each link once.
pub fn reached_from(alloc: Global, rows: &[List<u32>], start: usize) -> Result<Vec<bool>, Memory>
    ensures { IfOk result (λ seen. (number : ℕ) → number < length rows.now → is_set seen.items number ≡ leads_in rows.now (length rows.now) start number) }
{
    let mut seen = vec![in alloc; false; rows.len()]?;
    let mut reached = vec![in alloc; start; 1]?;
    let mut place = 0;
    while place < reached.len() {
        let from = reached[place];
        see_row(rows, from, &mut seen, &mut reached)?;
        place += 1;
    }
    Ok(seen)
}
