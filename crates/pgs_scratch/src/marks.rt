//! Whether rows are seen to share no key value, by one number for each.

ghost use Rattle.std.specs.Prelude.{◌≡◌, ◌+◌, ◌<◌, ◌≤◌, ℕ, true, [], ◌++◌, nat_eq, length, map, slice_index, count_by, flat_map, OnOk, IfOk};
ghost use Rattle.pgs_scratch.specs.Marks.{mark_of, marks_of};
ghost use Rattle.pgs_scratch.specs.Rows.{shared_values};

use crate::key_row::KeyRow;
use pgs_base::{Memory, Seed, Tuple};
use pgs_keyindex::hash_of;
use std::alloc::Global;

// The mark of a tuple: a number that equal tuples have in common, and others hardly ever.
#[tactic(auto, unfolding(crate::specs::Marks::mark_of))]
fn mark(tuple: &Tuple) -> u64
    ensures { result ≡ mark_of tuple.now }
{
    hash_of(Seed::Fixed, tuple)
}

// Puts the marks of tuples behind marks.
fn add_marks(marks: &mut Vec<u64>, tuples: &[Tuple]) -> Result<(), Memory>
    ensures { OnOk result (marks.new.items ≡ marks.old.items ++ map mark_of tuples.now) }
{
    for tuple in tuples {
        let mark = mark(tuple);
        marks.push(mark)?;
    }
    Ok(())
}

// The marks of all tuples of rows.
fn row_marks(alloc: Global, rows: &[KeyRow]) -> Result<Vec<u64>, Memory>
    ensures { IfOk result (λ marks. marks.items ≡ flat_map marks_of rows.now) }
{
    let mut marks = Vec::with_capacity(alloc, rows.len())?;
    for row in rows {
        let tuples = row.tuples.as_slice();
        add_marks(&mut marks, tuples)?;
    }
    Ok(marks)
}

// Whether each number is greater than the one before it.
fn ascend(marks: &[u64]) -> bool
    ensures { result ≡ true → (k : ℕ) → k + 1 < length marks.now → slice_index marks.now k < slice_index marks.now (k + 1) }
{
    for i in 1..marks.len() {
        if marks[i - 1] >= marks[i] {
            return false;
        }
    }
    true
}

// Whether no number is there twice.
fn are_distinct(mut marks: Vec<u64>) -> bool
    ensures { result ≡ true → (mark : ℕ) → count_by (nat_eq mark) marks.items ≤ 1 }
{
    marks.sort_unstable();
    ascend(marks.as_slice())
}

/// Whether rows are seen to share no key value: no two of their tuples have a mark in common. Where some do, which is rare unless tuples
/// are shared, the answer is false.
pub(crate) fn are_apart(alloc: Global, rows: &[KeyRow]) -> Result<bool, Memory>
    ensures { IfOk result (λ apart. apart ≡ true → (number : ℕ) → shared_values number rows.now ≡ []) }
{
    let marks = row_marks(alloc, rows)?;
    Ok(are_distinct(marks))
}
