//! The rows of a key whose two patterns are one node variable each, from the rows of a change's elements: no look-up is made.

ghost use Rattle.std.specs.Prelude.{◌≡◌, ◌+◌, ◌*◌, ◌≤◌, true, map, filter, length, IfOk};
ghost use Rattle.std.specs.List.{list_all, sum_by};
ghost use Rattle.pgs_syntax.specs.Valid.{is_valid_key_of};
ghost use Rattle.pgs_match.specs.Planned.{pattern_of};
ghost use Rattle.pgs_keyindex.specs.Standing.{values_in_scope};
ghost use Rattle.pgs_check_affected.specs.Unseen.{is_one_outcome, row_passes};
ghost use Rattle.pgs_check.specs.Clashes.{tuples_of};
ghost use Rattle.pgs_check.specs.Own.{IsLocal, values_by_row, keeps_part, keeps_tuples, is_altered, altered_to};
ghost use Rattle.pgs_check.specs.Standing.{AreRows};

use crate::own_row::own_tuples;
use pgs_base::{Elem, Memory, TupleSet};
use pgs_check_affected::{Change, Known};
use pgs_conform::{Compiled, Pair};
use pgs_keyindex::KeyChange;
use pgs_match::{PlannedKey, Side, own_passes};
use pgs_syntax::Expr;
use std::alloc::Global;

// Whether a row, where there is one, passes what a pattern of a key asks of x.
fn row_passes(
    compiled: &Compiled,
    key: &PlannedKey,
    side: Side,
    elem: Elem,
    own: &Option<Pair<'_>>,
) -> bool
    requires { is_valid_key_of compiled.now key.now ≡ true }
    ensures { result ≡ row_passes compiled.now (pattern_of side key.now) 0 elem own.now }
{
    match own {
        Some(own) => own_passes(compiled, key.pattern(side), 0, elem, own),
        None => false,
    }
}

// Whether both rows of an element pass the descriptor's test, or neither does.
fn passes_alike(one: &Known<'_>, compiled: &Compiled, key: &PlannedKey) -> bool
    requires { is_valid_key_of compiled.now key.now ≡ true }
    ensures { result ≡ is_one_outcome (row_passes compiled.now key.now.descriptor 0 one.now.elem one.now.before)
        (row_passes compiled.now key.now.descriptor 0 one.now.elem one.now.after) }
{
    let after = row_passes(compiled, key, Side::Descriptor, one.elem, &one.after);
    if row_passes(compiled, key, Side::Descriptor, one.elem, &one.before) {
        after
    } else {
        !after
    }
}

// Whether both give an expression over x the same.
fn keeps_part(one: &Known<'_>, expr: &Expr) -> bool
    ensures { result ≡ keeps_part one.now expr.now }
{
    match expr {
        Expr::Element(_) => true,
        Expr::Property { key, .. } => one.keeps_value(key),
    }
}

// Whether both give all expressions the same.
fn keeps_parts(one: &Known<'_>, exprs: &[Expr]) -> bool
    ensures { result ≡ list_all (keeps_part one.now) exprs.now }
{
    for expr in exprs {
        if !keeps_part(one, expr) {
            return false;
        }
    }
    true
}

// Whether an element that stays in the scope keeps its key values.
fn keeps_tuples(one: &Known<'_>, compiled: &Compiled, key: &PlannedKey) -> bool
    requires { is_valid_key_of compiled.now key.now ≡ true }
    ensures { result ≡ keeps_tuples compiled.now key.now one.now }
{
    passes_alike(one, compiled, key) && keeps_parts(one, key.key().exprs.as_slice())
}

// Whether an element may have another place or other key values, by whether it was in the scope and is.
fn is_altered(
    one: &Known<'_>,
    compiled: &Compiled,
    key: &PlannedKey,
    was_in: bool,
    is_in: bool,
) -> bool
    requires typed { is_valid_key_of compiled.now key.now ≡ true }
    requires before { was_in ≡ row_passes compiled.now key.now.scope 0 one.now.elem one.now.before }
    requires after { is_in ≡ row_passes compiled.now key.now.scope 0 one.now.elem one.now.after }
    ensures { result ≡ is_altered compiled.now key.now one.now }
{
    if was_in && is_in {
        !keeps_tuples(one, compiled, key)
    } else {
        was_in || is_in
    }
}

// The key values of an element by its row, of which it is known whether it passes the scope's test.
fn values_by_row(
    alloc: Global,
    compiled: &Compiled,
    key: &PlannedKey,
    elem: Elem,
    own: &Option<Pair<'_>>,
    is_in: bool,
) -> Result<Option<TupleSet>, Memory>
    requires typed { is_valid_key_of compiled.now key.now ≡ true }
    requires tested { is_in ≡ row_passes compiled.now key.now.scope 0 elem own.now }
    ensures { IfOk result (λ values. values ≡ values_by_row compiled.now key.now elem own.now) }
{
    let Some(own) = own else {
        return Ok(None);
    };
    if !is_in {
        return Ok(None);
    }
    let tuples = own_tuples(alloc, compiled, key, elem, own)?;
    Ok(Some(tuples))
}

// The row of an element of a change, by its new row, of which it is known whether it passes the scope's test.
fn altered_to(
    alloc: Global,
    compiled: &Compiled,
    number: u32,
    key: &PlannedKey,
    one: &Known<'_>,
    is_in: bool,
) -> Result<KeyChange, Memory>
    requires typed { is_valid_key_of compiled.now key.now ≡ true }
    requires tested { is_in ≡ row_passes compiled.now key.now.scope 0 one.now.elem one.now.after }
    ensures { IfOk result (λ row. row ≡ altered_to compiled.now key.now number one.now) }
{
    let values = values_by_row(alloc, compiled, key, one.elem, &one.after, is_in)?;
    Ok(KeyChange {
        key: number,
        elem: one.elem,
        values,
    })
}

// The rows of the elements of a change that may have others, in order. Each row of an element is tested once for the scope.
fn altered_rows(
    alloc: Global,
    compiled: &Compiled,
    number: u32,
    key: &PlannedKey,
    known: &[Known<'_>],
) -> Result<Vec<KeyChange>, Memory>
    requires { is_valid_key_of compiled.now key.now ≡ true }
    ensures { IfOk result (λ rows. rows.items ≡ map (altered_to compiled.now key.now number) (filter (is_altered compiled.now key.now) known.now)) }
{
    let mut rows = Vec::new(alloc);
    for one in known {
        let was_in = row_passes(compiled, key, Side::Scope, one.elem, &one.before);
        let is_in = row_passes(compiled, key, Side::Scope, one.elem, &one.after);
        if is_altered(one, compiled, key, was_in, is_in) {
            let row = altered_to(alloc, compiled, number, key, one, is_in)?;
            rows.push(row)?;
        }
    }
    Ok(rows)
}

/// The rows that a change may alter of a key whose two patterns are one node variable each, told by the rows of its elements.
pub(crate) fn local_rows(
    alloc: Global,
    compiled: &Compiled,
    number: u32,
    key: &PlannedKey,
    change: &Change<'_>,
) -> Result<Vec<KeyChange>, Memory>
    requires typed { is_valid_key_of compiled.now key.now ≡ true }
    requires local { IsLocal key.now }
    ensures rows { IfOk result (λ rows. AreRows number (values_in_scope compiled.now change.now.before key.now)
        (values_in_scope compiled.now change.now.after key.now) rows.items) }
    ensures few { IfOk result (λ rows. length rows.items + sum_by (λ row. length (tuples_of row)) rows.items ≤ 2 * length change.now.elems) }
{
    let known = change.known();
    altered_rows(alloc, compiled, number, key, known)
}
