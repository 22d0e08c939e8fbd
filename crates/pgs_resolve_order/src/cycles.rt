ghost use Rattle.std.specs.Prelude.{◌≡◌, ◌<◌, ◌≤◌, ◌==◌, ◌||◌, ◌&&◌, ◌++◌, [], length, map, slice_get, true, false, Some, None, IsTrue, IfOk, IfSome, MatchOption, if◌then◌else◌, List, ℕ};
ghost use Rattle.std.specs.Bool.{OnTrue};
ghost use Rattle.std.specs.List.{list_any, list_all};
ghost use Rattle.std.specs.Option.{option_copied};
ghost use Rattle.pgs_syntax.specs.declared.script.Script.{Script};
ghost use Rattle.pgs_resolve_order.specs.Links.{AreLinks, row_at, leads_in, leads_back, SomeBack, IsFirst, first_of, lesser_of, is_before, rank_of, never_falls, stays, is_set, IsLeastSet, IsLeastBack};
ghost use Rattle.pgs_resolve_declared.specs.Refused.{cyclic, least, cycle, named_by, imported_by};
ghost use Rattle.pgs_resolve_declared.specs.Tables.{AreOf};

use crate::components::ranks;
use crate::depth_first::some_back;
use crate::links::{graph_rows, row_at, type_names, type_rows};
use crate::reached::reached_from;
use pgs_base::{Copyable, List, Memory, Name, Steps};
use pgs_resolve_declared::{Declarations, Names};
use std::alloc::Global;
use std::cmp::Ordering;
use std::marker::Brand;
use std::sync::ledger::{Blank, Ledger};

// ---- ranks that prove that numbers don't lead back to themselves

fn rank_of(ranks: &[usize], number: usize) -> usize
    ensures { result ≡ rank_of ranks.now number }
{
    match ranks.get(number) {
        Some(rank) => *rank,
        None => 0,
    }
}

fn never_falls(rows: &[List<u32>], ranks: &[usize], number: usize) -> bool
    ensures { result ≡ never_falls rows.now ranks.now number }
{
    let rank = rank_of(ranks, number);
    row_at(rows, number)
        .iter()
        .all(|other| rank <= rank_of(ranks, *other as usize))
}

// Whether the ranks never fall along a link.
fn all_rise(rows: &[List<u32>], ranks: &[usize]) -> bool
    ensures { OnTrue result ((number : ℕ) → never_falls rows.now ranks.now number ≡ true) }
{
    for number in 0..rows.len() {
        if !never_falls(rows, ranks, number) {
            return false;
        }
    }
    true
}

fn stays(rows: &[List<u32>], ranks: &[usize], number: usize) -> bool
    ensures { result ≡ stays rows.now ranks.now number }
{
    let rank = rank_of(ranks, number);
    row_at(rows, number)
        .iter()
        .any(|other| rank_of(ranks, *other as usize) == rank)
}

// For each of so many numbers, whether the rank stays along one of its links.
fn staying(
    alloc: Global,
    count: usize,
    rows: &[List<u32>],
    ranks: &[usize],
) -> Result<Vec<bool>, Memory>
    ensures len { IfOk result (λ flags. length flags.items ≡ count) }
    ensures flags { IfOk result (λ flags. (number : ℕ) → number < count → is_set flags.items number ≡ stays rows.now ranks.now number) }
{
    let mut flags = Vec::new(alloc);
    for number in 0..count {
        flags.push(stays(rows, ranks, number))?;
    }
    Ok(flags)
}

// ---- the least name

// The number of the lesser name, where there is one before.
fn lesser(names: &[Name], least: Option<usize>, number: usize) -> usize
    requires least { IfSome least (λ other. other < length names.now) }
    requires number { number < length names.now }
    ensures { MatchOption least (result ≡ number) (λ other. result ≡ (if is_before names.now number other then number else other)) }
{
    match least {
        Some(other) => {
            if names[number].cmp(&names[other]).is_lt() {
                number
            } else {
                other
            }
        }
        None => number,
    }
}

// Of the numbers whose flags are set, that of the least name.
fn least_set(names: &[Name], flags: &[bool]) -> Option<usize>
    requires { length flags.now ≡ length names.now }
    ensures { IsLeastSet names.now flags.now (length flags.now) result }
{
    let mut least = None;
    for number in 0..flags.len() {
        if flags[number] {
            least = Some(lesser(names, least, number));
        }
    }
    least
}

// ---- links that lead back

fn flag_of(flags: &[bool], number: usize) -> bool
    ensures { result ≡ is_set flags.now number }
{
    match flags.get(number) {
        Some(flag) => *flag,
        None => false,
    }
}

// Whether a number leads back to itself.
fn leads_back(alloc: Global, rows: &[List<u32>], target: usize) -> Result<bool, Memory>
    ensures { IfOk result (λ back. back ≡ leads_back rows.now target) }
{
    if target >= rows.len() {
        return Ok(false);
    }
    let seen = reached_from(alloc, rows, target)?;
    Ok(flag_of(&seen, target))
}

// ---- the least name that leads back

// The number of the first place of the name of a number.
fn first_place(names: &Names, number: usize) -> usize
    requires { number < length names.now }
    ensures { result ≡ first_of names.now number }
{
    match names.number(&names.as_slice()[number]) {
        Some(first) => first as usize,
        None => number,
    }
}

// Of each number whether it is the first one of its name and leads back to itself, each by a search of its own: this is
// asked only where there is a cycle, and where a proposal fails its test.
fn leading_back(alloc: Global, names: &Names, rows: &[List<u32>]) -> Result<Vec<bool>, Memory>
    requires { SomeBack rows.now }
    ensures len { IfOk result (λ flags. length flags.items ≡ length names.now) }
    ensures flags { IfOk result (λ flags. (number : ℕ) → number < length names.now → is_set flags.items number ≡ (first_of names.now number == number && leads_back rows.now number)) }
{
    let mut flags = Vec::new(alloc);
    for number in 0..names.as_slice().len() {
        let is_back = leads_back(alloc, rows, number)?;
        flags.push(first_place(names, number) == number && is_back)?;
    }
    Ok(flags)
}

fn least_by_steps(alloc: Global, names: &Names, rows: &[List<u32>]) -> Result<Option<usize>, Memory>
    requires { SomeBack rows.now }
    ensures { IfOk result (IsLeastBack names.now rows.now) }
{
    let flags = leading_back(alloc, names, rows)?;
    Ok(least_set(names.as_slice(), &flags))
}

// The number of the least name that leads back to itself, where some number does and ranks never fall along a link: names whose ranks don't
// stay along a link don't lead back, and the least of the others is led back to.
fn least_by_ranks(
    alloc: Global,
    names: &Names,
    rows: &[List<u32>],
    ranks: &[usize],
) -> Result<Option<usize>, Memory>
    requires { SomeBack rows.now }
    ensures { ((number : ℕ) → never_falls rows.now ranks.now number ≡ true) → IfOk result (IsLeastBack names.now rows.now) }
{
    let flags = staying(alloc, names.as_slice().len(), rows, ranks)?;
    let Some(least) = least_set(names.as_slice(), &flags) else {
        return Ok(None);
    };
    let target = first_place(names, least);
    let is_back = leads_back(alloc, rows, target)?;
    if is_back {
        Ok(Some(target))
    } else {
        least_by_steps(alloc, names, rows)
    }
}

// The number of the least name that leads back to itself, where some number does: by ranks that are proposed, and where
// these fail their test by a search from each name.
fn least_back(alloc: Global, names: &Names, rows: &[List<u32>]) -> Result<Option<usize>, Memory>
    requires { SomeBack rows.now }
    ensures { IfOk result (IsLeastBack names.now rows.now) }
{
    let ranks = ranks(alloc, rows)?;
    if all_rise(rows, &ranks) {
        least_by_ranks(alloc, names, rows, &ranks)
    } else {
        least_by_steps(alloc, names, rows)
    }
}

// Whether any number leads back is decided along each link once; only where one does the least of them is looked for. No one
// asks for the steps.
fn least_counted<L: Ledger>(
    alloc: Global,
    names: &Names,
    rows: &[List<u32>],
    blank: Blank,
) -> Result<Option<usize>, Memory>
    requires name { blank.name ≡ L.name }
    requires parts { blank.parts ≡ L.parts }
    requires some { 0 < blank.parts }
    ensures { IfOk result (IsLeastBack names.now rows.now) }
{
    let mut steps: Steps<L> = Steps::begin(blank);
    match some_back(alloc, rows, &mut steps)? {
        Some(_) => least_back(alloc, names, rows),
        None => Ok(None),
    }
}

fn least_number(alloc: Global, names: &Names, rows: &[List<u32>]) -> Result<Option<usize>, Memory>
    ensures { IfOk result (IsLeastBack names.now rows.now) }
{
    least_counted::<Brand>(alloc, names, rows, Blank::new(1))
}

fn name_at(names: &Names, number: usize) -> Option<&Name>
    ensures { option_copied result ≡ slice_get names.now number }
{
    names.as_slice().get(number)
}

// The least name that leads back to itself.
fn least_name<'a>(
    alloc: Global,
    names: &'a Names,
    rows: &[List<u32>],
) -> Result<Option<&'a Name>, Memory>
    ensures { (next : List ℕ → List (List ℕ)) → AreLinks next names.now rows.now → IfOk result (λ name. option_copied name ≡ least (cyclic next names.now)) }
{
    match least_number(alloc, names, rows)? {
        Some(number) => Ok(name_at(names, number)),
        None => Ok(None),
    }
}

fn copy_of(alloc: Global, name: Option<&Name>) -> Result<Option<Name>, Memory>
    ensures { IfOk result (λ copy. copy ≡ option_copied name.entry) }
{
    match name {
        Some(name) => Ok(Some(name.copy(alloc)?)),
        None => Ok(None),
    }
}

// The least name of all element types on a cycle of naming.
fn least_type(alloc: Global, declarations: &Declarations<'_>) -> Result<Option<Name>, Memory>
    ensures { (script : Script) → AreOf script declarations.now →
        IfOk result (λ name. name ≡ least (cyclic (named_by script) (declarations.now.node_names ++ declarations.now.edge_names))) }
{
    let names = type_names(alloc, declarations)?;
    let rows = type_rows(alloc, declarations, &names)?;
    copy_of(alloc, least_name(alloc, &names, &rows)?)
}

// The least name of all graph types on a cycle of imports.
fn least_graph(alloc: Global, declarations: &Declarations<'_>) -> Result<Option<Name>, Memory>
    ensures { (script : Script) → AreOf script declarations.now →
        IfOk result (λ name. name ≡ least (cyclic (imported_by script) declarations.now.graph_names)) }
{
    let rows = graph_rows(alloc, declarations)?;
    copy_of(alloc, least_name(alloc, &declarations.graph_names, &rows)?)
}

// The lesser of two names, where there are two.
fn lesser_name(a: Option<Name>, b: Option<Name>) -> Option<Name>
    ensures { result ≡ lesser_of a b }
{
    match (a, b) {
        (Some(a), Some(b)) => { if b.cmp(&a).is_lt() { Some(b) } else { Some(a) } }
        (None, b) => b,
        (a, None) => a,
    }
}

/// The least name of all element types on a cycle of naming and graph types on a cycle of imports. `None` exactly where
/// there is no cycle.
pub fn least_on_cycle(
    alloc: Global,
    declarations: &Declarations<'_>,
) -> Result<Option<Name>, Memory>
    ensures { (script : Script) → AreOf script declarations.now → IfOk result (λ found. found ≡ cycle script) }
{
    let types = least_type(alloc, declarations)?;
    let graphs = least_graph(alloc, declarations)?;
    Ok(lesser_name(types, graphs))
}
