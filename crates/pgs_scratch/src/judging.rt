//! A graph judged from scratch, with the rows by which its index is made: those that were judged.

ghost use Rattle.std.specs.Prelude.{◌≡◌, ◌++◌, ◌≤◌, true, map, slice_get, IfOk, OnOk};
ghost use Rattle.pgs_base.specs.Graph.{is_graph};
ghost use Rattle.pgs_violation.specs.Violations.{keys_violations};
ghost use Rattle.pgs_scratch.specs.Judged.{IsJudged, indexed_row, keys_rows};

use crate::key_row::KeyRow;
use crate::key_search::KeySearch;
use crate::listing::add_untyped;
use pgs_base::{List, Memory, Steps};
use pgs_conform::Compiled;
use pgs_graph::GraphRead;
use pgs_keyindex::KeyChange;
use pgs_match::PlannedKey;
use pgs_violation::Violation;
use std::alloc::Global;
use std::sync::ledger::Ledger;

/// What is said of a graph that is judged from scratch.
#[derive(Drop)]
pub enum Judged {
    /// It conforms, and these are the rows of the scopes of all keys, by ascending key and element: each element with its key values.
    Conforming(List<KeyChange>),
    /// It doesn't conform, and this is its first violation.
    Violated(Violation),
}

// Puts the rows of the key of a number behind others.
fn add_rows(rows: &mut Vec<KeyChange>, number: u32, own: Vec<KeyRow>) -> Result<(), Memory>
    ensures { OnOk result (rows.new.items ≡ rows.old.items ++ map (indexed_row number) own.items) }
{
    rows.reserve(own.len())?;
    for row in own {
        let KeyRow { elem, tuples } = row;
        rows.push(KeyChange {
            key: number,
            elem,
            values: Some(tuples),
        })?;
    }
    Ok(())
}

// Adds the violations of each key, in order, and the rows of its scope.
fn add_keys<G: GraphRead, L: Ledger>(
    alloc: Global,
    graph: &G,
    compiled: &Compiled,
    keys: &[PlannedKey],
    found: &mut Vec<Violation>,
    rows: &mut Vec<KeyChange>,
    steps: &mut Steps<L>,
) -> Result<(), Memory>
    requires keys { keys.now ≡ compiled.now.guard.keys }
    requires graph { is_graph (G.meaning graph.now) ≡ true }
    ensures violations { OnOk result (found.new.items
        ≡ found.old.items ++ keys_violations compiled.now (G.meaning graph.now) 1 compiled.now.guard.keys) }
    ensures rows { OnOk result (rows.new.items ≡ rows.old.items ++ keys_rows compiled.now (G.meaning graph.now) 1 compiled.now.guard.keys) }
    ensures no_step_back { steps.old ≤ steps.new }
{
    // The schema's clause says that its keys are valid.
    let _resolved = compiled.resolved();
    for (place, key) in keys.iter().enumerate() {
        let number = place as u32 + 1;
        let search = KeySearch {
            alloc,
            graph,
            compiled,
            number,
            key,
        };
        let own = search.add_violations(found, steps)?;
        add_rows(rows, number, own)?;
    }
    Ok(())
}

// The first of a list of violations.
fn first(found: Vec<Violation>) -> Option<Violation>
    ensures { result ≡ slice_get found.items 0 }
{
    found.into_iter().next()
}

/// Judges a graph from scratch, under a schema of which `keys` are the plans of all keys, in order. A graph that conforms comes with the
/// rows of the scopes of all keys, by which an index is made that stands for it; any other one with its first violation. The rule is
/// `verdict` of `pgs_violation`. `Memory` where none was left.
///
/// The key values of each element of a key's scope are searched once: those that were judged are handed on.
pub fn judge<G: GraphRead, L: Ledger>(
    alloc: Global,
    graph: &G,
    compiled: &Compiled,
    keys: &List<PlannedKey>,
    steps: &mut Steps<L>,
) -> Result<Judged, Memory>
    requires { keys.now ≡ compiled.now.guard.keys }
    ensures judged { IfOk result (IsJudged compiled.now (G.meaning graph.now)) }
    ensures no_step_back { steps.old ≤ steps.new }
{
    // The count's clause says that what is read is a graph.
    let _count = graph.count();
    let mut found = Vec::new(alloc);
    add_untyped(alloc, graph, compiled, &mut found, steps)?;
    let mut rows = Vec::new(alloc);
    add_keys(
        alloc,
        graph,
        compiled,
        keys.as_slice(),
        &mut found,
        &mut rows,
        steps,
    )?;
    match first(found) {
        Some(violation) => Ok(Judged::Violated(violation)),
        None => Ok(Judged::Conforming(List::from_vec(rows))),
    }
}
