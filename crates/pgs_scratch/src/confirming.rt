//! Whether a violation stands in the list, by what it names alone.

ghost use Rattle.std.specs.Prelude.{◌≡◌, ◌↔◌, ◌+◌, ◌*◌, ◌^◌, ◌≤◌, ℕ, true, IsTrue, IfOk, Contains};
ghost use Rattle.std.specs.Option.{option_copied};
ghost use Rattle.pgs_base.specs.Graph.{element_count};
ghost use Rattle.pgs_syntax.specs.KeyValues.{scope_of, key_values};
ghost use Rattle.pgs_syntax.specs.Valid.{is_valid_key_of};
ghost use Rattle.pgs_match.specs.Learned.{IsLearned};
ghost use Rattle.pgs_match.specs.Near.{HasDegreesWithin};
ghost use Rattle.pgs_match.specs.Planned.{HaveEdgesWithin, most_edges};
ghost use Rattle.pgs_violation.specs.Standing.{key_of};
ghost use Rattle.pgs_violation.specs.Violations.{exclusive_violation, shared_tuple, violations};
ghost use Rattle.pgs_scratch.specs.Confirmed.{key_numbered, missing_at, several_at, shared_at, count_at, key_violation_at, violation_at, sharing_if_later};
ghost use Rattle.pgs_scratch.specs.Rows.{shared_value};

use crate::key_row::KeyRow;
use crate::key_search::KeySearch;
use crate::row_violations::{count_of_row, missing_value, several_values};
use crate::untyped::{untyped_edge, untyped_node};
use pgs_base::{Copyable, Elem, List, Memory, Steps, Tuple, TupleSet};
use pgs_conform::Compiled;
use pgs_graph::GraphRead;
use pgs_match::{Learned, PlannedKey, each_x};
use pgs_violation::Violation;
use std::alloc::Global;
use std::sync::ledger::Ledger;

// The key of a number. Keys are numbered from 1.
fn key_numbered(keys: &[PlannedKey], number: u32) -> Option<&PlannedKey>
    ensures { option_copied result ≡ key_numbered keys.now number }
{
    if number == 0 {
        return None;
    }
    keys.get(number as usize - 1)
}

// The least tuple that two sets share.
fn shared_tuple<'a>(first: &'a TupleSet, second: &TupleSet) -> Option<&'a Tuple>
    ensures { option_copied result ≡ shared_tuple first.now second.now }
{
    first.as_slice().iter().find(|tuple| second.contains(tuple))
}

// The violation that two rows make that share a key value.
fn shared_value(
    alloc: Global,
    number: u32,
    row: &KeyRow,
    later: &KeyRow,
) -> Result<Option<Violation>, Memory>
    ensures { IfOk result (λ found. found ≡ shared_value number row.now later.now) }
{
    match shared_tuple(&row.tuples, &later.tuples) {
        Some(tuple) => {
            let tuple = tuple.copy(alloc)?;
            Ok(Some(Violation::Exclusive {
                key: number,
                first: row.elem,
                second: later.elem,
                tuple,
            }))
        }
        None => Ok(None),
    }
}

impl<'a, G: GraphRead> KeySearch<'a, G> {
    // 27 for an element, where the key asks for it and the element is in its scope.
    fn missing_at<L: Ledger>(
        &self,
        elem: Elem,
        steps: &mut Steps<L>,
    ) -> Result<Option<Violation>, Memory>
        requires { is_valid_key_of self.now.compiled.now self.now.key.now ≡ true }
        ensures found { IfOk result (λ found. found ≡ missing_at self.now.compiled.now (G.meaning self.now.graph.now) self.now.number elem self.now.key.now) }
        ensures no_step_back { steps.old ≤ steps.new }
        ensures cost { (most : ℕ) → HasDegreesWithin (G.meaning self.now.graph.now) most →
            steps.new ≤ steps.old + 32 * (most + 2) ^ (most_edges self.now.key.now + 1) }
    {
        let asked = self.key.key().qualifiers.mandatory;
        match self.row_in_scope(asked, elem, steps)? {
            Some(row) => Ok(missing_value(self.number, &row)),
            None => Ok(None),
        }
    }

    // 28 for an element, where the key asks for it and the element is in its scope.
    fn several_at<L: Ledger>(
        &self,
        elem: Elem,
        steps: &mut Steps<L>,
    ) -> Result<Option<Violation>, Memory>
        requires { is_valid_key_of self.now.compiled.now self.now.key.now ≡ true }
        ensures found { IfOk result (λ found. found ≡ several_at self.now.compiled.now (G.meaning self.now.graph.now) self.now.number elem self.now.key.now) }
        ensures no_step_back { steps.old ≤ steps.new }
        ensures cost { (most : ℕ) → HasDegreesWithin (G.meaning self.now.graph.now) most →
            steps.new ≤ steps.old + 32 * (most + 2) ^ (most_edges self.now.key.now + 1) }
    {
        let asked = self.key.key().qualifiers.singleton;
        match self.row_in_scope(asked, elem, steps)? {
            Some(row) => several_values(self.alloc, self.number, &row),
            None => Ok(None),
        }
    }

    // The violation that a row makes with an element, where the element comes later and shares a key value.
    fn sharing_if_later<L: Ledger>(
        &self,
        row: &KeyRow,
        other: Elem,
        learned: &mut Learned,
        steps: &mut Steps<L>,
    ) -> Result<Option<Violation>, Memory>
        requires typed { is_valid_key_of self.now.compiled.now self.now.key.now ≡ true }
        requires learned { IsLearned self.now.compiled.now (G.meaning self.now.graph.now) self.now.key.now learned.old }
        requires values { row.now.tuples ≡ key_values self.now.compiled.now (G.meaning self.now.graph.now) self.now.key.now row.now.elem }
        ensures found { IfOk result (λ found.
            found ≡ sharing_if_later self.now.number (key_values self.now.compiled.now (G.meaning self.now.graph.now) self.now.key.now) row.now.elem other) }
        ensures learned { IsLearned self.now.compiled.now (G.meaning self.now.graph.now) self.now.key.now learned.new }
        ensures no_step_back { steps.old ≤ steps.new }
        ensures cost { (most : ℕ) → HasDegreesWithin (G.meaning self.now.graph.now) most →
            steps.new ≤ steps.old + 16 * (most + 2) ^ (most_edges self.now.key.now + 1) }
    {
        if row.elem < other {
            let later = self.row_learned(other, learned, steps)?;
            shared_value(self.alloc, self.number, row, &later)
        } else {
            Ok(None)
        }
    }

    // 29 for a row of a key, by the first later element of the scope that shares a key value with it.
    fn first_sharer<L: Ledger>(
        &self,
        row: &KeyRow,
        steps: &mut Steps<L>,
    ) -> Result<Option<Violation>, Memory>
        requires typed { is_valid_key_of self.now.compiled.now self.now.key.now ≡ true }
        requires values { row.now.tuples ≡ key_values self.now.compiled.now (G.meaning self.now.graph.now) self.now.key.now row.now.elem }
        ensures found { IfOk result (λ found. found ≡ exclusive_violation self.now.number
            (scope_of self.now.compiled.now (G.meaning self.now.graph.now) self.now.key.now)
            (key_values self.now.compiled.now (G.meaning self.now.graph.now) self.now.key.now) row.now.elem) }
        ensures no_step_back { steps.old ≤ steps.new }
        ensures cost { (most : ℕ) → HasDegreesWithin (G.meaning self.now.graph.now) most →
            steps.new ≤ steps.old + element_count (G.meaning self.now.graph.now) * (33 * (most + 2) ^ (most_edges self.now.key.now + 1)) }
    {
        let scope = each_x(self.alloc, self.graph, self.compiled, self.key, steps)?;
        let elems = scope.as_slice();
        let mut learned = self.nothing_learned();
        for other in elems {
            let found = self.sharing_if_later(row, *other, &mut learned, steps)?;
            if let Some(found) = found {
                return Ok(Some(found));
            }
        }
        Ok(None)
    }

    // 29 for an element, where the key asks for it and the element is in its scope.
    fn shared_at<L: Ledger>(
        &self,
        elem: Elem,
        steps: &mut Steps<L>,
    ) -> Result<Option<Violation>, Memory>
        requires { is_valid_key_of self.now.compiled.now self.now.key.now ≡ true }
        ensures found { IfOk result (λ found. found ≡ shared_at self.now.compiled.now (G.meaning self.now.graph.now) self.now.number elem self.now.key.now) }
        ensures no_step_back { steps.old ≤ steps.new }
        ensures cost { (most : ℕ) → HasDegreesWithin (G.meaning self.now.graph.now) most →
            steps.new ≤ steps.old + 33 * (element_count (G.meaning self.now.graph.now) + 1) * (most + 2) ^ (most_edges self.now.key.now + 1) }
    {
        let asked = self.key.key().qualifiers.exclusive;
        match self.row_in_scope(asked, elem, steps)? {
            Some(row) => self.first_sharer(&row, steps),
            None => Ok(None),
        }
    }

    // 39 for an element, where the key counts and the element is in its scope.
    fn count_at<L: Ledger>(
        &self,
        elem: Elem,
        steps: &mut Steps<L>,
    ) -> Result<Option<Violation>, Memory>
        requires { is_valid_key_of self.now.compiled.now self.now.key.now ≡ true }
        ensures found { IfOk result (λ found. found ≡ count_at self.now.compiled.now (G.meaning self.now.graph.now) self.now.number elem self.now.key.now) }
        ensures no_step_back { steps.old ≤ steps.new }
        ensures cost { (most : ℕ) → HasDegreesWithin (G.meaning self.now.graph.now) most →
            steps.new ≤ steps.old + 32 * (most + 2) ^ (most_edges self.now.key.now + 1) }
    {
        let Some(bounds) = self.key.key().qualifiers.count else {
            return Ok(None);
        };
        match self.row_in_scope(true, elem, steps)? {
            Some(row) => Ok(count_of_row(self.number, bounds, &row)),
            None => Ok(None),
        }
    }

    // The violation of the key that has the number and the least element of a violation of it.
    fn violation_at<L: Ledger>(
        &self,
        violation: &Violation,
        steps: &mut Steps<L>,
    ) -> Result<Option<Violation>, Memory>
        requires typed { is_valid_key_of self.now.compiled.now self.now.key.now ≡ true }
        requires number { self.now.number ≡ key_of violation.now }
        ensures found { IfOk result (λ found.
            found ≡ key_violation_at self.now.compiled.now (G.meaning self.now.graph.now) violation.now self.now.key.now) }
        ensures no_step_back { steps.old ≤ steps.new }
        ensures cost { (most : ℕ) → HasDegreesWithin (G.meaning self.now.graph.now) most →
            steps.new ≤ steps.old + 33 * (element_count (G.meaning self.now.graph.now) + 1) * (most + 2) ^ (most_edges self.now.key.now + 1) }
    {
        match violation {
            Violation::Mandatory { elem, .. } => self.missing_at(*elem, steps),
            Violation::Singleton { elem, .. } => self.several_at(*elem, steps),
            Violation::Exclusive { first, .. } => self.shared_at(*first, steps),
            Violation::CountOutside { elem, .. } => self.count_at(*elem, steps),
            _ => Ok(None),
        }
    }
}

// The number of the key that is violated, or 0.
fn key_of(violation: &Violation) -> u32
    ensures { result ≡ key_of violation.now }
{
    match violation {
        Violation::UntypedNode { .. } | Violation::UntypedEdge { .. } => 0,
        Violation::Mandatory { key, .. }
        | Violation::Singleton { key, .. }
        | Violation::Exclusive { key, .. }
        | Violation::CountOutside { key, .. } => *key,
    }
}

// The violation in the list that is of the same key, number and least element.
fn violation_at<G: GraphRead, L: Ledger>(
    alloc: Global,
    graph: &G,
    compiled: &Compiled,
    keys: &[PlannedKey],
    violation: &Violation,
    steps: &mut Steps<L>,
) -> Result<Option<Violation>, Memory>
    requires { keys.now ≡ compiled.now.guard.keys }
    ensures found { IfOk result (λ found. found ≡ violation_at compiled.now (G.meaning graph.now) violation.now) }
    ensures no_step_back { steps.old ≤ steps.new }
    ensures cost { (edges most : ℕ) → HaveEdgesWithin keys.now edges → HasDegreesWithin (G.meaning graph.now) most →
        steps.new ≤ steps.old + 33 * (element_count (G.meaning graph.now) + 1) * (most + 2) ^ (edges + 1) }
{
    let strict = compiled.resolved().guard.strict;
    match violation {
        Violation::UntypedNode { node } => {
            if strict {
                Ok(untyped_node(graph, compiled, *node, steps))
            } else {
                Ok(None)
            }
        }
        Violation::UntypedEdge { edge } => {
            if strict {
                Ok(untyped_edge(graph, compiled, *edge, steps))
            } else {
                Ok(None)
            }
        }
        _ => {
            let number = key_of(violation);
            let Some(key) = key_numbered(keys, number) else {
                return Ok(None);
            };
            let search = KeySearch {
                alloc,
                graph,
                compiled,
                number,
                key,
            };
            search.violation_at(violation, steps)
        }
    }
}

/// Whether a violation stands in the list of a graph's violations. `keys` are the plans of all keys of the guard, in order. The rule
/// is `violations` of `pgs_violation`.
///
/// It looks at what the violation names, and doesn't make the list: at the node or the edge, or at the key values of the element. For
/// a 29 it looks at those of the later elements of the scope, up to the first that shares one.
///
/// At every exit it has taken at most 33 * (n + 1) * (d + 2)^(w + 1) look-ups, where the graph has n elements, no node has an in-degree
/// plus out-degree over d, and no pattern of the keys has more than w edge variables.
pub fn confirms<G: GraphRead, L: Ledger>(
    alloc: Global,
    graph: &G,
    compiled: &Compiled,
    keys: &List<PlannedKey>,
    violation: &Violation,
    steps: &mut Steps<L>,
) -> Result<bool, Memory>
    requires { keys.now ≡ compiled.now.guard.keys }
    ensures listed { IfOk result (λ confirmed. IsTrue confirmed ↔ Contains (violations compiled.now (G.meaning graph.now)) violation.now) }
    ensures no_step_back { steps.old ≤ steps.new }
    ensures cost { (edges most : ℕ) → HaveEdgesWithin keys.now edges → HasDegreesWithin (G.meaning graph.now) most →
        steps.new ≤ steps.old + 33 * (element_count (G.meaning graph.now) + 1) * (most + 2) ^ (edges + 1) }
{
    // The count's clause says that what is read is a graph.
    let _count = graph.count();
    let found = violation_at(alloc, graph, compiled, keys.as_slice(), violation, steps)?;
    match found {
        Some(found) => Ok(found == *violation),
        None => Ok(false),
    }
}
