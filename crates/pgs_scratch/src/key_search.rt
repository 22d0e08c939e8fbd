//! Searches for the rows of one key: elements of its scope, each with its key values.

ghost use Rattle.std.specs.Prelude.{◌≡◌, ◌+◌, ◌*◌, ◌^◌, ◌≤◌, ℕ, true, map, IfOk};
ghost use Rattle.pgs_syntax.specs.KeyValues.{scope_of, key_values};
ghost use Rattle.pgs_syntax.specs.Valid.{is_valid_key_of};
ghost use Rattle.pgs_match.specs.Learned.{IsLearned};
ghost use Rattle.pgs_match.specs.Near.{HasDegreesWithin};
ghost use Rattle.pgs_match.specs.Planned.{most_edges};
ghost use Rattle.pgs_scratch.specs.Confirmed.{row_in_scope};
ghost use Rattle.pgs_scratch.specs.Rows.{row_of};

use crate::key_row::KeyRow;
use pgs_base::{Elem, Memory, Steps};
use pgs_conform::Compiled;
use pgs_graph::GraphRead;
use pgs_match::{
    Learned, PlannedKey, each_element, in_scope, in_scope_learned, key_values, key_values_learned,
};
use std::alloc::Global;
use std::sync::ledger::Ledger;

/// A key, of this number, whose types are those of a schema, in a graph.
pub(crate) struct KeySearch<'a, G: GraphRead> {
    pub(crate) alloc: Global,
    pub(crate) graph: &'a G,
    pub(crate) compiled: &'a Compiled,
    pub(crate) number: u32,
    pub(crate) key: &'a PlannedKey,
}

impl<'a, G: GraphRead> Drop for KeySearch<'a, G> {
    fn drop(self) {
        let KeySearch {
            alloc: _,
            graph: _,
            compiled: _,
            number: _,
            key: _,
        } = self;
    }
}

impl<'a, G: GraphRead> KeySearch<'a, G> {
    /// The row of an element.
    pub(crate) fn row<L: Ledger>(&self, elem: Elem, steps: &mut Steps<L>) -> Result<KeyRow, Memory>
        requires { is_valid_key_of self.now.compiled.now self.now.key.now ≡ true }
        ensures row { IfOk result (λ row.
            row ≡ row_of (key_values self.now.compiled.now (G.meaning self.now.graph.now) self.now.key.now) elem) }
        ensures no_step_back { steps.old ≤ steps.new }
        ensures cost { (most : ℕ) → HasDegreesWithin (G.meaning self.now.graph.now) most →
            steps.new ≤ steps.old + 16 * (most + 2) ^ (most_edges self.now.key.now + 1) }
    {
        let tuples = key_values(self.alloc, self.graph, self.compiled, self.key, elem, steps)?;
        Ok(KeyRow { elem, tuples })
    }

    /// What is learned before the first search of the key.
    pub(crate) fn nothing_learned(&self) -> Learned
        ensures { IsLearned self.now.compiled.now (G.meaning self.now.graph.now) self.now.key.now result }
    {
        Learned::new(self.alloc)
    }

    /// The row of an element, by what searches of the key have learned.
    pub(crate) fn row_learned<L: Ledger>(
        &self,
        elem: Elem,
        learned: &mut Learned,
        steps: &mut Steps<L>,
    ) -> Result<KeyRow, Memory>
        requires typed { is_valid_key_of self.now.compiled.now self.now.key.now ≡ true }
        requires learned { IsLearned self.now.compiled.now (G.meaning self.now.graph.now) self.now.key.now learned.old }
        ensures row { IfOk result (λ row.
            row ≡ row_of (key_values self.now.compiled.now (G.meaning self.now.graph.now) self.now.key.now) elem) }
        ensures learned { IsLearned self.now.compiled.now (G.meaning self.now.graph.now) self.now.key.now learned.new }
        ensures no_step_back { steps.old ≤ steps.new }
        ensures cost { (most : ℕ) → HasDegreesWithin (G.meaning self.now.graph.now) most →
            steps.new ≤ steps.old + 16 * (most + 2) ^ (most_edges self.now.key.now + 1) }
    {
        let tuples = key_values_learned(
            self.alloc,
            self.graph,
            self.compiled,
            self.key,
            elem,
            learned,
            steps,
        )?;
        Ok(KeyRow { elem, tuples })
    }

    /// The row of an element, where the key asks for it and the element is in its scope.
    pub(crate) fn row_in_scope<L: Ledger>(
        &self,
        asked: bool,
        elem: Elem,
        steps: &mut Steps<L>,
    ) -> Result<Option<KeyRow>, Memory>
        requires { is_valid_key_of self.now.compiled.now self.now.key.now ≡ true }
        ensures row { IfOk result (λ row.
            row ≡ row_in_scope self.now.compiled.now (G.meaning self.now.graph.now) asked elem self.now.key.now) }
        ensures no_step_back { steps.old ≤ steps.new }
        ensures cost { (most : ℕ) → HasDegreesWithin (G.meaning self.now.graph.now) most →
            steps.new ≤ steps.old + 32 * (most + 2) ^ (most_edges self.now.key.now + 1) }
    {
        if !asked {
            return Ok(None);
        }
        if !in_scope(self.graph, self.compiled, self.key, elem, steps) {
            return Ok(None);
        }
        let row = self.row(elem, steps)?;
        Ok(Some(row))
    }

    /// The rows of the key, by ascending element. Each element is asked whether it is in the scope, and its key values are searched right
    /// after, while its row is at hand. What a search has learned the later ones take over.
    pub(crate) fn rows<L: Ledger>(&self, steps: &mut Steps<L>) -> Result<Vec<KeyRow>, Memory>
        requires { is_valid_key_of self.now.compiled.now self.now.key.now ≡ true }
        ensures rows { IfOk result (λ rows. rows.items
            ≡ map (row_of (key_values self.now.compiled.now (G.meaning self.now.graph.now) self.now.key.now))
            (scope_of self.now.compiled.now (G.meaning self.now.graph.now) self.now.key.now)) }
        ensures no_step_back { steps.old ≤ steps.new }
    {
        let elements = each_element(self.alloc, self.graph, self.key, steps)?;
        let elems = elements.as_slice();
        let mut learned = self.nothing_learned();
        let mut rows = Vec::new(self.alloc);
        for elem in elems {
            let inside = in_scope_learned(
                self.graph,
                self.compiled,
                self.key,
                *elem,
                &mut learned,
                steps,
            )?;
            if inside {
                let row = self.row_learned(*elem, &mut learned, steps)?;
                rows.push(row)?;
            }
        }
        Ok(rows)
    }
}
