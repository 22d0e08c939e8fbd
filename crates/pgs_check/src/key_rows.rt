//! The rows of elements under a key in a changed graph.

ghost use Rattle.std.specs.Prelude.{◌≡◌, ◌+◌, ◌*◌, ◌^◌, ◌≤◌, ℕ, true, map, length, IfOk};
ghost use Rattle.std.specs.List.{All, sum_by};
ghost use Rattle.pgs_syntax.specs.Valid.{is_valid_key_of};
ghost use Rattle.pgs_match.specs.Learned.{IsLearned};
ghost use Rattle.pgs_match.specs.Near.{IsSparse};
ghost use Rattle.pgs_match.specs.Planned.{most_edges};
ghost use Rattle.pgs_keyindex.specs.Standing.{values_in_scope};
ghost use Rattle.pgs_check.specs.Clashes.{tuples_of};
ghost use Rattle.pgs_check.specs.Rows.{change_of};

use pgs_base::{Elem, Memory, Steps};
use pgs_conform::Compiled;
use pgs_graph::GraphRead;
use pgs_keyindex::KeyChange;
use pgs_match::{Learned, PlannedKey, in_scope_learned, key_values_learned};
use std::alloc::Global;
use std::sync::ledger::Ledger;

// The row of an element, searched for in both patterns by what was learned of the same key in the same graph.
fn searched_row<G: GraphRead, L: Ledger>(
    alloc: Global,
    graph: &G,
    compiled: &Compiled,
    number: u32,
    key: &PlannedKey,
    elem: Elem,
    learned: &mut Learned,
    steps: &mut Steps<L>,
) -> Result<KeyChange, Memory>
    requires typed { is_valid_key_of compiled.now key.now ≡ true }
    requires learned { IsLearned compiled.now (G.meaning graph.now) key.now learned.old }
    ensures row { IfOk result (λ row. row ≡ change_of number (values_in_scope compiled.now (G.meaning graph.now) key.now) elem) }
    ensures learned { IsLearned compiled.now (G.meaning graph.now) key.now learned.new }
    ensures no_step_back { steps.old ≤ steps.new }
    ensures cost { (most : ℕ) → IsSparse (G.meaning graph.now) (most_edges key.now) elem most →
        steps.new ≤ steps.old + 32 * (most + 2) ^ (most_edges key.now + 1) }
    ensures few { (most : ℕ) → IsSparse (G.meaning graph.now) (most_edges key.now) elem most →
        IfOk result (λ row. length (tuples_of row) ≤ (most + 2) ^ most_edges key.now) }
{
    let is_found = in_scope_learned(graph, compiled, key, elem, learned, steps)?;
    if !is_found {
        return Ok(KeyChange {
            key: number,
            elem,
            values: None,
        });
    }
    let tuples = key_values_learned(alloc, graph, compiled, key, elem, learned, steps)?;
    Ok(KeyChange {
        key: number,
        elem,
        values: Some(tuples),
    })
}

/// The rows of elements, in their order. Each element is asked once whether it is in the scope, and its key values are searched once; what
/// the searches learn of other elements serves all rows.
pub(crate) fn key_rows<G: GraphRead, L: Ledger>(
    alloc: Global,
    graph: &G,
    compiled: &Compiled,
    number: u32,
    key: &PlannedKey,
    elems: &[Elem],
    steps: &mut Steps<L>,
) -> Result<Vec<KeyChange>, Memory>
    requires { is_valid_key_of compiled.now key.now ≡ true }
    ensures rows { IfOk result (λ rows. rows.items
        ≡ map (change_of number (values_in_scope compiled.now (G.meaning graph.now) key.now)) elems.now) }
    ensures no_step_back { steps.old ≤ steps.new }
    ensures cost { (most : ℕ) → All (λ elem. IsSparse (G.meaning graph.now) (most_edges key.now) elem most) elems.now →
        steps.new ≤ steps.old + length elems.now * (32 * (most + 2) ^ (most_edges key.now + 1)) }
    ensures few { (most : ℕ) → All (λ elem. IsSparse (G.meaning graph.now) (most_edges key.now) elem most) elems.now →
        IfOk result (λ rows. sum_by (λ row. length (tuples_of row)) rows.items ≤ length elems.now * (most + 2) ^ most_edges key.now) }
{
    let mut learned = Learned::new(alloc);
    let mut rows = Vec::with_capacity(alloc, elems.len())?;
    for elem in elems {
        let row = searched_row(
            alloc,
            graph,
            compiled,
            number,
            key,
            *elem,
            &mut learned,
            steps,
        )?;
        rows.push(row)?;
    }
    Ok(rows)
}
