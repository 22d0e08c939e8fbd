//! The whole list of a graph's violations.

ghost use Rattle.std.specs.Prelude.{◌≡◌, ◌++◌, ◌≤◌, true, map, IfOk, OnOk};
ghost use Rattle.pgs_base.specs.Graph.{is_graph};
ghost use Rattle.pgs_syntax.specs.KeyValues.{scope_of, key_values};
ghost use Rattle.pgs_syntax.specs.Valid.{is_valid_key_of};
ghost use Rattle.pgs_violation.specs.Violations.{violations, key_violations, keys_violations};
ghost use Rattle.pgs_scratch.specs.Rows.{row_of};
ghost use Rattle.pgs_scratch.specs.Untyped.{untyped_violations};

use crate::key_row::KeyRow;
use crate::key_search::KeySearch;
use crate::row_violations::add_rows_violations;
use crate::untyped::{add_untyped_edges, add_untyped_nodes};
use pgs_base::{List, Memory, Steps};
use pgs_conform::Compiled;
use pgs_graph::GraphRead;
use pgs_match::PlannedKey;
use pgs_violation::Violation;
use std::alloc::Global;
use std::sync::ledger::Ledger;

/// Adds 25 and 26, where the guard is strict.
pub(crate) fn add_untyped<G: GraphRead, L: Ledger>(
    alloc: Global,
    graph: &G,
    compiled: &Compiled,
    found: &mut Vec<Violation>,
    steps: &mut Steps<L>,
) -> Result<(), Memory>
    ensures untyped { OnOk result (found.new.items ≡ found.old.items ++ untyped_violations compiled.now (G.meaning graph.now)) }
    ensures no_step_back { steps.old ≤ steps.new }
{
    if !compiled.resolved().guard.strict {
        return Ok(());
    }
    let nodes = graph.node_ids(alloc, steps)?;
    add_untyped_nodes(graph, compiled, nodes.as_slice(), found, steps)?;
    let edges = graph.edge_ids(alloc, steps)?;
    add_untyped_edges(graph, compiled, edges.as_slice(), found, steps)
}

impl<'a, G: GraphRead> KeySearch<'a, G> {
    /// Adds the violations of the key, and gives the rows of its scope.
    pub(crate) fn add_violations<L: Ledger>(
        &self,
        found: &mut Vec<Violation>,
        steps: &mut Steps<L>,
    ) -> Result<Vec<KeyRow>, Memory>
        requires typed { is_valid_key_of self.now.compiled.now self.now.key.now ≡ true }
        requires graph { is_graph (G.meaning self.now.graph.now) ≡ true }
        ensures key { OnOk result (found.new.items
            ≡ found.old.items ++ key_violations self.now.compiled.now (G.meaning self.now.graph.now) self.now.number self.now.key.now) }
        ensures rows { IfOk result (λ rows. rows.items
            ≡ map (row_of (key_values self.now.compiled.now (G.meaning self.now.graph.now) self.now.key.now))
            (scope_of self.now.compiled.now (G.meaning self.now.graph.now) self.now.key.now)) }
        ensures no_step_back { steps.old ≤ steps.new }
    {
        let rows = self.rows(steps)?;
        let asked = self.key.key().qualifiers;
        add_rows_violations(self.alloc, found, asked, self.number, rows.as_slice())?;
        Ok(rows)
    }
}

// Adds the violations of each key, in order.
fn add_keys_violations<G: GraphRead, L: Ledger>(
    alloc: Global,
    graph: &G,
    compiled: &Compiled,
    keys: &[PlannedKey],
    found: &mut Vec<Violation>,
    steps: &mut Steps<L>,
) -> Result<(), Memory>
    requires keys { keys.now ≡ compiled.now.guard.keys }
    requires graph { is_graph (G.meaning graph.now) ≡ true }
    ensures keys { OnOk result (found.new.items ≡ found.old.items ++ keys_violations compiled.now (G.meaning graph.now) 1 compiled.now.guard.keys) }
    ensures no_step_back { steps.old ≤ steps.new }
{
    // The schema's clause says that its keys are valid.
    let _resolved = compiled.resolved();
    for (place, key) in keys.iter().enumerate() {
        let search = KeySearch {
            alloc,
            graph,
            compiled,
            number: place as u32 + 1,
            key,
        };
        let _rows = search.add_violations(found, steps)?;
    }
    Ok(())
}

/// The violations of a graph under a schema: the whole list, in order. `keys` are the plans of all keys of the guard, in order.
/// The rule is `violations` of `pgs_violation`.
///
/// The key values of each element of a key's scope are searched once. Those that elements share are found by one table a key, so the
/// list costs what its searches and its answers cost, whatever the key values are.
pub fn violations<G: GraphRead, L: Ledger>(
    alloc: Global,
    graph: &G,
    compiled: &Compiled,
    keys: &List<PlannedKey>,
    steps: &mut Steps<L>,
) -> Result<List<Violation>, Memory>
    requires { keys.now ≡ compiled.now.guard.keys }
    ensures list { IfOk result (λ found. found ≡ violations compiled.now (G.meaning graph.now)) }
    ensures no_step_back { steps.old ≤ steps.new }
{
    // The count's clause says that what is read is a graph.
    let _count = graph.count();
    let mut found = Vec::new(alloc);
    add_untyped(alloc, graph, compiled, &mut found, steps)?;
    add_keys_violations(alloc, graph, compiled, keys.as_slice(), &mut found, steps)?;
    Ok(List::from_vec(found))
}
