//! Where the steps of a plan lead back to, from elements at variables.

ghost use Rattle.std.specs.Prelude.{◌≡◌, ◌+◌, ◌*◌, ◌≤◌, ◌++◌, ℕ, Bool, List, true, length, OnOk, IfOk, option_and_then};
ghost use Rattle.std.specs.List.{list_any, list_all, flat_map, sum_by};
ghost use Rattle.pgs_base.specs.declared.element.Elem.{Elem};
ghost use Rattle.pgs_syntax.specs.Valid.{names_types};
ghost use Rattle.pgs_match.specs.declared.stand.Stand.{Stand};
ghost use Rattle.pgs_match.specs.Tests.{admitted_node, admitted_edge};
ghost use Rattle.pgs_match.specs.Spread.{stands_of, elems_at, not_at, end_in, edges_in, back_most, back, one_back, led_back, one_most, led_most, once_most, HasPassed};

use crate::branches::head;
use crate::ordered::in_order;
use crate::reads::edge_along;
use crate::{Bound, Search, Stand, Step};
use pgs_base::{EdgeId, Elem, Memory, NodeId, Steps};
use pgs_graph::GraphRead;
use std::alloc::Global;
use std::sync::ledger::Ledger;

// Adds what was admitted at a variable, where something was.
fn add_admitted(var: u32, admitted: Option<Bound>, stands: &mut Vec<Stand>) -> Result<(), Memory>
    ensures { OnOk result (stands.new.items ≡ stands.old.items ++ stands_of var admitted) }
{
    if let Some(bound) = admitted {
        stands.push(Stand {
            var,
            elem: bound.elem(),
        })?;
    }
    Ok(())
}

/// Of stands, the elements at a variable, and those at other variables.
pub(crate) fn parted(
    alloc: Global,
    var: u32,
    stands: &[Stand],
) -> Result<(Vec<Elem>, Vec<Stand>), Memory>
    ensures { IfOk result (λ parts. (parts.0.items ≡ elems_at var stands.now) × (parts.1.items ≡ not_at var stands.now)) }
{
    let mut here = Vec::new(alloc);
    let mut others = Vec::new(alloc);
    for stand in stands {
        if stand.var == var {
            here.push(stand.elem)?;
        } else {
            others.push(*stand)?;
        }
    }
    Ok((here, others))
}

impl<'a, G: GraphRead> Search<'a, G> {
    // Adds the node at an end of an edge at a variable, if it is admitted there.
    fn add_end<L: Ledger>(
        &self,
        var: u32,
        edge: EdgeId,
        source: bool,
        stands: &mut Vec<Stand>,
        steps: &mut Steps<L>,
    ) -> Result<(), Memory>
        requires { list_all (names_types self.now.compiled.now) self.now.atoms.now ≡ true }
        ensures added { OnOk result (stands.new.items ≡ stands.old.items
            ++ stands_of var (option_and_then (admitted_node self.now.compiled.now (G.meaning self.now.graph.now) self.now.atoms.now var)
            (end_in (G.meaning self.now.graph.now) source (Elem.Edge edge)))) }
        ensures no_step_back { steps.old ≤ steps.new }
        ensures cost { steps.new ≤ steps.old + 2 }
    {
        match self.graph.edge(edge, steps) {
            Some(row) => {
                let end = if source { row.source } else { row.target };
                let admitted = self.admit_node(var, end, steps);
                add_admitted(var, admitted, stands)
            }
            None => Ok(()),
        }
    }

    // Adds the edges of a node at a variable that are admitted there.
    fn add_edges<L: Ledger>(
        &self,
        var: u32,
        node: NodeId,
        forward: bool,
        stands: &mut Vec<Stand>,
        steps: &mut Steps<L>,
    ) -> Result<(), Memory>
        requires { list_all (names_types self.now.compiled.now) self.now.atoms.now ≡ true }
        ensures added { OnOk result (stands.new.items ≡ stands.old.items
            ++ flat_map (λ id. stands_of var (admitted_edge self.now.compiled.now (G.meaning self.now.graph.now) self.now.atoms.now var id))
            (edges_in (G.meaning self.now.graph.now) forward (Elem.Node node))) }
        ensures no_step_back { steps.old ≤ steps.new }
        ensures cost { steps.new ≤ steps.old + (4 * length (edges_in (G.meaning self.now.graph.now) forward (Elem.Node node)) + 1) }
    {
        for nth in 0..self.graph.count() as usize {
            match edge_along(self.graph, node, forward, nth, steps) {
                Some(id) => {
                    let admitted = self.admit_edge(var, id, steps);
                    add_admitted(var, admitted, stands)?;
                }
                None => return Ok(()),
            }
        }
        Ok(())
    }

    // Adds what a step leads back to from an element at the variable that it binds.
    fn add_back<L: Ledger>(
        &self,
        step: Step,
        elem: Elem,
        stands: &mut Vec<Stand>,
        steps: &mut Steps<L>,
    ) -> Result<(), Memory>
        requires { list_all (names_types self.now.compiled.now) self.now.atoms.now ≡ true }
        ensures added { OnOk result (stands.new.items ≡ stands.old.items
            ++ back self.now.compiled.now (G.meaning self.now.graph.now) self.now.atoms.now step elem) }
        ensures no_step_back { steps.old ≤ steps.new }
        ensures cost { steps.new ≤ steps.old + back_most (G.meaning self.now.graph.now) step elem }
    {
        match step {
            Step::Along { node, forward, .. } => match elem {
                Elem::Edge(id) => self.add_end(node, id, forward, stands, steps),
                Elem::Node(_) => Ok(()),
            },
            Step::End { edge, source, .. } => match elem {
                Elem::Node(id) => self.add_edges(edge, id, source, stands, steps),
                Elem::Edge(_) => Ok(()),
            },
        }
    }

    // What a step leads back to from stands. Each element at the variable that it binds is gone back from once.
    fn step_back<L: Ledger>(
        &self,
        alloc: Global,
        step: Step,
        stands: &[Stand],
        steps: &mut Steps<L>,
    ) -> Result<Vec<Stand>, Memory>
        requires { list_all (names_types self.now.compiled.now) self.now.atoms.now ≡ true }
        ensures all { IfOk result (λ ends. (test : Stand → Bool) → list_any test
            (flat_map (one_back self.now.compiled.now (G.meaning self.now.graph.now) self.now.atoms.now step) stands.now) ≡ true → list_any test ends.items ≡ true) }
        ensures few { IfOk result (λ ends. (count : Stand → ℕ) → sum_by count ends.items
            ≤ sum_by count (flat_map (one_back self.now.compiled.now (G.meaning self.now.graph.now) self.now.atoms.now step) stands.now)) }
        ensures no_step_back { steps.old ≤ steps.new }
        ensures cost { steps.new ≤ steps.old + sum_by (one_most (G.meaning self.now.graph.now) step) stands.now }
        ensures once { (pairs : List Stand) → ((test : Stand → Bool) → list_any test stands.now ≡ true → list_any test pairs ≡ true) →
            steps.new ≤ steps.old + sum_by (one_most (G.meaning self.now.graph.now) step) pairs }
    {
        let (here, mut others) = parted(alloc, step.bound(), stands)?;
        let once = in_order(here);
        let elems = once.as_slice();
        for elem in elems {
            self.add_back(step, *elem, &mut others, steps)?;
        }
        Ok(others)
    }

    /// Where the steps of a plan lead back to from stands, the last step first. No pair of a variable and an element is gone back from
    /// twice (`once`). The rules are `led_back`, `led_most` and `once_most` in `specs/Spread.antt` of `pgs_match`.
    pub(crate) fn lead_back<L: Ledger>(
        &self,
        alloc: Global,
        plan: &[Step],
        stands: Vec<Stand>,
        steps: &mut Steps<L>,
    ) -> Result<Vec<Stand>, Memory>
        requires { list_all (names_types self.now.compiled.now) self.now.atoms.now ≡ true }
        ensures all { IfOk result (λ ends. (test : Stand → Bool) → list_any test
            (flat_map (led_back self.now.compiled.now (G.meaning self.now.graph.now) self.now.atoms.now plan.now) stands.items) ≡ true → list_any test ends.items ≡ true) }
        ensures few { IfOk result (λ ends. (count : Stand → ℕ) → sum_by count ends.items
            ≤ sum_by count (flat_map (led_back self.now.compiled.now (G.meaning self.now.graph.now) self.now.atoms.now plan.now) stands.items)) }
        ensures no_step_back { steps.old ≤ steps.new }
        ensures cost { steps.new ≤ steps.old + sum_by (led_most self.now.compiled.now (G.meaning self.now.graph.now) self.now.atoms.now plan.now) stands.items }
        ensures once { (pairs : List Stand) → HasPassed self.now.compiled.now (G.meaning self.now.graph.now) self.now.atoms.now plan.now stands.items pairs →
            steps.new ≤ steps.old + once_most (G.meaning self.now.graph.now) plan.now pairs }
    {
        match head(plan) {
            None => Ok(stands),
            Some((step, rest)) => {
                let far = self.lead_back(alloc, rest, stands, steps)?;
                self.step_back(alloc, step, far.as_slice(), steps)
            }
        }
    }
}
