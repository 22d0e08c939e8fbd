//! Whether all that hangs on a variable can be given an element, where the variables of a pattern hang on one another as a tree.

ghost use Rattle.std.specs.Prelude.{◌≡◌, ◌+◌, ◌≤◌, ◌||◌, not, cond, true, false, [], ◌∷◌, length, Some, MatchOption};
ghost use Rattle.std.specs.Option.{option_map_or};
ghost use Rattle.std.specs.List.{list_any, list_all, sum_by};
ghost use Rattle.pgs_syntax.specs.Valid.{names_types};
ghost use Rattle.pgs_match.specs.Plans.{bound_by};
ghost use Rattle.pgs_match.specs.Tests.{admitted_edge};
ghost use Rattle.pgs_match.specs.Search.{edges_along};
ghost use Rattle.pgs_match.specs.Branches.{goes_from, next_bounds, can_be_given, step_most, asked_most};

use crate::completion::end_of;
use crate::reads::edge_along;
use crate::{Bound, Search, Step};
use pgs_base::{NodeId, Steps};
use pgs_graph::GraphRead;
use std::sync::ledger::Ledger;

// The first step of a plan, and the rest.
pub(crate) fn head(plan: &[Step]) -> Option<(Step, &[Step])>
    ensures { MatchOption result (plan.now ≡ []) (λ parts. plan.now ≡ parts.0 ∷ parts.1.now) }
{
    match plan.split_first() {
        Some((step, rest)) => Some((*step, rest)),
        None => None,
    }
}

impl<'a, G: GraphRead> Search<'a, G> {
    /// Whether all that hangs on a variable by the steps can be given an element, where the variable is bound so. Each branch is asked
    /// by itself: where one can't be given, no other element of another is tried. It takes no memory. The rules of the answer and of
    /// the look-ups are `can_be_given` and `asked_most` in `specs/Branches.antt` of `pgs_match`.
    #[cycle(given)]
    pub fn can_be_given<L: Ledger>(
        &self,
        plan: &[Step],
        var: u32,
        bound: Bound,
        steps: &mut Steps<L>,
    ) -> bool
        requires { list_all (names_types self.now.compiled.now) self.now.atoms.now ≡ true }
        ensures found { result ≡ can_be_given self.now.compiled.now (G.meaning self.now.graph.now) self.now.atoms.now plan.now var bound }
        ensures no_step_back { steps.old ≤ steps.new }
        ensures cost { steps.new ≤ steps.old
            + asked_most self.now.compiled.now (G.meaning self.now.graph.now) self.now.atoms.now plan.now var bound }
    {
        match head(plan) {
            None => true,
            Some((step, rest)) => {
                self.branch_can(step, rest, var, bound, steps)
                    && self.can_be_given(rest, var, bound, steps)
            }
        }
    }

    // Whether the branch that begins with a step can be given, if it goes from the variable.
    #[cycle(given)]
    fn branch_can<L: Ledger>(
        &self,
        step: Step,
        rest: &[Step],
        var: u32,
        bound: Bound,
        steps: &mut Steps<L>,
    ) -> bool
        requires { list_all (names_types self.now.compiled.now) self.now.atoms.now ≡ true }
        ensures found { result ≡ (not (goes_from var step) || list_any
            (can_be_given self.now.compiled.now (G.meaning self.now.graph.now) self.now.atoms.now rest.now (bound_by step))
            (next_bounds self.now.compiled.now (G.meaning self.now.graph.now) self.now.atoms.now step bound)) }
        ensures no_step_back { steps.old ≤ steps.new }
        ensures cost { steps.new ≤ steps.old + cond (goes_from var step) (step_most self.now.compiled.now (G.meaning self.now.graph.now) self.now.atoms.now
            (asked_most self.now.compiled.now (G.meaning self.now.graph.now) self.now.atoms.now rest.now (bound_by step)) step bound) 0 }
    {
        if !step.goes_from(var) {
            return true;
        }
        match step {
            Step::Along { edge, forward, .. } => match bound {
                Bound::Node(from) => self.edge_can(from, forward, edge, rest, steps),
                Bound::Edge { .. } => false,
            },
            Step::End { node, source, .. } => match end_of(Some(bound), source) {
                Some(id) => {
                    let admitted = self.admit_node(node, id, steps);
                    self.next_can(admitted, node, rest, steps)
                }
                None => false,
            },
        }
    }

    // Whether some edge of a node is admitted on which all can be given.
    #[cycle(given)]
    fn edge_can<L: Ledger>(
        &self,
        from: NodeId,
        forward: bool,
        var: u32,
        rest: &[Step],
        steps: &mut Steps<L>,
    ) -> bool
        requires { list_all (names_types self.now.compiled.now) self.now.atoms.now ≡ true }
        ensures found { result ≡ list_any (λ id. option_map_or
            (can_be_given self.now.compiled.now (G.meaning self.now.graph.now) self.now.atoms.now rest.now var)
            (admitted_edge self.now.compiled.now (G.meaning self.now.graph.now) self.now.atoms.now var id) false)
            (edges_along (G.meaning self.now.graph.now) forward (Some (Bound.Node from))) }
        ensures no_step_back { steps.old ≤ steps.new }
        ensures cost { steps.new ≤ steps.old + (length (edges_along (G.meaning self.now.graph.now) forward (Some (Bound.Node from))) + 1
            + sum_by (λ id. 3 + option_map_or
            (asked_most self.now.compiled.now (G.meaning self.now.graph.now) self.now.atoms.now rest.now var)
            (admitted_edge self.now.compiled.now (G.meaning self.now.graph.now) self.now.atoms.now var id) 0)
            (edges_along (G.meaning self.now.graph.now) forward (Some (Bound.Node from)))) }
    {
        for nth in 0..self.graph.count() as usize {
            match edge_along(self.graph, from, forward, nth, steps) {
                Some(id) => {
                    let admitted = self.admit_edge(var, id, steps);
                    if self.next_can(admitted, var, rest, steps) {
                        return true;
                    }
                }
                None => return false,
            }
        }
        false
    }

    // Whether all can be given that hangs on the variable with what was admitted, where something was.
    #[cycle(given)]
    fn next_can<L: Ledger>(
        &self,
        admitted: Option<Bound>,
        var: u32,
        rest: &[Step],
        steps: &mut Steps<L>,
    ) -> bool
        requires { list_all (names_types self.now.compiled.now) self.now.atoms.now ≡ true }
        ensures found { result ≡ option_map_or
            (can_be_given self.now.compiled.now (G.meaning self.now.graph.now) self.now.atoms.now rest.now var) admitted false }
        ensures no_step_back { steps.old ≤ steps.new }
        ensures cost { steps.new ≤ steps.old + option_map_or
            (asked_most self.now.compiled.now (G.meaning self.now.graph.now) self.now.atoms.now rest.now var) admitted 0 }
    {
        match admitted {
            Some(bound) => self.can_be_given(rest, var, bound, steps),
            None => false,
        }
    }
}
