//! Whether all that hangs on a variable can be given an element, where the answer at each node is noted: no node is asked of twice at a
//! variable.

ghost use Rattle.std.specs.Prelude.{◌≡◌, ◌+◌, ◌*◌, ◌≤◌, ◌||◌, ◌==◌, ℕ, Bool, List, not, cond, true, false, [], ◌∷◌, length, Some, is_some};
ghost use Rattle.std.specs.Option.{option_map_or};
ghost use Rattle.std.specs.List.{Contains, list_any, list_all, sum_by};
ghost use Rattle.pgs_base.specs.declared.element.NodeId.{NodeId};
ghost use Rattle.pgs_base.specs.declared.element.EdgeId.{EdgeId};
ghost use Rattle.pgs_base.specs.declared.element.Elem.{Elem};
ghost use Rattle.pgs_syntax.specs.Valid.{names_types};
ghost use Rattle.pgs_match.specs.declared.stand.Stand.{Stand};
ghost use Rattle.pgs_match.specs.declared.bindings.Bound.{Bound};
ghost use Rattle.pgs_match.specs.Answers.{noted, behind, is_bound_in, EndsIn, KeepsOthers, AreRight, HasAhead, IsClosed, IsPaid, IsPrice, IsAmong, is_given, own_most};
ghost use Rattle.pgs_match.specs.Plans.{bound_by};
ghost use Rattle.pgs_match.specs.Spread.{stand_at, edges_in};
ghost use Rattle.pgs_match.specs.Tests.{admitted_node, admitted_edge};
ghost use Rattle.pgs_match.specs.Search.{edges_along};
ghost use Rattle.pgs_match.specs.Branches.{goes_from, next_bounds, can_be_given, step_most, asked_most, degree_at};

use crate::answers::Answers;
use crate::branches::head;
use crate::completion::end_of;
use crate::plan::is_left;
use crate::reads::edge_along;
use crate::{Bound, Search, Step};
use pgs_base::{NodeId, Steps};
use pgs_graph::GraphRead;
use std::sync::ledger::Ledger;

/// A search along the end of a plan, with the whole plan.
pub(crate) struct Asking<'a, G: GraphRead> {
    pub(crate) search: Search<'a, G>,
    pub(crate) whole: &'a [Step],
}

impl<'a, G: GraphRead> Drop for Asking<'a, G> {
    fn drop(self) {
        let Asking {
            search: _,
            whole: _,
        } = self;
    }
}

impl<'a, G: GraphRead> Asking<'a, G> {
    /// Whether all that hangs on a variable by the steps can be given an element, where the variable is bound so. What was noted of a node
    /// that is come to is not asked again; what is found of one is noted.
    #[cycle(remembering)]
    pub(crate) fn given<L: Ledger>(
        &self,
        plan: &[Step],
        var: u32,
        bound: Bound,
        answers: &mut Answers,
        steps: &mut Steps<L>,
    ) -> bool
        requires names { list_all (names_types self.now.search.compiled.now) self.now.search.atoms.now ≡ true }
        requires place { EndsIn self.now.whole.now plan.now }
        requires right { AreRight self.now.search.compiled.now (G.meaning self.now.search.graph.now) self.now.search.atoms.now self.now.whole.now answers.old }
        ensures found { result ≡ can_be_given self.now.search.compiled.now (G.meaning self.now.search.graph.now) self.now.search.atoms.now plan.now var bound }
        ensures right { AreRight self.now.search.compiled.now (G.meaning self.now.search.graph.now) self.now.search.atoms.now self.now.whole.now answers.new }
        ensures kept { KeepsOthers plan.now answers.old answers.new }
        ensures full { answers.old.is_full ≡ true → answers.new.is_full ≡ true }
        ensures no_step_back { steps.old ≤ steps.new }
        ensures cost { steps.new ≤ steps.old
            + asked_most self.now.search.compiled.now (G.meaning self.now.search.graph.now) self.now.search.atoms.now plan.now var bound }
        ensures once { (pairs : List Stand) (price : ℕ) → IsPrice plan.now price →
            IsClosed self.now.search.compiled.now (G.meaning self.now.search.graph.now) self.now.search.atoms.now pairs plan.now →
            IsAmong (G.meaning self.now.search.graph.now) pairs var bound →
            IsPaid (G.meaning self.now.search.graph.now) price pairs answers.old answers.new steps.old steps.new (own_most (G.meaning self.now.search.graph.now) plan.now bound) }
    {
        match head(plan) {
            None => true,
            Some((step, rest)) => {
                self.branch_given(step, rest, var, bound, answers, steps)
                    && self.given(rest, var, bound, answers, steps)
            }
        }
    }

    // Whether the branch that begins with a step can be given, if it goes from the variable.
    #[cycle(remembering)]
    fn branch_given<L: Ledger>(
        &self,
        step: Step,
        rest: &[Step],
        var: u32,
        bound: Bound,
        answers: &mut Answers,
        steps: &mut Steps<L>,
    ) -> bool
        requires names { list_all (names_types self.now.search.compiled.now) self.now.search.atoms.now ≡ true }
        requires place { EndsIn self.now.whole.now (step ∷ rest.now) }
        requires right { AreRight self.now.search.compiled.now (G.meaning self.now.search.graph.now) self.now.search.atoms.now self.now.whole.now answers.old }
        ensures found { result ≡ (not (goes_from var step) || list_any
            (can_be_given self.now.search.compiled.now (G.meaning self.now.search.graph.now) self.now.search.atoms.now rest.now (bound_by step))
            (next_bounds self.now.search.compiled.now (G.meaning self.now.search.graph.now) self.now.search.atoms.now step bound)) }
        ensures right { AreRight self.now.search.compiled.now (G.meaning self.now.search.graph.now) self.now.search.atoms.now self.now.whole.now answers.new }
        ensures kept { KeepsOthers (step ∷ rest.now) answers.old answers.new }
        ensures full { answers.old.is_full ≡ true → answers.new.is_full ≡ true }
        ensures no_step_back { steps.old ≤ steps.new }
        ensures cost { steps.new ≤ steps.old + cond (goes_from var step) (step_most self.now.search.compiled.now (G.meaning self.now.search.graph.now) self.now.search.atoms.now
            (asked_most self.now.search.compiled.now (G.meaning self.now.search.graph.now) self.now.search.atoms.now rest.now (bound_by step)) step bound) 0 }
        ensures once { (pairs : List Stand) (price : ℕ) → IsPrice rest.now price →
            IsClosed self.now.search.compiled.now (G.meaning self.now.search.graph.now) self.now.search.atoms.now pairs (step ∷ rest.now) →
            IsAmong (G.meaning self.now.search.graph.now) pairs var bound →
            IsPaid (G.meaning self.now.search.graph.now) price pairs answers.old answers.new steps.old steps.new
            (1 + (length rest.now + 4) * degree_at (G.meaning self.now.search.graph.now) bound) }
    {
        if !step.goes_from(var) {
            return true;
        }
        match step {
            Step::Along { edge, forward, .. } => match bound {
                Bound::Node(from) => self.edge_given(from, forward, edge, rest, answers, steps),
                Bound::Edge { .. } => false,
            },
            Step::End { node, source, .. } => match end_of(Some(bound), source) {
                Some(id) => self.node_given(id, node, rest, answers, steps),
                None => false,
            },
        }
    }

    // Whether some edge of a node is admitted on which all can be given.
    #[cycle(remembering)]
    fn edge_given<L: Ledger>(
        &self,
        from: NodeId,
        forward: bool,
        var: u32,
        rest: &[Step],
        answers: &mut Answers,
        steps: &mut Steps<L>,
    ) -> bool
        requires names { list_all (names_types self.now.search.compiled.now) self.now.search.atoms.now ≡ true }
        requires place { EndsIn self.now.whole.now rest.now }
        requires right { AreRight self.now.search.compiled.now (G.meaning self.now.search.graph.now) self.now.search.atoms.now self.now.whole.now answers.old }
        ensures found { result ≡ list_any (λ id. option_map_or
            (can_be_given self.now.search.compiled.now (G.meaning self.now.search.graph.now) self.now.search.atoms.now rest.now var)
            (admitted_edge self.now.search.compiled.now (G.meaning self.now.search.graph.now) self.now.search.atoms.now var id) false)
            (edges_along (G.meaning self.now.search.graph.now) forward (Some (Bound.Node from))) }
        ensures right { AreRight self.now.search.compiled.now (G.meaning self.now.search.graph.now) self.now.search.atoms.now self.now.whole.now answers.new }
        ensures kept { KeepsOthers rest.now answers.old answers.new }
        ensures full { answers.old.is_full ≡ true → answers.new.is_full ≡ true }
        ensures no_step_back { steps.old ≤ steps.new }
        ensures cost { steps.new ≤ steps.old + (length (edges_along (G.meaning self.now.search.graph.now) forward (Some (Bound.Node from))) + 1
            + sum_by (λ id. 3 + option_map_or
            (asked_most self.now.search.compiled.now (G.meaning self.now.search.graph.now) self.now.search.atoms.now rest.now var)
            (admitted_edge self.now.search.compiled.now (G.meaning self.now.search.graph.now) self.now.search.atoms.now var id) 0)
            (edges_along (G.meaning self.now.search.graph.now) forward (Some (Bound.Node from)))) }
        ensures once { (pairs : List Stand) (price : ℕ) → IsPrice rest.now price →
            IsClosed self.now.search.compiled.now (G.meaning self.now.search.graph.now) self.now.search.atoms.now pairs rest.now →
            ((id : EdgeId) → Contains (edges_in (G.meaning self.now.search.graph.now) forward (Elem.Node from)) id →
            is_some (admitted_edge self.now.search.compiled.now (G.meaning self.now.search.graph.now) self.now.search.atoms.now var id) ≡ true →
            Contains pairs (stand_at var (Elem.Edge id))) →
            IsPaid (G.meaning self.now.search.graph.now) price pairs answers.old answers.new steps.old steps.new
            (1 + (length rest.now + 4) * length (edges_along (G.meaning self.now.search.graph.now) forward (Some (Bound.Node from)))) }
    {
        for nth in 0..self.search.graph.count() as usize {
            match edge_along(self.search.graph, from, forward, nth, steps) {
                Some(id) => {
                    let admitted = self.search.admit_edge(var, id, steps);
                    if self.next_given(admitted, var, rest, answers, steps) {
                        return true;
                    }
                }
                None => return false,
            }
        }
        false
    }

    // Whether all can be given that hangs on the variable with what was admitted, where something was.
    #[cycle(remembering)]
    fn next_given<L: Ledger>(
        &self,
        admitted: Option<Bound>,
        var: u32,
        rest: &[Step],
        answers: &mut Answers,
        steps: &mut Steps<L>,
    ) -> bool
        requires names { list_all (names_types self.now.search.compiled.now) self.now.search.atoms.now ≡ true }
        requires place { EndsIn self.now.whole.now rest.now }
        requires right { AreRight self.now.search.compiled.now (G.meaning self.now.search.graph.now) self.now.search.atoms.now self.now.whole.now answers.old }
        ensures found { result ≡ option_map_or
            (can_be_given self.now.search.compiled.now (G.meaning self.now.search.graph.now) self.now.search.atoms.now rest.now var) admitted false }
        ensures right { AreRight self.now.search.compiled.now (G.meaning self.now.search.graph.now) self.now.search.atoms.now self.now.whole.now answers.new }
        ensures kept { KeepsOthers rest.now answers.old answers.new }
        ensures full { answers.old.is_full ≡ true → answers.new.is_full ≡ true }
        ensures no_step_back { steps.old ≤ steps.new }
        ensures cost { steps.new ≤ steps.old + option_map_or
            (asked_most self.now.search.compiled.now (G.meaning self.now.search.graph.now) self.now.search.atoms.now rest.now var) admitted 0 }
        ensures once { (pairs : List Stand) (price : ℕ) → IsPrice rest.now price →
            IsClosed self.now.search.compiled.now (G.meaning self.now.search.graph.now) self.now.search.atoms.now pairs rest.now →
            ((bound : Bound) → admitted ≡ Some bound → IsAmong (G.meaning self.now.search.graph.now) pairs var bound) →
            IsPaid (G.meaning self.now.search.graph.now) price pairs answers.old answers.new steps.old steps.new
            (option_map_or (own_most (G.meaning self.now.search.graph.now) rest.now) admitted 0) }
    {
        match admitted {
            Some(bound) => self.given(rest, var, bound, answers, steps),
            None => false,
        }
    }

    // Whether a node is admitted at a variable and all that hangs there can be given it. Where nothing hangs there no answer is noted.
    #[cycle(remembering)]
    fn node_given<L: Ledger>(
        &self,
        id: NodeId,
        var: u32,
        rest: &[Step],
        answers: &mut Answers,
        steps: &mut Steps<L>,
    ) -> bool
        requires names { list_all (names_types self.now.search.compiled.now) self.now.search.atoms.now ≡ true }
        requires behind { behind var self.now.whole.now ≡ rest.now }
        requires unbound { is_bound_in rest.now var ≡ false }
        requires place { EndsIn self.now.whole.now rest.now }
        requires right { AreRight self.now.search.compiled.now (G.meaning self.now.search.graph.now) self.now.search.atoms.now self.now.whole.now answers.old }
        ensures found { result ≡ is_given self.now.search.compiled.now (G.meaning self.now.search.graph.now) self.now.search.atoms.now rest.now var id }
        ensures right { AreRight self.now.search.compiled.now (G.meaning self.now.search.graph.now) self.now.search.atoms.now self.now.whole.now answers.new }
        ensures kept { (of : ℕ) (other : NodeId) → (var == of || is_bound_in rest.now of) ≡ false → noted answers.new of other ≡ noted answers.old of other }
        ensures full { answers.old.is_full ≡ true → answers.new.is_full ≡ true }
        ensures no_step_back { steps.old ≤ steps.new }
        ensures cost { steps.new ≤ steps.old + (1 + option_map_or
            (asked_most self.now.search.compiled.now (G.meaning self.now.search.graph.now) self.now.search.atoms.now rest.now var)
            (admitted_node self.now.search.compiled.now (G.meaning self.now.search.graph.now) self.now.search.atoms.now var id) 0) }
        ensures once { (pairs : List Stand) (price : ℕ) → IsPrice rest.now price →
            IsClosed self.now.search.compiled.now (G.meaning self.now.search.graph.now) self.now.search.atoms.now pairs rest.now →
            (is_some (admitted_node self.now.search.compiled.now (G.meaning self.now.search.graph.now) self.now.search.atoms.now var id) ≡ true →
            Contains pairs (stand_at var (Elem.Node id))) →
            IsPaid (G.meaning self.now.search.graph.now) price pairs answers.old answers.new steps.old steps.new 1 }
    {
        if !is_left(rest, var) {
            return self.search.admit_node(var, id, steps).is_some();
        }
        match answers.of(var, id) {
            Some(answer) => answer,
            None => {
                let admitted = self.search.admit_node(var, id, steps);
                let answer = self.next_given(admitted, var, rest, answers, steps);
                answers.note(var, id, answer);
                answer
            }
        }
    }
}
