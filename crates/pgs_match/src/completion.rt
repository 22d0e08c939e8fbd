//! Whether a plan can complete bindings.

ghost use Rattle.std.specs.Prelude.{◌≡◌, ◌+◌, ◌≤◌, true, false, [], ◌∷◌, length, Some, MatchOption, IfSome};
ghost use Rattle.std.specs.Option.{option_map_or};
ghost use Rattle.std.specs.List.{list_any, list_all, sum_by};
ghost use Rattle.pgs_syntax.specs.Valid.{names_types};
ghost use Rattle.pgs_match.specs.Bounds.{with_bound, end_at};
ghost use Rattle.pgs_match.specs.Plans.{bound_by};
ghost use Rattle.pgs_match.specs.Tests.{admitted_edge, are_ends, agrees};
ghost use Rattle.pgs_match.specs.Search.{edges_along, can_complete, most_steps};

use crate::reads::edge_along;
use crate::{Bindings, Bound, Branch, Search, Step};
use pgs_base::{NodeId, Steps};
use pgs_graph::GraphRead;
use pgs_syntax::Atom;
use std::sync::ledger::Ledger;

// Whether an edge is bound whose ends are the nodes that are bound.
fn are_ends(edge: Option<Bound>, source: Option<Bound>, target: Option<Bound>) -> bool
    ensures { result ≡ are_ends edge source target }
{
    match (edge, source, target) {
        (
            Some(
                Bound::Edge {
                    source: first,
                    target: second,
                    ..
                },
            ),
            Some(Bound::Node(source)),
            Some(Bound::Node(target)),
        ) => first == source && second == target,
        _ => false,
    }
}

// Whether the bindings of an edge place agree.
fn agrees(atom: &Atom, bindings: &Bindings) -> bool
    ensures { result ≡ agrees bindings.now atom.now }
{
    match atom {
        Atom::Ends {
            edge,
            source,
            target,
        } => {
            are_ends(
                bindings.at(*edge),
                bindings.at(*source),
                bindings.at(*target),
            )
        }
        _ => true,
    }
}

/// Whether the bindings of all edge places agree.
pub(crate) fn all_agree(atoms: &[Atom], bindings: &Bindings) -> bool
    ensures { result ≡ list_all (agrees bindings.now) atoms.now }
{
    for atom in atoms {
        if !agrees(atom, bindings) {
            return false;
        }
    }
    true
}

/// The end of a bound edge.
pub(crate) fn end_of(edge: Option<Bound>, source: bool) -> Option<NodeId>
    ensures { result ≡ end_at source edge }
{
    match edge {
        Some(
            Bound::Edge {
                source: first,
                target: second,
                ..
            },
        ) => { Some(if source { first } else { second }) }
        _ => None,
    }
}

/// The first step of a plan, and where it goes on from bindings.
pub(crate) fn first<'a>(plan: &'a [Step], bindings: &'a Bindings) -> Option<(Step, Branch<'a>)>
    ensures plan { MatchOption result (plan.now ≡ []) (λ parts. plan.now ≡ parts.0 ∷ parts.1.plan.now) }
    ensures var { IfSome result (λ parts. parts.1.var ≡ bound_by parts.0) }
    ensures bindings { IfSome result (λ parts. parts.1.bindings.now ≡ bindings.now) }
{
    match plan.split_first() {
        Some((step, rest)) => {
            let branch = Branch {
                var: step.bound(),
                plan: rest,
                bindings,
            };
            Some((*step, branch))
        }
        None => None,
    }
}

impl<'a, G: GraphRead> Search<'a, G> {
    /// Whether the plan can complete the bindings to such that agree. It takes no memory.
    #[cycle(complete)]
    pub fn can_complete<L: Ledger>(
        &self,
        plan: &[Step],
        bindings: &Bindings,
        steps: &mut Steps<L>,
    ) -> bool
        requires { list_all (names_types self.now.compiled.now) self.now.atoms.now ≡ true }
        ensures found { result ≡ can_complete self.now.compiled.now (G.meaning self.now.graph.now) self.now.atoms.now plan.now bindings.now }
        ensures no_step_back { steps.old ≤ steps.new }
        ensures cost { steps.new ≤ steps.old
            + most_steps self.now.compiled.now (G.meaning self.now.graph.now) self.now.atoms.now 0 plan.now bindings.now }
    {
        match first(plan, bindings) {
            None => all_agree(self.atoms, bindings),
            Some((Step::Along { node, forward, .. }, branch)) => match bindings.at(node) {
                Some(Bound::Node(from)) => self.can_complete_along(from, forward, &branch, steps),
                _ => false,
            },
            Some((Step::End { edge, node, source }, branch)) => {
                match end_of(bindings.at(edge), source) {
                    Some(id) => {
                        let admitted = self.admit_node(node, id, steps);
                        self.can_complete_with(admitted, &branch, steps)
                    }
                    None => false,
                }
            }
        }
    }

    // Whether it can with some edge of a node.
    #[cycle(complete)]
    fn can_complete_along<L: Ledger>(
        &self,
        from: NodeId,
        forward: bool,
        branch: &Branch<'_>,
        steps: &mut Steps<L>,
    ) -> bool
        requires { list_all (names_types self.now.compiled.now) self.now.atoms.now ≡ true }
        ensures found { result ≡ list_any (λ id. option_map_or
            (λ bound. can_complete self.now.compiled.now (G.meaning self.now.graph.now) self.now.atoms.now branch.now.plan.now (with_bound branch.now.bindings.now branch.now.var bound))
            (admitted_edge self.now.compiled.now (G.meaning self.now.graph.now) self.now.atoms.now branch.now.var id) false)
            (edges_along (G.meaning self.now.graph.now) forward (Some (Bound.Node from))) }
        ensures no_step_back { steps.old ≤ steps.new }
        ensures cost { steps.new ≤ steps.old + (length (edges_along (G.meaning self.now.graph.now) forward (Some (Bound.Node from))) + 1
            + sum_by (λ id. 3 + option_map_or
            (λ bound. most_steps self.now.compiled.now (G.meaning self.now.graph.now) self.now.atoms.now 0 branch.now.plan.now (with_bound branch.now.bindings.now branch.now.var bound))
            (admitted_edge self.now.compiled.now (G.meaning self.now.graph.now) self.now.atoms.now branch.now.var id) 0)
            (edges_along (G.meaning self.now.graph.now) forward (Some (Bound.Node from)))) }
    {
        for nth in 0..self.graph.count() as usize {
            match edge_along(self.graph, from, forward, nth, steps) {
                Some(id) => {
                    let admitted = self.admit_edge(branch.var, id, steps);
                    if self.can_complete_with(admitted, branch, steps) {
                        return true;
                    }
                }
                None => return false,
            }
        }
        false
    }

    // Whether it can with the variable bound to what was admitted, where something was.
    #[cycle(complete)]
    fn can_complete_with<L: Ledger>(
        &self,
        admitted: Option<Bound>,
        branch: &Branch<'_>,
        steps: &mut Steps<L>,
    ) -> bool
        requires { list_all (names_types self.now.compiled.now) self.now.atoms.now ≡ true }
        ensures found { result ≡ option_map_or
            (λ bound. can_complete self.now.compiled.now (G.meaning self.now.graph.now) self.now.atoms.now branch.now.plan.now (with_bound branch.now.bindings.now branch.now.var bound))
            admitted false }
        ensures no_step_back { steps.old ≤ steps.new }
        ensures cost { steps.new ≤ steps.old + option_map_or
            (λ bound. most_steps self.now.compiled.now (G.meaning self.now.graph.now) self.now.atoms.now 0 branch.now.plan.now (with_bound branch.now.bindings.now branch.now.var bound))
            admitted 0 }
    {
        match admitted {
            Some(bound) => {
                let bindings = branch.bindings.with(branch.var, bound);
                self.can_complete(branch.plan, &bindings, steps)
            }
            None => false,
        }
    }
}
