//! The tuples that expressions give under the routes to the variables that they take. Of what hangs off the way it is asked alone whether
//! it can be given.

ghost use Rattle.std.specs.Prelude.{◌≡◌, ◌+◌, ◌≤◌, true, [], length, OnOk, Some, fold};
ghost use Rattle.std.specs.Option.{option_map_or};
ghost use Rattle.std.specs.List.{list_all, flat_map, sum_by};
ghost use Rattle.pgs_syntax.specs.Valid.{names_types};
ghost use Rattle.pgs_match.specs.Bounds.{with_bound};
ghost use Rattle.pgs_match.specs.Branches.{asked_most};
ghost use Rattle.pgs_match.specs.Routes.{whole, routes, with_tuple, way_most};
ghost use Rattle.pgs_match.specs.Search.{edges_along};
ghost use Rattle.pgs_match.specs.Tests.{admitted_edge};

use crate::completion::{end_of, first};
use crate::reads::edge_along;
use crate::{Bindings, Bound, Branch, Gathering, Step};
use pgs_base::{Memory, NodeId, Steps, TupleSet};
use pgs_graph::GraphRead;
use std::sync::ledger::Ledger;

/// Where tuples are gathered along the steps on the way, and the steps off it.
pub(crate) struct Way<'a, G: GraphRead> {
    pub(crate) gathering: Gathering<'a, G>,
    pub(crate) off: &'a [Step],
}

impl<'a, G: GraphRead> Drop for Way<'a, G> {
    fn drop(self) {
        let Way {
            gathering: _,
            off: _,
        } = self;
    }
}

impl<'a, G: GraphRead> Way<'a, G> {
    /// Adds the tuple of the expressions under each route from the bindings. After `Memory` some of them may be there.
    #[cycle(way)]
    pub(crate) fn gather<L: Ledger>(
        &self,
        ways: &[Step],
        bindings: &Bindings,
        tuples: &mut TupleSet,
        steps: &mut Steps<L>,
    ) -> Result<(), Memory>
        requires { list_all (names_types self.now.gathering.search.compiled.now) self.now.gathering.search.atoms.now ≡ true }
        ensures ok { OnOk result (tuples.new ≡ fold (with_tuple (G.meaning self.now.gathering.search.graph.now) self.now.gathering.exprs.now) tuples.old
            (routes self.now.gathering.search.compiled.now (G.meaning self.now.gathering.search.graph.now) self.now.gathering.search.atoms.now
            self.now.off.now ways.now bindings.now)) }
        ensures no_step_back { steps.old ≤ steps.new }
        ensures cost { steps.new ≤ steps.old + way_most self.now.gathering.search.compiled.now (G.meaning self.now.gathering.search.graph.now)
            self.now.gathering.search.atoms.now self.now.off.now (length self.now.gathering.exprs.now) ways.now bindings.now }
    {
        match first(ways, bindings) {
            None => self.gather_one(bindings, tuples, steps),
            Some((Step::Along { node, forward, .. }, branch)) => match bindings.at(node) {
                Some(Bound::Node(from)) => self.gather_along(from, forward, &branch, tuples, steps),
                _ => Ok(()),
            },
            Some((Step::End { edge, node, source }, branch)) => {
                match end_of(bindings.at(edge), source) {
                    Some(id) => {
                        let admitted = self.gathering.search.admit_node(node, id, steps);
                        self.gather_with(admitted, &branch, tuples, steps)
                    }
                    None => Ok(()),
                }
            }
        }
    }

    // Adds the tuple under bindings of all variables on the way.
    pub(crate) fn gather_one<L: Ledger>(
        &self,
        bindings: &Bindings,
        tuples: &mut TupleSet,
        steps: &mut Steps<L>,
    ) -> Result<(), Memory>
        ensures ok { OnOk result (tuples.new ≡ with_tuple (G.meaning self.now.gathering.search.graph.now) self.now.gathering.exprs.now tuples.old bindings.now) }
        ensures no_step_back { steps.old ≤ steps.new }
        ensures cost { steps.new ≤ steps.old + length self.now.gathering.exprs.now }
    {
        let gathering = &self.gathering;
        match gathering
            .search
            .tuple(gathering.alloc, gathering.exprs, bindings, steps)?
        {
            Some(tuple) => {
                let _is_new = tuples.insert(tuple)?;
                Ok(())
            }
            None => Ok(()),
        }
    }

    // Adds them with each edge of a node.
    #[cycle(way)]
    fn gather_along<L: Ledger>(
        &self,
        from: NodeId,
        forward: bool,
        branch: &Branch<'_>,
        tuples: &mut TupleSet,
        steps: &mut Steps<L>,
    ) -> Result<(), Memory>
        requires { list_all (names_types self.now.gathering.search.compiled.now) self.now.gathering.search.atoms.now ≡ true }
        ensures ok { OnOk result (tuples.new ≡ fold (with_tuple (G.meaning self.now.gathering.search.graph.now) self.now.gathering.exprs.now) tuples.old
            (flat_map (λ id. option_map_or (λ bound. routes self.now.gathering.search.compiled.now (G.meaning self.now.gathering.search.graph.now)
            self.now.gathering.search.atoms.now self.now.off.now branch.now.plan.now (with_bound branch.now.bindings.now branch.now.var bound))
            (whole self.now.gathering.search.compiled.now (G.meaning self.now.gathering.search.graph.now) self.now.gathering.search.atoms.now self.now.off.now branch.now.var
            (admitted_edge self.now.gathering.search.compiled.now (G.meaning self.now.gathering.search.graph.now) self.now.gathering.search.atoms.now branch.now.var id)) [])
            (edges_along (G.meaning self.now.gathering.search.graph.now) forward (Some (Bound.Node from))))) }
        ensures no_step_back { steps.old ≤ steps.new }
        ensures cost { steps.new ≤ steps.old
            + (length (edges_along (G.meaning self.now.gathering.search.graph.now) forward (Some (Bound.Node from))) + 1
            + sum_by (λ id. 3 + option_map_or
            (λ bound. asked_most self.now.gathering.search.compiled.now (G.meaning self.now.gathering.search.graph.now) self.now.gathering.search.atoms.now
            self.now.off.now branch.now.var bound + way_most self.now.gathering.search.compiled.now (G.meaning self.now.gathering.search.graph.now)
            self.now.gathering.search.atoms.now self.now.off.now (length self.now.gathering.exprs.now) branch.now.plan.now (with_bound branch.now.bindings.now branch.now.var bound))
            (admitted_edge self.now.gathering.search.compiled.now (G.meaning self.now.gathering.search.graph.now) self.now.gathering.search.atoms.now branch.now.var id) 0)
            (edges_along (G.meaning self.now.gathering.search.graph.now) forward (Some (Bound.Node from)))) }
    {
        for nth in 0..self.gathering.search.graph.count() as usize {
            match edge_along(self.gathering.search.graph, from, forward, nth, steps) {
                Some(id) => {
                    let admitted = self.gathering.search.admit_edge(branch.var, id, steps);
                    self.gather_with(admitted, branch, tuples, steps)?;
                }
                None => return Ok(()),
            }
        }
        Ok(())
    }

    // Adds them with the variable bound to what was admitted, where something was on which all can be given that hangs off the way.
    #[cycle(way)]
    pub(crate) fn gather_with<L: Ledger>(
        &self,
        admitted: Option<Bound>,
        branch: &Branch<'_>,
        tuples: &mut TupleSet,
        steps: &mut Steps<L>,
    ) -> Result<(), Memory>
        requires { list_all (names_types self.now.gathering.search.compiled.now) self.now.gathering.search.atoms.now ≡ true }
        ensures ok { OnOk result (tuples.new ≡ fold (with_tuple (G.meaning self.now.gathering.search.graph.now) self.now.gathering.exprs.now) tuples.old
            (option_map_or (λ bound. routes self.now.gathering.search.compiled.now (G.meaning self.now.gathering.search.graph.now)
            self.now.gathering.search.atoms.now self.now.off.now branch.now.plan.now (with_bound branch.now.bindings.now branch.now.var bound))
            (whole self.now.gathering.search.compiled.now (G.meaning self.now.gathering.search.graph.now) self.now.gathering.search.atoms.now self.now.off.now branch.now.var admitted) [])) }
        ensures no_step_back { steps.old ≤ steps.new }
        ensures cost { steps.new ≤ steps.old + option_map_or
            (λ bound. asked_most self.now.gathering.search.compiled.now (G.meaning self.now.gathering.search.graph.now) self.now.gathering.search.atoms.now
            self.now.off.now branch.now.var bound + way_most self.now.gathering.search.compiled.now (G.meaning self.now.gathering.search.graph.now)
            self.now.gathering.search.atoms.now self.now.off.now (length self.now.gathering.exprs.now) branch.now.plan.now (with_bound branch.now.bindings.now branch.now.var bound))
            admitted 0 }
    {
        match admitted {
            Some(bound) => {
                if self
                    .gathering
                    .search
                    .can_be_given(self.off, branch.var, bound, steps)
                {
                    let bindings = branch.bindings.with(branch.var, bound);
                    self.gather(branch.plan, &bindings, tuples, steps)
                } else {
                    Ok(())
                }
            }
            None => Ok(()),
        }
    }
}
