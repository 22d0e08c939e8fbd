//! The tuples that expressions give under all completions of bindings.

ghost use Rattle.std.specs.Prelude.{◌≡◌, ◌+◌, ◌≤◌, true, ◌∷◌, length, Some, OnOk, fold, cond};
ghost use Rattle.std.specs.Option.{option_map_or};
ghost use Rattle.std.specs.List.{list_all, sum_by};
ghost use Rattle.std.specs.BTreeSet.{insert_key};
ghost use Rattle.pgs_base.specs.Order.{tuple_cmp};
ghost use Rattle.pgs_syntax.specs.Valid.{names_types};
ghost use Rattle.pgs_match.specs.Bounds.{with_bound};
ghost use Rattle.pgs_match.specs.Tests.{admitted_edge, agrees};
ghost use Rattle.pgs_match.specs.Search.{edges_along, tuple_at, gathered, most_steps};

use crate::completion::{all_agree, end_of, first};
use crate::reads::edge_along;
use crate::{Bindings, Bound, Branch, Search, Step};
use pgs_base::{Memory, NodeId, Steps, TupleSet};
use pgs_graph::GraphRead;
use pgs_syntax::Expr;
use std::alloc::Global;
use std::sync::ledger::Ledger;

/// Where tuples are gathered, and of which expressions.
pub struct Gathering<'a, G: GraphRead> {
    pub search: Search<'a, G>,
    pub exprs: &'a [Expr],
    pub alloc: Global,
}

impl<'a, G: GraphRead> Drop for Gathering<'a, G> {
    fn drop(self) {
        let Gathering {
            search: _,
            exprs: _,
            alloc: _,
        } = self;
    }
}

impl<'a, G: GraphRead> Gathering<'a, G> {
    /// Adds the tuple of the expressions under each completion of the bindings by the plan. After `Memory` some of them may be
    /// there.
    #[cycle(gather)]
    pub fn gather<L: Ledger>(
        &self,
        plan: &[Step],
        bindings: &Bindings,
        tuples: &mut TupleSet,
        steps: &mut Steps<L>,
    ) -> Result<(), Memory>
        requires { list_all (names_types self.now.search.compiled.now) self.now.search.atoms.now ≡ true }
        ensures ok { OnOk result (tuples.new ≡ gathered self.now.search.compiled.now (G.meaning self.now.search.graph.now) self.now.search.atoms.now
            self.now.exprs.now plan.now bindings.now tuples.old) }
        ensures no_step_back { steps.old ≤ steps.new }
        ensures cost { steps.new ≤ steps.old + most_steps self.now.search.compiled.now (G.meaning self.now.search.graph.now)
            self.now.search.atoms.now (length self.now.exprs.now) plan.now bindings.now }
    {
        match first(plan, bindings) {
            None => self.gather_one(bindings, tuples, steps),
            Some((Step::Along { node, forward, .. }, branch)) => match bindings.at(node) {
                Some(Bound::Node(from)) => self.gather_along(from, forward, &branch, tuples, steps),
                _ => Ok(()),
            },
            Some((Step::End { edge, node, source }, branch)) => {
                match end_of(bindings.at(edge), source) {
                    Some(id) => {
                        let admitted = self.search.admit_node(node, id, steps);
                        self.gather_with(admitted, &branch, tuples, steps)
                    }
                    None => Ok(()),
                }
            }
        }
    }

    // Adds the tuple under bindings of all variables, where those of all edge places agree.
    fn gather_one<L: Ledger>(
        &self,
        bindings: &Bindings,
        tuples: &mut TupleSet,
        steps: &mut Steps<L>,
    ) -> Result<(), Memory>
        ensures ok { OnOk result (tuples.new ≡ cond (list_all (agrees bindings.now) self.now.search.atoms.now)
            (option_map_or (insert_key tuple_cmp tuples.old) (tuple_at (G.meaning self.now.search.graph.now) self.now.exprs.now bindings.now) tuples.old)
            tuples.old) }
        ensures no_step_back { steps.old ≤ steps.new }
        ensures cost { steps.new ≤ steps.old + length self.now.exprs.now }
    {
        if !all_agree(self.search.atoms, bindings) {
            return Ok(());
        }
        match self.search.tuple(self.alloc, self.exprs, bindings, steps)? {
            Some(tuple) => {
                let _is_new = tuples.insert(tuple)?;
                Ok(())
            }
            None => Ok(()),
        }
    }

    // Adds them with each edge of a node.
    #[cycle(gather)]
    fn gather_along<L: Ledger>(
        &self,
        from: NodeId,
        forward: bool,
        branch: &Branch<'_>,
        tuples: &mut TupleSet,
        steps: &mut Steps<L>,
    ) -> Result<(), Memory>
        requires { list_all (names_types self.now.search.compiled.now) self.now.search.atoms.now ≡ true }
        ensures ok { OnOk result (tuples.new ≡ fold (λ so_far id. option_map_or
            (λ bound. gathered self.now.search.compiled.now (G.meaning self.now.search.graph.now) self.now.search.atoms.now
            self.now.exprs.now branch.now.plan.now (with_bound branch.now.bindings.now branch.now.var bound) so_far)
            (admitted_edge self.now.search.compiled.now (G.meaning self.now.search.graph.now) self.now.search.atoms.now branch.now.var id) so_far)
            tuples.old (edges_along (G.meaning self.now.search.graph.now) forward (Some (Bound.Node from)))) }
        ensures no_step_back { steps.old ≤ steps.new }
        ensures cost { steps.new ≤ steps.old
            + (length (edges_along (G.meaning self.now.search.graph.now) forward (Some (Bound.Node from))) + 1
            + sum_by (λ id. 3 + option_map_or
            (λ bound. most_steps self.now.search.compiled.now (G.meaning self.now.search.graph.now) self.now.search.atoms.now
            (length self.now.exprs.now) branch.now.plan.now (with_bound branch.now.bindings.now branch.now.var bound))
            (admitted_edge self.now.search.compiled.now (G.meaning self.now.search.graph.now) self.now.search.atoms.now branch.now.var id) 0)
            (edges_along (G.meaning self.now.search.graph.now) forward (Some (Bound.Node from)))) }
    {
        for nth in 0..self.search.graph.count() as usize {
            match edge_along(self.search.graph, from, forward, nth, steps) {
                Some(id) => {
                    let admitted = self.search.admit_edge(branch.var, id, steps);
                    self.gather_with(admitted, branch, tuples, steps)?;
                }
                None => return Ok(()),
            }
        }
        Ok(())
    }

    // Adds them with the variable bound to what was admitted, where something was.
    #[cycle(gather)]
    fn gather_with<L: Ledger>(
        &self,
        admitted: Option<Bound>,
        branch: &Branch<'_>,
        tuples: &mut TupleSet,
        steps: &mut Steps<L>,
    ) -> Result<(), Memory>
        requires { list_all (names_types self.now.search.compiled.now) self.now.search.atoms.now ≡ true }
        ensures ok { OnOk result (tuples.new ≡ option_map_or
            (λ bound. gathered self.now.search.compiled.now (G.meaning self.now.search.graph.now) self.now.search.atoms.now
            self.now.exprs.now branch.now.plan.now (with_bound branch.now.bindings.now branch.now.var bound) tuples.old) admitted tuples.old) }
        ensures no_step_back { steps.old ≤ steps.new }
        ensures cost { steps.new ≤ steps.old + option_map_or
            (λ bound. most_steps self.now.search.compiled.now (G.meaning self.now.search.graph.now) self.now.search.atoms.now
            (length self.now.exprs.now) branch.now.plan.now (with_bound branch.now.bindings.now branch.now.var bound)) admitted 0 }
    {
        match admitted {
            Some(bound) => {
                let bindings = branch.bindings.with(branch.var, bound);
                self.gather(branch.plan, &bindings, tuples, steps)
            }
            None => Ok(()),
        }
    }
}
