//! Searches from one variable of a pattern and an element.

ghost use Rattle.std.specs.Prelude.{◌≡◌, ◌+◌, ◌*◌, ◌^◌, ◌<◌, ◌≤◌, ◌==◌, ◌||◌, ◌&&◌, ℕ, List as Items, nat_lt, true, false, [], map, length, IfOk, OnOk, OnSome};
ghost use Rattle.std.specs.Option.{option_map_or};
ghost use Rattle.std.specs.List.{Contains, list_any, list_all, sum_by};
ghost use Rattle.pgs_base.specs.Graph.{is_graph};
ghost use Rattle.pgs_syntax.specs.Matches.{matches};
ghost use Rattle.pgs_syntax.specs.Valid.{edge_count, read_var, is_valid_pattern, names_types};
ghost use Rattle.pgs_match.specs.declared.stand.Stand.{Stand};
ghost use Rattle.pgs_match.specs.Answers.{IsClosed};
ghost use Rattle.pgs_match.specs.Frontier.{leads_to_one, AreNoted};
ghost use Rattle.pgs_match.specs.Plans.{is_plan};
ghost use Rattle.pgs_match.specs.Branches.{is_tree, walked_from};
ghost use Rattle.pgs_match.specs.Learned.{is_short};
ghost use Rattle.pgs_match.specs.Planned.{IsSplit};
ghost use Rattle.pgs_match.specs.Spread.{elem_degree, stand_at};
ghost use Rattle.pgs_match.specs.Routes.{routed_from};
ghost use Rattle.pgs_match.specs.Bounds.{with_bound, nothing_bound, stands_at};
ghost use Rattle.pgs_match.specs.Near.{IsSparse};
ghost use Rattle.pgs_match.specs.Search.{gathered};
ghost use Rattle.pgs_match.specs.Tests.{admitted};

use crate::notes::Notes;
use crate::paths::is_by_nodes;
use crate::trees::is_tree;
use crate::ways::Way;
use crate::{Bindings, Bound, Branch, Gathering, Plan, Search, Step};
use pgs_base::{Elem, Memory, Steps, TupleSet};
use pgs_conform::Compiled;
use pgs_graph::GraphRead;
use pgs_syntax::{Expr, Pattern};
use std::alloc::Global;
use std::sync::ledger::Ledger;

/// A pattern whose types are those of a schema, in a graph.
pub(crate) struct Place<'a, G: GraphRead> {
    pub graph: &'a G,
    pub compiled: &'a Compiled,
    pub pattern: &'a Pattern,
}

impl<'a, G: GraphRead> Drop for Place<'a, G> {
    fn drop(self) {
        let Place {
            graph: _,
            compiled: _,
            pattern: _,
        } = self;
    }
}

impl<'a, G: GraphRead> Place<'a, G> {
    fn search(&self) -> Search<'a, G>
        ensures graph { result.graph ≡ self.now.graph }
        ensures compiled { result.compiled ≡ self.now.compiled }
        ensures atoms { result.atoms.now ≡ self.now.pattern.now.atoms }
    {
        Search {
            graph: self.graph,
            compiled: self.compiled,
            atoms: self.pattern.atoms.as_slice(),
        }
    }

    /// To what the element binds the variable, if it is of its kind, is there and passes. At most three look-ups.
    pub(crate) fn begin<L: Ledger>(
        &self,
        search: &Search<'a, G>,
        var: u32,
        elem: Elem,
        steps: &mut Steps<L>,
    ) -> Option<Bound>
        requires graph { search.now.graph ≡ self.now.graph }
        requires compiled { search.now.compiled ≡ self.now.compiled }
        requires atoms { search.now.atoms.now ≡ self.now.pattern.now.atoms }
        requires names { list_all (names_types self.now.compiled.now) self.now.pattern.now.atoms ≡ true }
        ensures value { result ≡ admitted self.now.compiled.now (G.meaning self.now.graph.now) self.now.pattern.now var elem }
        ensures no_step_back { steps.old ≤ steps.new }
        ensures at_most { steps.new ≤ steps.old + 3 }
        ensures graph { OnSome result (is_graph (G.meaning self.now.graph.now) ≡ true) }
    {
        match (elem, self.pattern.edge_vars.at(var as usize)) {
            (Elem::Node(id), Some(false)) => search.admit_node(var, id, steps),
            (Elem::Edge(id), Some(true)) => search.admit_edge(var, id, steps),
            _ => None,
        }
    }

    /// Whether some match has the element at the variable, by a plan from there. Where the plan has a step for each end of each edge
    /// place, each branch is asked by itself.
    pub(crate) fn has_match<L: Ledger>(
        &self,
        plan: &[Step],
        var: u32,
        elem: Elem,
        steps: &mut Steps<L>,
    ) -> bool
        requires valid { is_valid_pattern self.now.pattern.now ≡ true }
        requires names { list_all (names_types self.now.compiled.now) self.now.pattern.now.atoms ≡ true }
        requires in_range { var < length self.now.pattern.now.edge_vars }
        requires plan { is_plan self.now.pattern.now var plan.now ≡ true }
        ensures found { result ≡ list_any (stands_at var elem) (matches self.now.compiled.now (G.meaning self.now.graph.now) self.now.pattern.now) }
        ensures no_step_back { steps.old ≤ steps.new }
        ensures cost { (w most : ℕ) → edge_count self.now.pattern.now.edge_vars ≤ w → IsSparse (G.meaning self.now.graph.now) w elem most →
            steps.new ≤ steps.old + 16 * (most + 2) ^ (w + 1) }
        ensures adds { is_tree self.now.pattern.now.atoms plan.now ≡ true → steps.new ≤ steps.old
            + 80 * walked_from self.now.compiled.now (G.meaning self.now.graph.now) self.now.pattern.now plan.now var elem }
        ensures short { is_tree self.now.pattern.now.atoms plan.now ≡ true → is_short plan.now ≡ true →
            steps.new ≤ steps.old + 440 * (elem_degree (G.meaning self.now.graph.now) elem + 2) }
    {
        let search = self.search();
        match self.begin(&search, var, elem, steps) {
            Some(bound) => {
                if is_tree(search.atoms, plan) {
                    search.can_be_given(plan, var, bound, steps)
                } else {
                    search.can_complete(plan, &Bindings::alone(var, bound), steps)
                }
            }
            None => false,
        }
    }

    /// The tuples of expressions under the matches that have the element at the variable, by a plan from there. Where the plan has a step
    /// for each end of each edge place, the search goes along the way to what the expressions take, and of all else it is asked whether it
    /// can be given. Where it leads to one variable, each pair of a variable and an element is gone over once, by what was noted; `Memory` then
    /// also where an answer couldn't be noted for want of it.
    pub(crate) fn tuples<L: Ledger>(
        &self,
        alloc: Global,
        exprs: &[Expr],
        plan: &Plan,
        var: u32,
        elem: Elem,
        notes: &mut Notes,
        steps: &mut Steps<L>,
    ) -> Result<TupleSet, Memory>
        requires valid { is_valid_pattern self.now.pattern.now ≡ true }
        requires names { list_all (names_types self.now.compiled.now) self.now.pattern.now.atoms ≡ true }
        requires in_range { var < length self.now.pattern.now.edge_vars }
        requires plan { IsSplit (map read_var exprs.now) self.now.pattern.now var plan.now }
        requires few_exprs { length exprs.now ≤ 16 }
        requires reads { list_all (λ (expr : Expr). nat_lt (read_var expr) (length self.now.pattern.now.edge_vars)) exprs.now ≡ true }
        requires right { AreNoted self.now.compiled.now (G.meaning self.now.graph.now) self.now.pattern.now.atoms plan.now.off notes.old }
        ensures value { IfOk result (λ tuples. tuples ≡ option_map_or (λ bound. gathered self.now.compiled.now (G.meaning self.now.graph.now)
            self.now.pattern.now.atoms exprs.now plan.now.steps (with_bound nothing_bound var bound) [])
            (admitted self.now.compiled.now (G.meaning self.now.graph.now) self.now.pattern.now var elem) []) }
        ensures graph { OnSome (admitted self.now.compiled.now (G.meaning self.now.graph.now) self.now.pattern.now var elem)
            (is_graph (G.meaning self.now.graph.now) ≡ true) }
        ensures right { AreNoted self.now.compiled.now (G.meaning self.now.graph.now) self.now.pattern.now.atoms plan.now.off notes.new }
        ensures no_step_back { steps.old ≤ steps.new }
        ensures cost { (w most : ℕ) → edge_count self.now.pattern.now.edge_vars ≤ w → IsSparse (G.meaning self.now.graph.now) w elem most →
            steps.new ≤ steps.old + 16 * (most + 2) ^ (w + 1) }
        ensures few { (w most : ℕ) → edge_count self.now.pattern.now.edge_vars ≤ w → IsSparse (G.meaning self.now.graph.now) w elem most →
            IfOk result (λ tuples. length tuples ≤ (most + 2) ^ w) }
        ensures routes { is_tree self.now.pattern.now.atoms plan.now.steps ≡ true → steps.new ≤ steps.old
            + 80 * routed_from self.now.compiled.now (G.meaning self.now.graph.now) self.now.pattern.now (map read_var exprs.now) plan.now.steps var elem }
        ensures walks { is_tree self.now.pattern.now.atoms plan.now.steps ≡ true → (other : ℕ) → list_all (λ v. v == var || v == other) (map read_var exprs.now) ≡ true → steps.new ≤ steps.old
            + 160 * walked_from self.now.compiled.now (G.meaning self.now.graph.now) self.now.pattern.now plan.now.steps var elem }
        ensures once { is_tree self.now.pattern.now.atoms plan.now.steps ≡ true → (other : ℕ) → list_all (λ v. v == var || v == other) (map read_var exprs.now) ≡ true →
            (pairs : Items Stand) → Contains pairs (stand_at var elem) → IsClosed self.now.compiled.now (G.meaning self.now.graph.now) self.now.pattern.now.atoms pairs plan.now.steps →
            OnOk result (steps.new ≤ steps.old + 1400 * sum_by (λ (stand : Stand). elem_degree (G.meaning self.now.graph.now) stand.elem + 2) pairs) }
    {
        let atoms = self.pattern.atoms.as_slice();
        let all = plan.steps.as_slice();
        if !is_tree(atoms, all) {
            return self.tuples_by_all(alloc, exprs, all, var, elem, steps);
        }
        if is_by_nodes(plan, var, exprs) {
            self.tuples_by_nodes(alloc, exprs, plan, var, elem, notes, steps)
        } else {
            self.tuples_by_ways(alloc, exprs, plan, var, elem, steps)
        }
    }

    // The same by a search of all variables.
    fn tuples_by_all<L: Ledger>(
        &self,
        alloc: Global,
        exprs: &[Expr],
        plan: &[Step],
        var: u32,
        elem: Elem,
        steps: &mut Steps<L>,
    ) -> Result<TupleSet, Memory>
        requires valid { is_valid_pattern self.now.pattern.now ≡ true }
        requires names { list_all (names_types self.now.compiled.now) self.now.pattern.now.atoms ≡ true }
        requires in_range { var < length self.now.pattern.now.edge_vars }
        requires plan { is_plan self.now.pattern.now var plan.now ≡ true }
        requires few_exprs { length exprs.now ≤ 16 }
        ensures value { IfOk result (λ tuples. tuples ≡ option_map_or (λ bound. gathered self.now.compiled.now (G.meaning self.now.graph.now)
            self.now.pattern.now.atoms exprs.now plan.now (with_bound nothing_bound var bound) [])
            (admitted self.now.compiled.now (G.meaning self.now.graph.now) self.now.pattern.now var elem) []) }
        ensures graph { OnSome (admitted self.now.compiled.now (G.meaning self.now.graph.now) self.now.pattern.now var elem)
            (is_graph (G.meaning self.now.graph.now) ≡ true) }
        ensures no_step_back { steps.old ≤ steps.new }
        ensures cost { (w most : ℕ) → edge_count self.now.pattern.now.edge_vars ≤ w → IsSparse (G.meaning self.now.graph.now) w elem most →
            steps.new ≤ steps.old + 16 * (most + 2) ^ (w + 1) }
        ensures few { (w most : ℕ) → edge_count self.now.pattern.now.edge_vars ≤ w → IsSparse (G.meaning self.now.graph.now) w elem most →
            IfOk result (λ tuples. length tuples ≤ (most + 2) ^ w) }
    {
        let search = self.search();
        let mut tuples = TupleSet::new(alloc);
        match self.begin(&search, var, elem, steps) {
            Some(bound) => {
                let gathering = Gathering {
                    search,
                    exprs,
                    alloc,
                };
                gathering.gather(plan, &Bindings::alone(var, bound), &mut tuples, steps)?;
                Ok(tuples)
            }
            None => Ok(tuples),
        }
    }

    // The same along the way, where the plan has a step for each end of each edge place.
    fn tuples_by_ways<L: Ledger>(
        &self,
        alloc: Global,
        exprs: &[Expr],
        plan: &Plan,
        var: u32,
        elem: Elem,
        steps: &mut Steps<L>,
    ) -> Result<TupleSet, Memory>
        requires valid { is_valid_pattern self.now.pattern.now ≡ true }
        requires names { list_all (names_types self.now.compiled.now) self.now.pattern.now.atoms ≡ true }
        requires in_range { var < length self.now.pattern.now.edge_vars }
        requires plan { IsSplit (map read_var exprs.now) self.now.pattern.now var plan.now }
        requires few_exprs { length exprs.now ≤ 16 }
        requires reads { list_all (λ (expr : Expr). nat_lt (read_var expr) (length self.now.pattern.now.edge_vars)) exprs.now ≡ true }
        requires tree { is_tree self.now.pattern.now.atoms plan.now.steps ≡ true }
        ensures value { IfOk result (λ tuples. tuples ≡ option_map_or (λ bound. gathered self.now.compiled.now (G.meaning self.now.graph.now)
            self.now.pattern.now.atoms exprs.now plan.now.steps (with_bound nothing_bound var bound) [])
            (admitted self.now.compiled.now (G.meaning self.now.graph.now) self.now.pattern.now var elem) []) }
        ensures graph { OnSome (admitted self.now.compiled.now (G.meaning self.now.graph.now) self.now.pattern.now var elem)
            (is_graph (G.meaning self.now.graph.now) ≡ true) }
        ensures no_step_back { steps.old ≤ steps.new }
        ensures cost { (w most : ℕ) → edge_count self.now.pattern.now.edge_vars ≤ w → IsSparse (G.meaning self.now.graph.now) w elem most →
            steps.new ≤ steps.old + 16 * (most + 2) ^ (w + 1) }
        ensures few { (w most : ℕ) → edge_count self.now.pattern.now.edge_vars ≤ w → IsSparse (G.meaning self.now.graph.now) w elem most →
            IfOk result (λ tuples. length tuples ≤ (most + 2) ^ w) }
        ensures routes { steps.new ≤ steps.old
            + 80 * routed_from self.now.compiled.now (G.meaning self.now.graph.now) self.now.pattern.now (map read_var exprs.now) plan.now.steps var elem }
        ensures walks { (other : ℕ) → list_all (λ v. v == var || v == other) (map read_var exprs.now) ≡ true → steps.new ≤ steps.old
            + 160 * walked_from self.now.compiled.now (G.meaning self.now.graph.now) self.now.pattern.now plan.now.steps var elem }
        ensures short { (is_short plan.now.on && length plan.now.off == 0) ≡ true → leads_to_one var plan.now.on exprs.now ≡ true →
            steps.new ≤ steps.old + 440 * (elem_degree (G.meaning self.now.graph.now) elem + 2) }
    {
        let search = self.search();
        let mut tuples = TupleSet::new(alloc);
        let admitted = self.begin(&search, var, elem, steps);
        let nothing = Bindings::none();
        let gathering = Gathering {
            search,
            exprs,
            alloc,
        };
        let off = plan.off.as_slice();
        let way = Way { gathering, off };
        let on = plan.on.as_slice();
        let branch = Branch {
            var,
            plan: on,
            bindings: &nothing,
        };
        way.gather_with(admitted, &branch, &mut tuples, steps)?;
        Ok(tuples)
    }

    // The same along the way by nodes in order, where it leads to one variable.
    fn tuples_by_nodes<L: Ledger>(
        &self,
        alloc: Global,
        exprs: &[Expr],
        plan: &Plan,
        var: u32,
        elem: Elem,
        notes: &mut Notes,
        steps: &mut Steps<L>,
    ) -> Result<TupleSet, Memory>
        requires valid { is_valid_pattern self.now.pattern.now ≡ true }
        requires names { list_all (names_types self.now.compiled.now) self.now.pattern.now.atoms ≡ true }
        requires in_range { var < length self.now.pattern.now.edge_vars }
        requires plan { IsSplit (map read_var exprs.now) self.now.pattern.now var plan.now }
        requires few_exprs { length exprs.now ≤ 16 }
        requires reads { list_all (λ (expr : Expr). nat_lt (read_var expr) (length self.now.pattern.now.edge_vars)) exprs.now ≡ true }
        requires tree { is_tree self.now.pattern.now.atoms plan.now.steps ≡ true }
        requires one { leads_to_one var plan.now.on exprs.now ≡ true }
        requires right { AreNoted self.now.compiled.now (G.meaning self.now.graph.now) self.now.pattern.now.atoms plan.now.off notes.old }
        ensures value { IfOk result (λ tuples. tuples ≡ option_map_or (λ bound. gathered self.now.compiled.now (G.meaning self.now.graph.now)
            self.now.pattern.now.atoms exprs.now plan.now.steps (with_bound nothing_bound var bound) [])
            (admitted self.now.compiled.now (G.meaning self.now.graph.now) self.now.pattern.now var elem) []) }
        ensures graph { OnSome (admitted self.now.compiled.now (G.meaning self.now.graph.now) self.now.pattern.now var elem)
            (is_graph (G.meaning self.now.graph.now) ≡ true) }
        ensures right { AreNoted self.now.compiled.now (G.meaning self.now.graph.now) self.now.pattern.now.atoms plan.now.off notes.new }
        ensures no_step_back { steps.old ≤ steps.new }
        ensures cost { (w most : ℕ) → edge_count self.now.pattern.now.edge_vars ≤ w → IsSparse (G.meaning self.now.graph.now) w elem most →
            steps.new ≤ steps.old + 16 * (most + 2) ^ (w + 1) }
        ensures few { (w most : ℕ) → edge_count self.now.pattern.now.edge_vars ≤ w → IsSparse (G.meaning self.now.graph.now) w elem most →
            IfOk result (λ tuples. length tuples ≤ (most + 2) ^ w) }
        ensures routes { steps.new ≤ steps.old
            + 80 * routed_from self.now.compiled.now (G.meaning self.now.graph.now) self.now.pattern.now (map read_var exprs.now) plan.now.steps var elem }
        ensures walks { (other : ℕ) → list_all (λ v. v == var || v == other) (map read_var exprs.now) ≡ true → steps.new ≤ steps.old
            + 160 * walked_from self.now.compiled.now (G.meaning self.now.graph.now) self.now.pattern.now plan.now.steps var elem }
        ensures once { (pairs : Items Stand) → Contains pairs (stand_at var elem) → IsClosed self.now.compiled.now (G.meaning self.now.graph.now) self.now.pattern.now.atoms pairs plan.now.steps →
            OnOk result (steps.new ≤ steps.old + 1400 * sum_by (λ (stand : Stand). elem_degree (G.meaning self.now.graph.now) stand.elem + 2) pairs) }
    {
        let search = self.search();
        let admitted = self.begin(&search, var, elem, steps);
        let gathering = Gathering {
            search,
            exprs,
            alloc,
        };
        let off = plan.off.as_slice();
        let way = Way { gathering, off };
        let on = plan.on.as_slice();
        way.tuples_to_one(on, var, admitted, notes, steps)
    }
}
