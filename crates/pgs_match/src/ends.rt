//! The tuples that expressions give along a way to one variable, where at each variable on it the nodes that are come to are put in order,
//! each once.

ghost use Rattle.std.specs.Prelude.{◌≡◌, ◌+◌, ◌*◌, ◌<◌, ◌≤◌, ℕ, List as Items, true, [], length, nat_lt, IfOk, OnOk, Some, fold};
ghost use Rattle.std.specs.Option.{option_map_or};
ghost use Rattle.std.specs.List.{list_all, sum_by};
ghost use Rattle.pgs_syntax.specs.Valid.{names_types};
ghost use Rattle.pgs_match.specs.declared.bindings.Bound.{Bound};
ghost use Rattle.pgs_match.specs.declared.stand.Stand.{Stand};
ghost use Rattle.pgs_match.specs.Answers.{EndsIn, IsAmong, IsClosed};
ghost use Rattle.pgs_match.specs.Bounds.{with_bound, nothing_bound};
ghost use Rattle.pgs_match.specs.Branches.{asked_most};
ghost use Rattle.pgs_match.specs.Frontier.{hops_most, leads_to_one, unasked, AreNoted, IsPaidOn};
ghost use Rattle.pgs_match.specs.Plans.{bound_by};
ghost use Rattle.pgs_match.specs.Routes.{whole, routes, with_tuple, way_most};
ghost use Rattle.pgs_match.specs.Spread.{elem_degree};

use crate::frontier::Frontier;
use crate::notes::Notes;
use crate::paths::end_var;
use crate::remembering::Asking;
use crate::ways::Way;
use crate::{Bindings, Bound, Search, Step};
use pgs_base::{Memory, Steps, TupleSet};
use pgs_graph::GraphRead;
use std::sync::ledger::Ledger;

impl<'a, G: GraphRead> Way<'a, G> {
    // Adds the tuple of the expressions under bindings with a variable bound to each of some ends. After `Memory` some of them may be there.
    fn gather_ends<L: Ledger>(
        &self,
        var: u32,
        bindings: &Bindings,
        ends: &[Bound],
        tuples: &mut TupleSet,
        steps: &mut Steps<L>,
    ) -> Result<(), Memory>
        ensures ok { OnOk result (tuples.new ≡ fold (λ so_far end. with_tuple (G.meaning self.now.gathering.search.graph.now) self.now.gathering.exprs.now so_far
            (with_bound bindings.now var end)) tuples.old ends.now) }
        ensures no_step_back { steps.old ≤ steps.new }
        ensures cost { steps.new ≤ steps.old + length self.now.gathering.exprs.now * length ends.now }
    {
        for end in ends {
            self.gather_one(&bindings.with(var, *end), tuples, steps)?;
        }
        Ok(())
    }

    // The tuples from what a variable is bound to.
    fn tuples_from<L: Ledger>(
        &self,
        on: &[Step],
        var: u32,
        bound: Bound,
        notes: &mut Notes,
        steps: &mut Steps<L>,
    ) -> Result<TupleSet, Memory>
        requires names { list_all (names_types self.now.gathering.search.compiled.now) self.now.gathering.search.atoms.now ≡ true }
        requires place { EndsIn self.now.off.now self.now.off.now }
        requires right { AreNoted self.now.gathering.search.compiled.now (G.meaning self.now.gathering.search.graph.now) self.now.gathering.search.atoms.now self.now.off.now notes.old }
        requires variable { var < 20 }
        requires in_range { list_all (λ step. nat_lt (bound_by step) 20) on.now ≡ true }
        requires one { leads_to_one var on.now self.now.gathering.exprs.now ≡ true }
        ensures ok { IfOk result (λ tuples. tuples ≡ fold (with_tuple (G.meaning self.now.gathering.search.graph.now) self.now.gathering.exprs.now) []
            (option_map_or (λ bound. routes self.now.gathering.search.compiled.now (G.meaning self.now.gathering.search.graph.now)
            self.now.gathering.search.atoms.now self.now.off.now on.now (with_bound nothing_bound var bound))
            (whole self.now.gathering.search.compiled.now (G.meaning self.now.gathering.search.graph.now) self.now.gathering.search.atoms.now self.now.off.now var (Some bound)) [])) }
        ensures right { AreNoted self.now.gathering.search.compiled.now (G.meaning self.now.gathering.search.graph.now) self.now.gathering.search.atoms.now self.now.off.now notes.new }
        ensures no_step_back { steps.old ≤ steps.new }
        ensures cost { steps.new ≤ steps.old + (asked_most self.now.gathering.search.compiled.now (G.meaning self.now.gathering.search.graph.now) self.now.gathering.search.atoms.now
            self.now.off.now var bound + way_most self.now.gathering.search.compiled.now (G.meaning self.now.gathering.search.graph.now)
            self.now.gathering.search.atoms.now self.now.off.now (length self.now.gathering.exprs.now) on.now (with_bound nothing_bound var bound)) }
        ensures once { (pairs : Items Stand) → length self.now.off.now ≤ 19 → length self.now.gathering.exprs.now ≤ 16 → IsAmong (G.meaning self.now.gathering.search.graph.now) pairs var bound →
            IsClosed self.now.gathering.search.compiled.now (G.meaning self.now.gathering.search.graph.now) self.now.gathering.search.atoms.now pairs on.now →
            IsClosed self.now.gathering.search.compiled.now (G.meaning self.now.gathering.search.graph.now) self.now.gathering.search.atoms.now pairs self.now.off.now →
            OnOk result (IsPaidOn (G.meaning self.now.gathering.search.graph.now) pairs notes.old notes.new steps.old steps.new
            (456 * sum_by (λ (stand : Stand). elem_degree (G.meaning self.now.gathering.search.graph.now) stand.elem + 2) pairs
            + hops_most (G.meaning self.now.gathering.search.graph.now) (length self.now.off.now) on.now pairs)) }
    {
        let search = &self.gathering.search;
        let frontier = Frontier {
            asking: Asking {
                search: Search {
                    graph: search.graph,
                    compiled: search.compiled,
                    atoms: search.atoms,
                },
                whole: self.off,
            },
            alloc: self.gathering.alloc,
        };
        if !frontier
            .asking
            .given(self.off, var, bound, &mut notes.off, steps)
        {
            return Ok(TupleSet::new(self.gathering.alloc));
        }
        let ends = frontier.lead_from(on, bound, notes, steps)?;
        let mut tuples = TupleSet::new(self.gathering.alloc);
        let bindings = Bindings::alone(var, bound);
        let last = end_var(var, on);
        self.gather_ends(last, &bindings, ends.as_slice(), &mut tuples, steps)?;
        Ok(tuples)
    }

    /// The tuples of the expressions under the routes from what was admitted at a variable, where the way leads to one other. `Memory` also
    /// where some answer wasn't noted for want of it; what was noted is right then too.
    pub(crate) fn tuples_to_one<L: Ledger>(
        &self,
        on: &[Step],
        var: u32,
        admitted: Option<Bound>,
        notes: &mut Notes,
        steps: &mut Steps<L>,
    ) -> Result<TupleSet, Memory>
        requires names { list_all (names_types self.now.gathering.search.compiled.now) self.now.gathering.search.atoms.now ≡ true }
        requires place { EndsIn self.now.off.now self.now.off.now }
        requires right { AreNoted self.now.gathering.search.compiled.now (G.meaning self.now.gathering.search.graph.now) self.now.gathering.search.atoms.now self.now.off.now notes.old }
        requires variable { var < 20 }
        requires in_range { list_all (λ step. nat_lt (bound_by step) 20) on.now ≡ true }
        requires one { leads_to_one var on.now self.now.gathering.exprs.now ≡ true }
        ensures ok { IfOk result (λ tuples. tuples ≡ fold (with_tuple (G.meaning self.now.gathering.search.graph.now) self.now.gathering.exprs.now) []
            (option_map_or (λ bound. routes self.now.gathering.search.compiled.now (G.meaning self.now.gathering.search.graph.now)
            self.now.gathering.search.atoms.now self.now.off.now on.now (with_bound nothing_bound var bound))
            (whole self.now.gathering.search.compiled.now (G.meaning self.now.gathering.search.graph.now) self.now.gathering.search.atoms.now self.now.off.now var admitted) [])) }
        ensures right { AreNoted self.now.gathering.search.compiled.now (G.meaning self.now.gathering.search.graph.now) self.now.gathering.search.atoms.now self.now.off.now notes.new }
        ensures no_step_back { steps.old ≤ steps.new }
        ensures cost { steps.new ≤ steps.old + option_map_or
            (λ bound. asked_most self.now.gathering.search.compiled.now (G.meaning self.now.gathering.search.graph.now) self.now.gathering.search.atoms.now
            self.now.off.now var bound + way_most self.now.gathering.search.compiled.now (G.meaning self.now.gathering.search.graph.now)
            self.now.gathering.search.atoms.now self.now.off.now (length self.now.gathering.exprs.now) on.now (with_bound nothing_bound var bound))
            admitted 0 }
        ensures once { (pairs : Items Stand) → length self.now.off.now ≤ 19 → length self.now.gathering.exprs.now ≤ 16 →
            ((bound : Bound) → admitted ≡ Some bound → IsAmong (G.meaning self.now.gathering.search.graph.now) pairs var bound) →
            IsClosed self.now.gathering.search.compiled.now (G.meaning self.now.gathering.search.graph.now) self.now.gathering.search.atoms.now pairs on.now →
            IsClosed self.now.gathering.search.compiled.now (G.meaning self.now.gathering.search.graph.now) self.now.gathering.search.atoms.now pairs self.now.off.now →
            OnOk result (steps.new + 440 * unasked (G.meaning self.now.gathering.search.graph.now) notes.new pairs
            ≤ steps.old + 440 * unasked (G.meaning self.now.gathering.search.graph.now) notes.old pairs
            + (456 * sum_by (λ (stand : Stand). elem_degree (G.meaning self.now.gathering.search.graph.now) stand.elem + 2) pairs
            + hops_most (G.meaning self.now.gathering.search.graph.now) (length self.now.off.now) on.now pairs)) }
    {
        match admitted {
            Some(bound) => {
                let tuples = self.tuples_from(on, var, bound, notes, steps)?;
                let on_full = notes.on.is_full;
                if on_full {
                    return Err(Memory);
                }
                let off_full = notes.off.is_full;
                if off_full {
                    return Err(Memory);
                }
                Ok(tuples)
            }
            None => Ok(TupleSet::new(self.gathering.alloc)),
        }
    }
}
