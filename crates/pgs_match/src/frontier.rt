//! To what a way to one variable leads, where at each variable on it the nodes that are come to are put in order, each once, before one goes
//! on from them.

ghost use Rattle.std.specs.Prelude.{◌≡◌, ◌+◌, ◌≤◌, ◌++◌, ℕ, List as Items, true, [], ◌∷◌, length, IfOk, OnOk};
ghost use Rattle.std.specs.List.{Contains, list_all, flat_map, sum_by};
ghost use Rattle.pgs_base.specs.declared.element.NodeId.{NodeId};
ghost use Rattle.pgs_base.specs.declared.element.Elem.{Elem};
ghost use Rattle.pgs_syntax.specs.Valid.{names_types};
ghost use Rattle.pgs_match.specs.declared.bindings.Bound.{Bound};
ghost use Rattle.pgs_match.specs.declared.stand.Stand.{Stand};
ghost use Rattle.pgs_match.specs.declared.step.Step.{Step};
ghost use Rattle.pgs_match.specs.Answers.{EndsIn, HasAhead, IsAmong, IsClosed};
ghost use Rattle.pgs_match.specs.Frontier.{kept_bounds, led_on, on_most, hop_steps, hop_bounds, at_nodes, hop_most, hops_most, is_path, AreAllOf, AreApart, AreNoted, HasWay, IsPaidOn, StayFull};
ghost use Rattle.pgs_match.specs.Spread.{stand_at, elem_degree};

use crate::branches::head;
use crate::completion::end_of;
use crate::notes::{Hop, Notes};
use crate::ordered::nodes_in_order;
use crate::reads::edge_along;
use crate::remembering::Asking;
use crate::{Bound, Step};
use pgs_base::{List, Memory, NodeId, Steps};
use pgs_graph::GraphRead;
use std::alloc::Global;
use std::sync::ledger::Ledger;

/// A search along a way, with the steps off it.
pub(crate) struct Frontier<'a, G: GraphRead> {
    pub(crate) asking: Asking<'a, G>,
    pub(crate) alloc: Global,
}

impl<'a, G: GraphRead> Drop for Frontier<'a, G> {
    fn drop(self) {
        let Frontier {
            asking: _,
            alloc: _,
        } = self;
    }
}

impl<'a, G: GraphRead> Frontier<'a, G> {
    // The nodes behind some nodes, each once.
    fn all_behind<L: Ledger>(
        &self,
        hop: Hop,
        here: &[NodeId],
        notes: &mut Notes,
        steps: &mut Steps<L>,
    ) -> Result<List<NodeId>, Memory>
        requires names { list_all (names_types self.now.asking.search.compiled.now) self.now.asking.search.atoms.now ≡ true }
        requires place { EndsIn self.now.asking.whole.now self.now.asking.whole.now }
        requires right { AreNoted self.now.asking.search.compiled.now (G.meaning self.now.asking.search.graph.now) self.now.asking.search.atoms.now self.now.asking.whole.now notes.old }
        ensures all { IfOk result (λ ids. AreAllOf (flat_map (hop_bounds self.now.asking.search.compiled.now (G.meaning self.now.asking.search.graph.now) self.now.asking.search.atoms.now self.now.asking.whole.now hop) here.now) (at_nodes ids)) }
        ensures apart { IfOk result AreApart }
        ensures right { AreNoted self.now.asking.search.compiled.now (G.meaning self.now.asking.search.graph.now) self.now.asking.search.atoms.now self.now.asking.whole.now notes.new }
        ensures full { StayFull notes.old notes.new }
        ensures no_step_back { steps.old ≤ steps.new }
        ensures cost { steps.new ≤ steps.old + sum_by (λ from. on_most self.now.asking.search.compiled.now (G.meaning self.now.asking.search.graph.now) self.now.asking.search.atoms.now self.now.asking.whole.now 0 (hop_steps hop) (Bound.Node from)) here.now }
        ensures once { (var : ℕ) (pairs : Items Stand) → length self.now.asking.whole.now ≤ 19 → IsClosed self.now.asking.search.compiled.now (G.meaning self.now.asking.search.graph.now) self.now.asking.search.atoms.now pairs self.now.asking.whole.now →
            ((id : NodeId) → Contains here.now id → Contains pairs (stand_at var (Elem.Node id))) →
            HasAhead self.now.asking.search.compiled.now (G.meaning self.now.asking.search.graph.now) self.now.asking.search.atoms.now pairs (Step.Along hop.edge var hop.forward) → HasAhead self.now.asking.search.compiled.now (G.meaning self.now.asking.search.graph.now) self.now.asking.search.atoms.now pairs (Step.End hop.edge hop.node hop.source) →
            OnOk result (IsPaidOn (G.meaning self.now.asking.search.graph.now) pairs notes.old notes.new steps.old steps.new
            (sum_by (λ id. hop_most (G.meaning self.now.asking.search.graph.now) (length self.now.asking.whole.now) (stand_at var (Elem.Node id))) here.now)) }
    {
        let mut ends = Vec::new(self.alloc);
        for from in here {
            self.add_behind(hop, *from, &mut ends, notes, steps)?;
        }
        Ok(nodes_in_order(ends))
    }

    // Adds the edges of a node that are on the way.
    fn add_edges_kept<L: Ledger>(
        &self,
        var: u32,
        forward: bool,
        from: NodeId,
        ends: &mut Vec<Bound>,
        notes: &mut Notes,
        steps: &mut Steps<L>,
    ) -> Result<(), Memory>
        requires names { list_all (names_types self.now.asking.search.compiled.now) self.now.asking.search.atoms.now ≡ true }
        requires place { EndsIn self.now.asking.whole.now self.now.asking.whole.now }
        requires right { AreNoted self.now.asking.search.compiled.now (G.meaning self.now.asking.search.graph.now) self.now.asking.search.atoms.now self.now.asking.whole.now notes.old }
        ensures added { OnOk result (ends.new.items ≡ ends.old.items ++ kept_bounds self.now.asking.search.compiled.now (G.meaning self.now.asking.search.graph.now) self.now.asking.search.atoms.now self.now.asking.whole.now (Step.Along var 0 forward) (Bound.Node from)) }
        ensures right { AreNoted self.now.asking.search.compiled.now (G.meaning self.now.asking.search.graph.now) self.now.asking.search.atoms.now self.now.asking.whole.now notes.new }
        ensures full { StayFull notes.old notes.new }
        ensures no_step_back { steps.old ≤ steps.new }
        ensures cost { steps.new ≤ steps.old + on_most self.now.asking.search.compiled.now (G.meaning self.now.asking.search.graph.now) self.now.asking.search.atoms.now self.now.asking.whole.now 0 (Step.Along var 0 forward ∷ []) (Bound.Node from) }
        ensures once { (node : ℕ) (pairs : Items Stand) → length self.now.asking.whole.now ≤ 19 → IsClosed self.now.asking.search.compiled.now (G.meaning self.now.asking.search.graph.now) self.now.asking.search.atoms.now pairs self.now.asking.whole.now →
            Contains pairs (stand_at node (Elem.Node from)) → HasAhead self.now.asking.search.compiled.now (G.meaning self.now.asking.search.graph.now) self.now.asking.search.atoms.now pairs (Step.Along var node forward) →
            OnOk result (IsPaidOn (G.meaning self.now.asking.search.graph.now) pairs notes.old notes.new steps.old steps.new (hop_most (G.meaning self.now.asking.search.graph.now) (length self.now.asking.whole.now) (stand_at node (Elem.Node from)))) }
    {
        for nth in 0..self.asking.search.graph.count() as usize {
            match edge_along(self.asking.search.graph, from, forward, nth, steps) {
                Some(id) => {
                    if let Some(edge) = self.edge_kept(var, id, notes, steps) {
                        ends.push(edge)?;
                    }
                }
                None => break,
            }
        }
        Ok(())
    }

    // The edges of some nodes that are on the way.
    fn edges_kept<L: Ledger>(
        &self,
        var: u32,
        forward: bool,
        here: &[NodeId],
        notes: &mut Notes,
        steps: &mut Steps<L>,
    ) -> Result<Vec<Bound>, Memory>
        requires names { list_all (names_types self.now.asking.search.compiled.now) self.now.asking.search.atoms.now ≡ true }
        requires place { EndsIn self.now.asking.whole.now self.now.asking.whole.now }
        requires right { AreNoted self.now.asking.search.compiled.now (G.meaning self.now.asking.search.graph.now) self.now.asking.search.atoms.now self.now.asking.whole.now notes.old }
        ensures all { IfOk result (λ ends. ends.items ≡ flat_map (kept_bounds self.now.asking.search.compiled.now (G.meaning self.now.asking.search.graph.now) self.now.asking.search.atoms.now self.now.asking.whole.now (Step.Along var 0 forward)) (at_nodes here.now)) }
        ensures right { AreNoted self.now.asking.search.compiled.now (G.meaning self.now.asking.search.graph.now) self.now.asking.search.atoms.now self.now.asking.whole.now notes.new }
        ensures full { StayFull notes.old notes.new }
        ensures no_step_back { steps.old ≤ steps.new }
        ensures cost { steps.new ≤ steps.old + sum_by (on_most self.now.asking.search.compiled.now (G.meaning self.now.asking.search.graph.now) self.now.asking.search.atoms.now self.now.asking.whole.now 0 (Step.Along var 0 forward ∷ [])) (at_nodes here.now) }
        ensures once { (node : ℕ) (pairs : Items Stand) → length self.now.asking.whole.now ≤ 19 → IsClosed self.now.asking.search.compiled.now (G.meaning self.now.asking.search.graph.now) self.now.asking.search.atoms.now pairs self.now.asking.whole.now →
            ((id : NodeId) → Contains here.now id → Contains pairs (stand_at node (Elem.Node id))) → HasAhead self.now.asking.search.compiled.now (G.meaning self.now.asking.search.graph.now) self.now.asking.search.atoms.now pairs (Step.Along var node forward) →
            OnOk result (IsPaidOn (G.meaning self.now.asking.search.graph.now) pairs notes.old notes.new steps.old steps.new
            (sum_by (λ id. hop_most (G.meaning self.now.asking.search.graph.now) (length self.now.asking.whole.now) (stand_at node (Elem.Node id))) here.now)) }
    {
        let mut ends = Vec::new(self.alloc);
        for from in here {
            self.add_edges_kept(var, forward, *from, &mut ends, notes, steps)?;
        }
        Ok(ends)
    }

    /// To what the steps of a way lead from nodes.
    #[cycle(leading)]
    pub(crate) fn lead_on<L: Ledger>(
        &self,
        ways: &[Step],
        here: &[NodeId],
        notes: &mut Notes,
        steps: &mut Steps<L>,
    ) -> Result<Vec<Bound>, Memory>
        requires names { list_all (names_types self.now.asking.search.compiled.now) self.now.asking.search.atoms.now ≡ true }
        requires place { EndsIn self.now.asking.whole.now self.now.asking.whole.now }
        requires right { AreNoted self.now.asking.search.compiled.now (G.meaning self.now.asking.search.graph.now) self.now.asking.search.atoms.now self.now.asking.whole.now notes.old }
        ensures all { IfOk result (λ ends. AreAllOf (flat_map (led_on self.now.asking.search.compiled.now (G.meaning self.now.asking.search.graph.now) self.now.asking.search.atoms.now self.now.asking.whole.now ways.now) (at_nodes here.now)) ends.items) }
        ensures right { AreNoted self.now.asking.search.compiled.now (G.meaning self.now.asking.search.graph.now) self.now.asking.search.atoms.now self.now.asking.whole.now notes.new }
        ensures full { StayFull notes.old notes.new }
        ensures no_step_back { steps.old ≤ steps.new }
        ensures cost { steps.new ≤ steps.old + sum_by (on_most self.now.asking.search.compiled.now (G.meaning self.now.asking.search.graph.now) self.now.asking.search.atoms.now self.now.asking.whole.now 0 ways.now) (at_nodes here.now) }
        ensures once { (var : ℕ) (pairs : Items Stand) → length self.now.asking.whole.now ≤ 19 → is_path var ways.now ≡ true → AreApart here.now →
            HasWay self.now.asking.search.compiled.now (G.meaning self.now.asking.search.graph.now) self.now.asking.search.atoms.now self.now.asking.whole.now ways.now var here.now pairs →
            OnOk result (IsPaidOn (G.meaning self.now.asking.search.graph.now) pairs notes.old notes.new steps.old steps.new (hops_most (G.meaning self.now.asking.search.graph.now) (length self.now.asking.whole.now) ways.now pairs)) }
        ensures few { (var : ℕ) (pairs : Items Stand) → is_path var ways.now ≡ true → AreApart here.now →
            HasWay self.now.asking.search.compiled.now (G.meaning self.now.asking.search.graph.now) self.now.asking.search.atoms.now self.now.asking.whole.now ways.now var here.now pairs →
            IfOk result (λ ends. length ends.items ≤ sum_by (λ (stand : Stand). elem_degree (G.meaning self.now.asking.search.graph.now) stand.elem + 2) pairs) }
    {
        match head(ways) {
            None => nodes_bound(self.alloc, here),
            Some((Step::End { .. }, _)) => Ok(Vec::new(self.alloc)),
            Some((Step::Along { edge, forward, .. }, rest)) => match head(rest) {
                None => self.edges_kept(edge, forward, here, notes, steps),
                Some((Step::Along { .. }, _)) => Ok(Vec::new(self.alloc)),
                Some((Step::End { node, source, .. }, rest)) => {
                    let hop = Hop {
                        edge,
                        forward,
                        node,
                        source,
                    };
                    let next = self.all_behind(hop, here, notes, steps)?;
                    self.lead_on(rest, next.as_slice(), notes, steps)
                }
            },
        }
    }

    /// To what the steps of a way lead from what its first variable is bound to.
    pub(crate) fn lead_from<L: Ledger>(
        &self,
        ways: &[Step],
        bound: Bound,
        notes: &mut Notes,
        steps: &mut Steps<L>,
    ) -> Result<Vec<Bound>, Memory>
        requires names { list_all (names_types self.now.asking.search.compiled.now) self.now.asking.search.atoms.now ≡ true }
        requires place { EndsIn self.now.asking.whole.now self.now.asking.whole.now }
        requires right { AreNoted self.now.asking.search.compiled.now (G.meaning self.now.asking.search.graph.now) self.now.asking.search.atoms.now self.now.asking.whole.now notes.old }
        ensures all { IfOk result (λ ends. AreAllOf (led_on self.now.asking.search.compiled.now (G.meaning self.now.asking.search.graph.now) self.now.asking.search.atoms.now self.now.asking.whole.now ways.now bound) ends.items) }
        ensures right { AreNoted self.now.asking.search.compiled.now (G.meaning self.now.asking.search.graph.now) self.now.asking.search.atoms.now self.now.asking.whole.now notes.new }
        ensures full { StayFull notes.old notes.new }
        ensures no_step_back { steps.old ≤ steps.new }
        ensures cost { steps.new ≤ steps.old + on_most self.now.asking.search.compiled.now (G.meaning self.now.asking.search.graph.now) self.now.asking.search.atoms.now self.now.asking.whole.now 0 ways.now bound }
        ensures once { (var : ℕ) (pairs : Items Stand) → length self.now.asking.whole.now ≤ 19 → is_path var ways.now ≡ true → IsAmong (G.meaning self.now.asking.search.graph.now) pairs var bound →
            IsClosed self.now.asking.search.compiled.now (G.meaning self.now.asking.search.graph.now) self.now.asking.search.atoms.now pairs ways.now → IsClosed self.now.asking.search.compiled.now (G.meaning self.now.asking.search.graph.now) self.now.asking.search.atoms.now pairs self.now.asking.whole.now →
            OnOk result (IsPaidOn (G.meaning self.now.asking.search.graph.now) pairs notes.old notes.new steps.old steps.new (1 + hops_most (G.meaning self.now.asking.search.graph.now) (length self.now.asking.whole.now) ways.now pairs)) }
        ensures few { (var : ℕ) (pairs : Items Stand) → is_path var ways.now ≡ true → IsAmong (G.meaning self.now.asking.search.graph.now) pairs var bound →
            IsClosed self.now.asking.search.compiled.now (G.meaning self.now.asking.search.graph.now) self.now.asking.search.atoms.now pairs ways.now → IsClosed self.now.asking.search.compiled.now (G.meaning self.now.asking.search.graph.now) self.now.asking.search.atoms.now pairs self.now.asking.whole.now →
            IfOk result (λ ends. length ends.items ≤ sum_by (λ (stand : Stand). elem_degree (G.meaning self.now.asking.search.graph.now) stand.elem + 2) pairs) }
    {
        match bound {
            Bound::Node(id) => self.lead_on(ways, &[id], notes, steps),
            Bound::Edge { .. } => match head(ways) {
                None => {
                    let mut ends = Vec::new(self.alloc);
                    ends.push(bound)?;
                    Ok(ends)
                }
                Some((Step::Along { .. }, _)) => Ok(Vec::new(self.alloc)),
                Some((Step::End { node, source, .. }, rest)) => match end_of(Some(bound), source) {
                    Some(id) if self.is_kept(node, id, notes, steps) => self.lead_on(
                        rest,
                        &[id],
                        notes,
                        steps,
                    ),
                    _ => Ok(Vec::new(self.alloc)),
                },
            },
        }
    }
}

// Nodes as bounds.
fn nodes_bound(alloc: Global, ids: &[NodeId]) -> Result<Vec<Bound>, Memory>
    ensures { IfOk result (λ bounds. bounds.items ≡ at_nodes ids.now) }
{
    let mut bounds = Vec::with_capacity(alloc, ids.len())?;
    for id in ids {
        bounds.push(Bound::Node(*id))?;
    }
    Ok(bounds)
}
