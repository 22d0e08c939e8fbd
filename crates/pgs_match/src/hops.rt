//! What a search along a way asks of one node: whether it stays on the way, and the nodes behind it. What was noted is not asked again.

ghost use Rattle.std.specs.Prelude.{◌≡◌, ◌+◌, ◌≤◌, ◌++◌, ℕ, List as Items, true, [], ◌∷◌, length, Some, is_some, IfOk, OnOk, option_and_then};
ghost use Rattle.std.specs.Option.{option_map_or};
ghost use Rattle.std.specs.List.{Contains, list_all};
ghost use Rattle.pgs_base.specs.declared.element.NodeId.{NodeId};
ghost use Rattle.pgs_base.specs.declared.element.Elem.{Elem};
ghost use Rattle.pgs_syntax.specs.Valid.{names_types};
ghost use Rattle.pgs_match.specs.declared.bindings.Bound.{Bound};
ghost use Rattle.pgs_match.specs.declared.stand.Stand.{Stand};
ghost use Rattle.pgs_match.specs.declared.step.Step.{Step};
ghost use Rattle.pgs_match.specs.Answers.{EndsIn, is_given, HasAhead, IsAmong, IsClosed};
ghost use Rattle.pgs_match.specs.Bounds.{end_at};
ghost use Rattle.pgs_match.specs.Branches.{asked_most};
ghost use Rattle.pgs_match.specs.Frontier.{kept_bounds, on_most, hop_steps, hop_bounds, at_nodes, hop_most, AreAllOf, AreNoted, IsPaidOn, StayFull};
ghost use Rattle.pgs_match.specs.Routes.{whole};
ghost use Rattle.pgs_match.specs.Spread.{stand_at};
ghost use Rattle.pgs_match.specs.Tests.{admitted_node, admitted_edge};

use crate::Bound;
use crate::completion::end_of;
use crate::frontier::Frontier;
use crate::notes::{Hop, Notes};
use crate::ordered::nodes_in_order;
use crate::plan::is_left;
use crate::reads::edge_along;
use pgs_base::{EdgeId, List, Memory, NodeId, Steps};
use pgs_graph::GraphRead;
use std::sync::ledger::Ledger;

// Up to how many edges of a node are gone over again rather than noted.
const FEW_EDGES: usize = 8;

impl<'a, G: GraphRead> Frontier<'a, G> {
    /// Whether a node is admitted at a variable on the way and can be given all that hangs there off the way. What is found is noted,
    /// but where nothing hangs there.
    pub(crate) fn is_kept<L: Ledger>(
        &self,
        var: u32,
        id: NodeId,
        notes: &mut Notes,
        steps: &mut Steps<L>,
    ) -> bool
        requires names { list_all (names_types self.now.asking.search.compiled.now) self.now.asking.search.atoms.now ≡ true }
        requires place { EndsIn self.now.asking.whole.now self.now.asking.whole.now }
        requires right { AreNoted self.now.asking.search.compiled.now (G.meaning self.now.asking.search.graph.now) self.now.asking.search.atoms.now self.now.asking.whole.now notes.old }
        ensures found { result ≡ is_given self.now.asking.search.compiled.now (G.meaning self.now.asking.search.graph.now) self.now.asking.search.atoms.now self.now.asking.whole.now var id }
        ensures right { AreNoted self.now.asking.search.compiled.now (G.meaning self.now.asking.search.graph.now) self.now.asking.search.atoms.now self.now.asking.whole.now notes.new }
        ensures full { StayFull notes.old notes.new }
        ensures no_step_back { steps.old ≤ steps.new }
        ensures cost { steps.new ≤ steps.old + (1 + option_map_or (asked_most self.now.asking.search.compiled.now (G.meaning self.now.asking.search.graph.now) self.now.asking.search.atoms.now self.now.asking.whole.now var) (admitted_node self.now.asking.search.compiled.now (G.meaning self.now.asking.search.graph.now) self.now.asking.search.atoms.now var id) 0) }
        ensures once { (pairs : Items Stand) → length self.now.asking.whole.now ≤ 19 → IsClosed self.now.asking.search.compiled.now (G.meaning self.now.asking.search.graph.now) self.now.asking.search.atoms.now pairs self.now.asking.whole.now →
            (is_some (admitted_node self.now.asking.search.compiled.now (G.meaning self.now.asking.search.graph.now) self.now.asking.search.atoms.now var id) ≡ true → Contains pairs (stand_at var (Elem.Node id))) →
            IsPaidOn (G.meaning self.now.asking.search.graph.now) pairs notes.old notes.new steps.old steps.new 1 }
    {
        if !is_left(self.asking.whole, var) {
            return self.asking.search.admit_node(var, id, steps).is_some();
        }
        match notes.on.of(var, id) {
            Some(answer) => answer,
            None => {
                let answer = match self.asking.search.admit_node(var, id, steps) {
                    Some(bound) => self
                        .asking
                        .given(self.asking.whole, var, bound, &mut notes.off, steps),
                    None => false,
                };
                notes.on.note(var, id, answer);
                answer
            }
        }
    }

    /// To what an edge binds its variable on the way, if it is admitted there and can be given all that hangs there off the way.
    pub(crate) fn edge_kept<L: Ledger>(
        &self,
        var: u32,
        id: EdgeId,
        notes: &mut Notes,
        steps: &mut Steps<L>,
    ) -> Option<Bound>
        requires names { list_all (names_types self.now.asking.search.compiled.now) self.now.asking.search.atoms.now ≡ true }
        requires place { EndsIn self.now.asking.whole.now self.now.asking.whole.now }
        requires right { AreNoted self.now.asking.search.compiled.now (G.meaning self.now.asking.search.graph.now) self.now.asking.search.atoms.now self.now.asking.whole.now notes.old }
        ensures value { result ≡ whole self.now.asking.search.compiled.now (G.meaning self.now.asking.search.graph.now) self.now.asking.search.atoms.now self.now.asking.whole.now var (admitted_edge self.now.asking.search.compiled.now (G.meaning self.now.asking.search.graph.now) self.now.asking.search.atoms.now var id) }
        ensures right { AreNoted self.now.asking.search.compiled.now (G.meaning self.now.asking.search.graph.now) self.now.asking.search.atoms.now self.now.asking.whole.now notes.new }
        ensures full { StayFull notes.old notes.new }
        ensures no_step_back { steps.old ≤ steps.new }
        ensures cost { steps.new ≤ steps.old + (3 + option_map_or (asked_most self.now.asking.search.compiled.now (G.meaning self.now.asking.search.graph.now) self.now.asking.search.atoms.now self.now.asking.whole.now var) (admitted_edge self.now.asking.search.compiled.now (G.meaning self.now.asking.search.graph.now) self.now.asking.search.atoms.now var id) 0) }
        ensures once { (pairs : Items Stand) → length self.now.asking.whole.now ≤ 19 → IsClosed self.now.asking.search.compiled.now (G.meaning self.now.asking.search.graph.now) self.now.asking.search.atoms.now pairs self.now.asking.whole.now →
            (is_some (admitted_edge self.now.asking.search.compiled.now (G.meaning self.now.asking.search.graph.now) self.now.asking.search.atoms.now var id) ≡ true → Contains pairs (stand_at var (Elem.Edge id))) →
            IsPaidOn (G.meaning self.now.asking.search.graph.now) pairs notes.old notes.new steps.old steps.new (3 + length self.now.asking.whole.now) }
    {
        let bound = self.asking.search.admit_edge(var, id, steps)?;
        if self
            .asking
            .given(self.asking.whole, var, bound, &mut notes.off, steps)
        {
            Some(bound)
        } else {
            None
        }
    }

    /// Adds the node to which an edge leads that is on the way, if it is too.
    pub(crate) fn add_end_kept<L: Ledger>(
        &self,
        hop: Hop,
        edge: Bound,
        ends: &mut Vec<NodeId>,
        notes: &mut Notes,
        steps: &mut Steps<L>,
    ) -> Result<(), Memory>
        requires names { list_all (names_types self.now.asking.search.compiled.now) self.now.asking.search.atoms.now ≡ true }
        requires place { EndsIn self.now.asking.whole.now self.now.asking.whole.now }
        requires right { AreNoted self.now.asking.search.compiled.now (G.meaning self.now.asking.search.graph.now) self.now.asking.search.atoms.now self.now.asking.whole.now notes.old }
        ensures added { OnOk result (at_nodes ends.new.items ≡ at_nodes ends.old.items
            ++ kept_bounds self.now.asking.search.compiled.now (G.meaning self.now.asking.search.graph.now) self.now.asking.search.atoms.now self.now.asking.whole.now (Step.End hop.edge hop.node hop.source) edge) }
        ensures right { AreNoted self.now.asking.search.compiled.now (G.meaning self.now.asking.search.graph.now) self.now.asking.search.atoms.now self.now.asking.whole.now notes.new }
        ensures full { StayFull notes.old notes.new }
        ensures no_step_back { steps.old ≤ steps.new }
        ensures cost { steps.new ≤ steps.old + (1 + option_map_or (asked_most self.now.asking.search.compiled.now (G.meaning self.now.asking.search.graph.now) self.now.asking.search.atoms.now self.now.asking.whole.now hop.node)
            (option_and_then (admitted_node self.now.asking.search.compiled.now (G.meaning self.now.asking.search.graph.now) self.now.asking.search.atoms.now hop.node) (end_at hop.source (Some edge))) 0) }
        ensures once { (pairs : Items Stand) → length self.now.asking.whole.now ≤ 19 → IsClosed self.now.asking.search.compiled.now (G.meaning self.now.asking.search.graph.now) self.now.asking.search.atoms.now pairs self.now.asking.whole.now →
            HasAhead self.now.asking.search.compiled.now (G.meaning self.now.asking.search.graph.now) self.now.asking.search.atoms.now pairs (Step.End hop.edge hop.node hop.source) → IsAmong (G.meaning self.now.asking.search.graph.now) pairs hop.edge edge →
            OnOk result (IsPaidOn (G.meaning self.now.asking.search.graph.now) pairs notes.old notes.new steps.old steps.new 1) }
    {
        match end_of(Some(edge), hop.source) {
            Some(id) => {
                if self.is_kept(hop.node, id, notes, steps) {
                    ends.push(id)?;
                }
                Ok(())
            }
            None => Ok(()),
        }
    }

    // The nodes behind a node, each once, and how many edges were gone over.
    fn behind<L: Ledger>(
        &self,
        hop: Hop,
        from: NodeId,
        notes: &mut Notes,
        steps: &mut Steps<L>,
    ) -> Result<(List<NodeId>, usize), Memory>
        requires names { list_all (names_types self.now.asking.search.compiled.now) self.now.asking.search.atoms.now ≡ true }
        requires place { EndsIn self.now.asking.whole.now self.now.asking.whole.now }
        requires right { AreNoted self.now.asking.search.compiled.now (G.meaning self.now.asking.search.graph.now) self.now.asking.search.atoms.now self.now.asking.whole.now notes.old }
        ensures all { IfOk result (λ found. AreAllOf (hop_bounds self.now.asking.search.compiled.now (G.meaning self.now.asking.search.graph.now) self.now.asking.search.atoms.now self.now.asking.whole.now hop from) (at_nodes found.0)) }
        ensures right { AreNoted self.now.asking.search.compiled.now (G.meaning self.now.asking.search.graph.now) self.now.asking.search.atoms.now self.now.asking.whole.now notes.new }
        ensures full { StayFull notes.old notes.new }
        ensures no_step_back { steps.old ≤ steps.new }
        ensures cost { steps.new ≤ steps.old + on_most self.now.asking.search.compiled.now (G.meaning self.now.asking.search.graph.now) self.now.asking.search.atoms.now self.now.asking.whole.now 0 (hop_steps hop) (Bound.Node from) }
        ensures once { (var : ℕ) (pairs : Items Stand) → length self.now.asking.whole.now ≤ 19 → IsClosed self.now.asking.search.compiled.now (G.meaning self.now.asking.search.graph.now) self.now.asking.search.atoms.now pairs self.now.asking.whole.now →
            Contains pairs (stand_at var (Elem.Node from)) → HasAhead self.now.asking.search.compiled.now (G.meaning self.now.asking.search.graph.now) self.now.asking.search.atoms.now pairs (Step.Along hop.edge var hop.forward) →
            HasAhead self.now.asking.search.compiled.now (G.meaning self.now.asking.search.graph.now) self.now.asking.search.atoms.now pairs (Step.End hop.edge hop.node hop.source) →
            OnOk result (IsPaidOn (G.meaning self.now.asking.search.graph.now) pairs notes.old notes.new steps.old steps.new (hop_most (G.meaning self.now.asking.search.graph.now) (length self.now.asking.whole.now) (stand_at var (Elem.Node from)))) }
    {
        let mut ends = Vec::new(self.alloc);
        let mut edges = 0;
        for nth in 0..self.asking.search.graph.count() as usize {
            match edge_along(self.asking.search.graph, from, hop.forward, nth, steps) {
                Some(id) => {
                    edges = nth + 1;
                    if let Some(edge) = self.edge_kept(hop.edge, id, notes, steps) {
                        self.add_end_kept(hop, edge, &mut ends, notes, steps)?;
                    }
                }
                None => break,
            }
        }
        Ok((nodes_in_order(ends), edges))
    }

    /// Adds the nodes behind a node, each once. Where they were noted it takes no look-up; else they are noted if the node has more than
    /// a few edges.
    pub(crate) fn add_behind<L: Ledger>(
        &self,
        hop: Hop,
        from: NodeId,
        ends: &mut Vec<NodeId>,
        notes: &mut Notes,
        steps: &mut Steps<L>,
    ) -> Result<(), Memory>
        requires names { list_all (names_types self.now.asking.search.compiled.now) self.now.asking.search.atoms.now ≡ true }
        requires place { EndsIn self.now.asking.whole.now self.now.asking.whole.now }
        requires right { AreNoted self.now.asking.search.compiled.now (G.meaning self.now.asking.search.graph.now) self.now.asking.search.atoms.now self.now.asking.whole.now notes.old }
        ensures added { OnOk result ((ids : Items NodeId) × (ends.new.items ≡ ends.old.items ++ ids)
            × AreAllOf (hop_bounds self.now.asking.search.compiled.now (G.meaning self.now.asking.search.graph.now) self.now.asking.search.atoms.now self.now.asking.whole.now hop from) (at_nodes ids)) }
        ensures right { AreNoted self.now.asking.search.compiled.now (G.meaning self.now.asking.search.graph.now) self.now.asking.search.atoms.now self.now.asking.whole.now notes.new }
        ensures full { StayFull notes.old notes.new }
        ensures no_step_back { steps.old ≤ steps.new }
        ensures cost { steps.new ≤ steps.old + on_most self.now.asking.search.compiled.now (G.meaning self.now.asking.search.graph.now) self.now.asking.search.atoms.now self.now.asking.whole.now 0 (hop_steps hop) (Bound.Node from) }
        ensures once { (var : ℕ) (pairs : Items Stand) → length self.now.asking.whole.now ≤ 19 → IsClosed self.now.asking.search.compiled.now (G.meaning self.now.asking.search.graph.now) self.now.asking.search.atoms.now pairs self.now.asking.whole.now →
            Contains pairs (stand_at var (Elem.Node from)) → HasAhead self.now.asking.search.compiled.now (G.meaning self.now.asking.search.graph.now) self.now.asking.search.atoms.now pairs (Step.Along hop.edge var hop.forward) →
            HasAhead self.now.asking.search.compiled.now (G.meaning self.now.asking.search.graph.now) self.now.asking.search.atoms.now pairs (Step.End hop.edge hop.node hop.source) →
            OnOk result (IsPaidOn (G.meaning self.now.asking.search.graph.now) pairs notes.old notes.new steps.old steps.new (hop_most (G.meaning self.now.asking.search.graph.now) (length self.now.asking.whole.now) (stand_at var (Elem.Node from)))) }
    {
        if let Some(link) = notes.links.of(hop.edge, from) {
            if link.hop == hop {
                ends.extend_from_slice(link.ids.as_slice())?;
                return Ok(());
            }
        }
        let (ids, edges) = self.behind(hop, from, notes, steps)?;
        ends.extend_from_slice(ids.as_slice())?;
        if edges <= FEW_EDGES {
            return Ok(());
        }
        notes.links.note(hop, from, ids)
    }
}
