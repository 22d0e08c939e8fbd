//! What is found from one element of a change, in one pattern of a key.

ghost use Rattle.std.specs.Prelude.{◌≡◌, ◌+◌, ◌*◌, ◌^◌, ◌<◌, ◌≤◌, ◌||◌, ◌++◌, ℕ, true, false, cond, length, slice_get, map, IfOk, OnOk};
ghost use Rattle.std.specs.Option.{option_map_or};
ghost use Rattle.pgs_graph.specs.Reads.{out_edges_of, in_edges_of};
ghost use Rattle.pgs_syntax.specs.Matches.{carried};
ghost use Rattle.pgs_syntax.specs.Valid.{is_valid_key_of};
ghost use Rattle.pgs_match.specs.Near.{IsSparse};
ghost use Rattle.pgs_match.specs.Planned.{most_edges, pattern_of};
ghost use Rattle.pgs_match.specs.Reached.{reached};
ghost use Rattle.pgs_match.specs.Tests.{own_passes};
ghost use Rattle.pgs_check_affected.specs.declared.known.Known.{Known};
ghost use Rattle.pgs_check_affected.specs.Changes.{known_in};
ghost use Rattle.pgs_check_affected.specs.Found.{edges_at, found_from, found_in, found_by, found};
ghost use Rattle.pgs_check_affected.specs.Touched.{IsSparseInBoth, AreSparseInBoth};
ghost use Rattle.pgs_check_affected.specs.Unseen.{seen_elems};

use crate::Known;
use crate::seeing::is_left_unseen;
use pgs_base::{Elem, Memory, NodeId, Steps};
use pgs_conform::{Compiled, Pair};
use pgs_graph::GraphRead;
use pgs_match::{PlannedKey, Side, edge_along, own_passes, reach};
use pgs_syntax::Pattern;
use std::alloc::Global;
use std::sync::ledger::Ledger;

// Adds the edges that go out of a node, or that come in at it, with a look-up for each and one more.
fn add_edges_along<G: GraphRead, L: Ledger>(
    graph: &G,
    id: NodeId,
    forward: bool,
    elems: &mut Vec<Elem>,
    steps: &mut Steps<L>,
) -> Result<(), Memory>
    ensures edges { OnOk result (elems.new.items ≡ elems.old.items
        ++ map (λ edge. Elem.Edge edge) (cond forward (out_edges_of (G.meaning graph.now) id) (in_edges_of (G.meaning graph.now) id))) }
    ensures no_step_back { steps.old ≤ steps.new }
    ensures cost { steps.new ≤ steps.old + length (cond forward (out_edges_of (G.meaning graph.now) id) (in_edges_of (G.meaning graph.now) id)) + 1 }
{
    for nth in 0..graph.count() as usize {
        match edge_along(graph, id, forward, nth, steps) {
            Some(edge) => elems.push(Elem::Edge(edge))?,
            None => return Ok(()),
        }
    }
    Ok(())
}

// Adds the edges at an element, where it is a node.
fn add_edges_at<G: GraphRead, L: Ledger>(
    graph: &G,
    elem: Elem,
    elems: &mut Vec<Elem>,
    steps: &mut Steps<L>,
) -> Result<(), Memory>
    ensures edges { OnOk result (elems.new.items ≡ elems.old.items ++ edges_at (G.meaning graph.now) elem) }
    ensures no_step_back { steps.old ≤ steps.new }
    ensures cost { steps.new ≤ steps.old + length (edges_at (G.meaning graph.now) elem) + 2 }
{
    if let Elem::Node(id) = elem {
        add_edges_along(graph, id, true, elems, steps)?;
        add_edges_along(graph, id, false, elems, steps)?;
    }
    Ok(())
}

// Adds the edges at an element in both graphs.
fn add_edges_at_both<G: GraphRead, H: GraphRead, L: Ledger>(
    before: &G,
    after: &H,
    elem: Elem,
    elems: &mut Vec<Elem>,
    steps: &mut Steps<L>,
) -> Result<(), Memory>
    ensures edges { OnOk result (elems.new.items ≡ elems.old.items ++ (edges_at (G.meaning before.now) elem ++ edges_at (H.meaning after.now) elem)) }
    ensures no_step_back { steps.old ≤ steps.new }
    ensures cost { steps.new ≤ steps.old + length (edges_at (G.meaning before.now) elem) + length (edges_at (H.meaning after.now) elem) + 4 }
{
    add_edges_at(before, elem, elems, steps)?;
    add_edges_at(after, elem, elems, steps)?;
    Ok(())
}

/// A pattern of a key whose types are those of a schema.
#[derive(Clone, Copy)]
pub(crate) struct Sought<'a> {
    pub(crate) compiled: &'a Compiled,
    pub(crate) key: &'a PlannedKey,
    pub(crate) side: Side,
}

impl<'a> Sought<'a> {
    /// Whether an element's own row passes what the pattern asks of a variable. It takes no look-up.
    pub(crate) fn passes(&self, var: u32, elem: Elem, own: &Option<Pair<'_>>) -> bool
        requires { is_valid_key_of self.now.compiled.now self.now.key.now ≡ true }
        ensures { result ≡ option_map_or (own_passes self.now.compiled.now (pattern_of self.now.side self.now.key.now) var elem) own.now false }
    {
        match own {
            Some(own) => own_passes(self.compiled, self.key.pattern(self.side), var, elem, own),
            None => false,
        }
    }

    // Adds what is reached in one graph from an element at a variable. No search is begun where its own row fails.
    fn add_reached<G: GraphRead, L: Ledger>(
        &self,
        alloc: Global,
        graph: &G,
        own: &Option<Pair<'_>>,
        var: u32,
        elem: Elem,
        elems: &mut Vec<Elem>,
        steps: &mut Steps<L>,
    ) -> Result<(), Memory>
        requires typed { is_valid_key_of self.now.compiled.now self.now.key.now ≡ true }
        requires in_range { var < length (pattern_of self.now.side self.now.key.now).edge_vars }
        requires own { own.now ≡ carried (G.meaning graph.now) elem }
        ensures elems { OnOk result (elems.new.items ≡ elems.old.items
            ++ reached self.now.compiled.now (G.meaning graph.now) (pattern_of self.now.side self.now.key.now) var elem) }
        ensures no_step_back { steps.old ≤ steps.new }
        ensures cost { (most : ℕ) → IsSparse (G.meaning graph.now) (most_edges self.now.key.now) elem most →
            steps.new ≤ steps.old + 16 * (most + 2) ^ (most_edges self.now.key.now + 1) }
    {
        if self.passes(var, elem, own) {
            let found = reach(
                alloc,
                graph,
                self.compiled,
                self.key,
                self.side,
                var,
                elem,
                steps,
            )?;
            elems.extend_from_slice(found.as_slice())?;
        }
        Ok(())
    }

    // Adds what is reached in both graphs from an element at any of the first variables.
    fn add_searched<G: GraphRead, H: GraphRead, L: Ledger>(
        &self,
        alloc: Global,
        before: &G,
        after: &H,
        known: &Known<'_>,
        vars: u32,
        elems: &mut Vec<Elem>,
        steps: &mut Steps<L>,
    ) -> Result<(), Memory>
        requires typed { is_valid_key_of self.now.compiled.now self.now.key.now ≡ true }
        requires in_range { vars ≤ length (pattern_of self.now.side self.now.key.now).edge_vars }
        requires known { known.now ≡ known_in (G.meaning before.now) (H.meaning after.now) known.now.elem }
        ensures elems { OnOk result (elems.new.items ≡ elems.old.items
            ++ found_from self.now.compiled.now (G.meaning before.now) (H.meaning after.now) known.now.elem
            (pattern_of self.now.side self.now.key.now) vars) }
        ensures no_step_back { steps.old ≤ steps.new }
        ensures cost { (most : ℕ) → IsSparseInBoth (G.meaning before.now) (H.meaning after.now) (most_edges self.now.key.now) known.now.elem most →
            steps.new ≤ steps.old + vars * (32 * (most + 2) ^ (most_edges self.now.key.now + 1)) }
    {
        for var in 0..vars {
            self.add_reached(alloc, before, &known.before, var, known.elem, elems, steps)?;
            self.add_reached(alloc, after, &known.after, var, known.elem, elems, steps)?;
        }
        Ok(())
    }

    // Adds what is found from an element of a change. A pattern of one variable needs no search.
    fn add_found<G: GraphRead, H: GraphRead, L: Ledger>(
        &self,
        alloc: Global,
        before: &G,
        after: &H,
        known: &Known<'_>,
        elems: &mut Vec<Elem>,
        steps: &mut Steps<L>,
    ) -> Result<(), Memory>
        requires typed { is_valid_key_of self.now.compiled.now self.now.key.now ≡ true }
        requires known { known.now ≡ known_in (G.meaning before.now) (H.meaning after.now) known.now.elem }
        ensures elems { OnOk result (elems.new.items ≡ elems.old.items
            ++ found_in self.now.compiled.now (G.meaning before.now) (H.meaning after.now) known.now.elem
            (pattern_of self.now.side self.now.key.now)) }
        ensures no_step_back { steps.old ≤ steps.new }
        ensures cost { (most : ℕ) → IsSparseInBoth (G.meaning before.now) (H.meaning after.now) (most_edges self.now.key.now) known.now.elem most →
            steps.new ≤ steps.old + 640 * (most + 2) ^ (most_edges self.now.key.now + 1) }
    {
        let vars = self.key.pattern(self.side).edge_vars.len();
        if vars != 1 {
            return self.add_searched(alloc, before, after, known, vars as u32, elems, steps);
        }
        let elem = known.elem;
        if self.passes(0, elem, &known.before) || self.passes(0, elem, &known.after) {
            elems.push(elem)?;
        }
        if is_edge(self.key.pattern(self.side)) {
            add_edges_at_both(before, after, elem, elems, steps)?;
        }
        Ok(())
    }
}

/// Whether variable 0 of a pattern is an edge.
pub(crate) fn is_edge(pattern: &Pattern) -> bool
    ensures { result ≡ option_map_or (λ is_edge. is_edge) (slice_get pattern.now.edge_vars 0) false }
{
    match pattern.edge_vars.at(0) {
        Some(is_edge) => *is_edge,
        None => false,
    }
}

/// Which patterns of a key are searched from each element by itself.
#[derive(Clone, Copy)]
pub(crate) struct Searched {
    pub(crate) scope: bool,
    pub(crate) descriptor: bool,
}

// Adds what is found from an element of a change in the patterns that are searched from each by itself.
fn add_found_by<G: GraphRead, H: GraphRead, L: Ledger>(
    alloc: Global,
    before: &G,
    after: &H,
    known: &Known<'_>,
    compiled: &Compiled,
    key: &PlannedKey,
    searched: Searched,
    elems: &mut Vec<Elem>,
    steps: &mut Steps<L>,
) -> Result<(), Memory>
    requires typed { is_valid_key_of compiled.now key.now ≡ true }
    requires known { known.now ≡ known_in (G.meaning before.now) (H.meaning after.now) known.now.elem }
    ensures elems { OnOk result (elems.new.items ≡ elems.old.items
        ++ found_by compiled.now (G.meaning before.now) (H.meaning after.now) known.now.elem searched.scope searched.descriptor key.now) }
    ensures no_step_back { steps.old ≤ steps.new }
    ensures cost { (most : ℕ) → IsSparseInBoth (G.meaning before.now) (H.meaning after.now) (most_edges key.now) known.now.elem most →
        steps.new ≤ steps.old + (cond searched.scope 640 0 + cond searched.descriptor 640 0) * (most + 2) ^ (most_edges key.now + 1) }
{
    if searched.scope {
        let scope = Sought {
            compiled,
            key,
            side: Side::Scope,
        };
        scope.add_found(alloc, before, after, known, elems, steps)?;
    }
    if searched.descriptor {
        let descriptor = Sought {
            compiled,
            key,
            side: Side::Descriptor,
        };
        descriptor.add_found(alloc, before, after, known, elems, steps)?;
    }
    Ok(())
}

/// What is found from the elements of a change that the key may see change, in the patterns that are searched from each by itself.
pub(crate) fn searched_by_all<G: GraphRead, H: GraphRead, L: Ledger>(
    alloc: Global,
    before: &G,
    after: &H,
    known: &[Known<'_>],
    compiled: &Compiled,
    key: &PlannedKey,
    searched: Searched,
    steps: &mut Steps<L>,
) -> Result<Vec<Elem>, Memory>
    requires typed { is_valid_key_of compiled.now key.now ≡ true }
    requires known { known.now ≡ map (known_in (G.meaning before.now) (H.meaning after.now)) (map (λ (one : Known). one.elem) known.now) }
    ensures found { IfOk result (λ elems. elems.items ≡ found compiled.now (G.meaning before.now) (H.meaning after.now) searched.scope searched.descriptor key.now
        (seen_elems compiled.now (G.meaning before.now) (H.meaning after.now) key.now (map (λ (one : Known). one.elem) known.now))) }
    ensures no_step_back { steps.old ≤ steps.new }
    ensures cost { (most : ℕ) → let seen = seen_elems compiled.now (G.meaning before.now) (H.meaning after.now) key.now (map (λ (one : Known). one.elem) known.now) in
        AreSparseInBoth (G.meaning before.now) (H.meaning after.now) (most_edges key.now) seen most →
        steps.new ≤ steps.old + (cond searched.scope 640 0 + cond searched.descriptor 640 0) * length seen * (most + 2) ^ (most_edges key.now + 1) }
{
    let mut elems = Vec::new(alloc);
    for one in known {
        if is_left_unseen(one, compiled, key) {
            continue;
        }
        add_found_by(
            alloc, before, after, one, compiled, key, searched, &mut elems, steps,
        )?;
    }
    Ok(elems)
}
