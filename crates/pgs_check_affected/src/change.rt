//! A pending change, read once for the searches of all keys.

ghost use Rattle.std.specs.Prelude.{◌≡◌, ◌+◌, ◌*◌, ◌^◌, ◌≤◌, ◌++◌, ℕ, true, false, List as Items, length, map, option_map, IfOk, OnOk};
ghost use Rattle.std.specs.List.{All};
ghost use Rattle.std.specs.Map.{keys_of};
ghost use Rattle.pgs_base.specs.declared.element.Elem.{Elem};
ghost use Rattle.pgs_base.specs.Order.{ascends, elem_cmp};
ghost use Rattle.pgs_base.specs.Pair.{pair_of};
ghost use Rattle.pgs_graph.specs.Changed.{changed, is_sound};
ghost use Rattle.pgs_graph.specs.Reads.{edge_row};
ghost use Rattle.pgs_syntax.specs.Matches.{carried};
ghost use Rattle.pgs_syntax.specs.Valid.{is_valid_key_of};
ghost use Rattle.pgs_match.specs.Planned.{most_edges};
ghost use Rattle.pgs_check_affected.specs.Changes.{elems_of, have_same_ends, known_in, IsChange};
ghost use Rattle.pgs_check_affected.specs.Local.{is_one_of, HasOneRow, IsAlike};
ghost use Rattle.pgs_check_affected.specs.Touched.{touched, AreSparse, IsSparseInBoth, AreSparseInBoth};
ghost use Rattle.pgs_check_affected.specs.Unseen.{seen_elems};

use crate::Known;
use crate::meeting::can_meet;
use crate::spreads::found_by_all;
use pgs_base::{EdgeId, EdgeRow, Elem, List, Memory, NodeId, NodeRow, Steps};
use pgs_conform::{Compiled, Pair};
use pgs_graph::{Delta, EdgeRef, GraphRead};
use pgs_match::{PlannedKey, in_order};
use pgs_overlay::Overlay;
use pgs_tables::Tables;
use std::alloc::Global;
use std::marker::Model;
use std::sync::ledger::Ledger;

/// A pending change: the graph before it, the graph after it, and the elements of its delta with their rows in both, read once.
/// Contracts see both graphs and the elements.
pub struct Change<'a> {
    before: &'a Tables,
    after: &'a Overlay<'a>,
    known: List<Known<'a>>,
}

// Dropped by one function of this crate, so that those above need not prove anew how a change is taken apart.
impl<'a> Drop for Change<'a> {
    fn drop(self) {
        let Change {
            before: _,
            after: _,
            known: _,
        } = self;
    }
}

impl<'a> Model for Change<'a> {
    ghost use Rattle.std.specs.Prelude.{map};
    ghost use Rattle.pgs_check_affected.specs.declared.known.Known.{Known};
    ghost use Rattle.pgs_check_affected.specs.Changes.{ChangeState, IsChange};

    ghost Value = { ChangeState };

    ghost view = { λ change. record {
      before = change.before.now.graph;
      after = change.after.now;
      elems = map (λ (known : Known). known.elem) change.known;
    } };

    ghost invariant = { λ change. IsChange change.before.now.graph change.after.now
        (map (λ (known : Known). known.elem) change.known) change.known };
}

// What a node carries, with one look-up.
fn node_pair<'a, G: GraphRead, L: Ledger>(
    graph: &'a G,
    id: NodeId,
    steps: &mut Steps<L>,
) -> Option<Pair<'a>>
    ensures value { result ≡ carried (G.meaning graph.now) (Elem.Node id) }
    ensures tick { steps.new ≡ steps.old + 1 }
{
    match graph.node(id, steps) {
        Some(node) => Some(Pair {
            labels: node.labels,
            props: node.props,
        }),
        None => None,
    }
}

// Whether an edge is in neither of two graphs, or in both with the same ends.
fn have_same_ends(before: &Option<EdgeRef<'_>>, after: &Option<EdgeRef<'_>>) -> bool
    ensures { result ≡ have_same_ends
        (option_map (λ edge. edge_row edge.source edge.target edge.labels.now edge.props.now) before.now)
        (option_map (λ edge. edge_row edge.source edge.target edge.labels.now edge.props.now) after.now) }
{
    match (before, after) {
        (Some(old), Some(new)) => old.source == new.source && old.target == new.target,
        (None, None) => true,
        _ => false,
    }
}

// What an edge carries, where it is there.
fn edge_pair<'a>(edge: &Option<EdgeRef<'a>>) -> Option<Pair<'a>>
    ensures { result ≡ option_map (λ edge. pair_of edge.labels.now edge.props.now) edge.now }
{
    match edge {
        Some(edge) => Some(Pair {
            labels: edge.labels,
            props: edge.props,
        }),
        None => None,
    }
}

// What is known of an edge, with two look-ups.
fn known_edge<'a, G: GraphRead, H: GraphRead, L: Ledger>(
    before: &'a G,
    after: &'a H,
    id: EdgeId,
    steps: &mut Steps<L>,
) -> Known<'a>
    ensures value { result ≡ known_in (G.meaning before.now) (H.meaning after.now) (Elem.Edge id) }
    ensures tick { steps.new ≡ steps.old + 2 }
{
    let old = before.edge(id, steps);
    let new = after.edge(id, steps);
    Known {
        elem: Elem::Edge(id),
        before: edge_pair(&old),
        after: edge_pair(&new),
        keeps_ends: have_same_ends(&old, &new),
    }
}

// Adds what is known of the nodes of a delta, with two look-ups for each.
fn add_nodes<'a, G: GraphRead, H: GraphRead, L: Ledger>(
    known: &mut Vec<Known<'a>>,
    before: &'a G,
    after: &'a H,
    nodes: &[(NodeId, Option<NodeRow>)],
    steps: &mut Steps<L>,
) -> Result<(), Memory>
    ensures known { OnOk result (known.new.items ≡ known.old.items
        ++ map (known_in (G.meaning before.now) (H.meaning after.now)) (map (λ id. Elem.Node id) (keys_of nodes.now))) }
    ensures no_step_back { steps.old ≤ steps.new }
    ensures cost { steps.new ≤ steps.old + 2 * length nodes.now }
{
    for node in nodes {
        let id = node.0;
        known.push(Known {
            elem: Elem::Node(id),
            before: node_pair(before, id, steps),
            after: node_pair(after, id, steps),
            keeps_ends: true,
        })?;
    }
    Ok(())
}

// Adds what is known of the edges of a delta, with two look-ups for each.
fn add_edges<'a, G: GraphRead, H: GraphRead, L: Ledger>(
    known: &mut Vec<Known<'a>>,
    before: &'a G,
    after: &'a H,
    edges: &[(EdgeId, Option<EdgeRow>)],
    steps: &mut Steps<L>,
) -> Result<(), Memory>
    ensures known { OnOk result (known.new.items ≡ known.old.items
        ++ map (known_in (G.meaning before.now) (H.meaning after.now)) (map (λ id. Elem.Edge id) (keys_of edges.now))) }
    ensures no_step_back { steps.old ≤ steps.new }
    ensures cost { steps.new ≤ steps.old + 2 * length edges.now }
{
    for edge in edges {
        let id = edge.0;
        known.push(known_edge(before, after, id, steps))?;
    }
    Ok(())
}

impl<'a> Change<'a> {
    /// The change of a graph by a sound delta, where `after` is the graph's overlay by it. Each row of the delta is looked up once in
    /// either graph. `Memory` where none was left.
    pub fn new<L: Ledger>(
        alloc: Global,
        before: &'a Tables,
        after: &'a Overlay<'a>,
        delta: &Delta,
        steps: &mut Steps<L>,
    ) -> Result<Change<'a>, Memory>
        requires sound { is_sound before.now.graph delta.now ≡ true }
        requires overlay { after.now ≡ changed before.now.graph delta.now }
        ensures before { IfOk result (λ change. change.before ≡ before.now.graph) }
        ensures after { IfOk result (λ change. change.after ≡ after.now) }
        ensures elems { IfOk result (λ change. change.elems ≡ elems_of delta.now) }
        ensures no_step_back { steps.old ≤ steps.new }
        ensures cost { steps.new ≤ steps.old + 2 * length (elems_of delta.now) }
    {
        let _elements = before.count();
        let mut known = Vec::new(alloc);
        add_nodes(&mut known, before, after, delta.nodes.as_slice(), steps)?;
        add_edges(&mut known, before, after, delta.edges.as_slice(), steps)?;
        Ok(Change {
            before,
            after,
            known: List::from_vec(known),
        })
    }

    /// The elements of the change, ascending and each once, with their rows in both graphs. Every other element has one row in both.
    pub fn known(&self) -> &[Known<'a>]
        ensures { IsChange self.now.before self.now.after self.now.elems result.now }
    {
        self.known.as_slice()
    }

    /// Whether the change can alter a place in a key's scope, or the key values of an element there. Where it can't, each element is
    /// outside the scope in both graphs, or has the same place and the same key values in both. The key's types are those of the schema.
    /// It compares the rows of the change's elements with what the patterns ask of their variables, and takes no look-up and no memory.
    pub fn can_alter(&self, compiled: &Compiled, key: &PlannedKey) -> bool
        requires { is_valid_key_of compiled.now key.now ≡ true }
        ensures { result ≡ false → (elem : Elem) → IsAlike compiled.now self.now.before self.now.after key.now elem }
    {
        can_meet(self.known.as_slice(), compiled, key)
    }

    /// The elements whose place in a key's scope or whose key values the change may alter, ascending and each once: every other element
    /// has the same place and the same key values in both graphs. The key's types are those of the schema. `Memory` where none was
    /// left.
    ///
    /// Let u be the number of elements that the change touches, its own and the edges at its nodes, and let no node within twice w edges
    /// of one of them have more than d edges in either graph, where w is at least the number of edge variables of either pattern. Then
    /// it takes at most 1280 * u * (d + 2)^(w + 1) look-ups, gives at most 80 * u * (d + 2)^w elements, and no node within w edges of
    /// one of these has more than d edges.
    ///
    /// No search begins at an element that the key can't see change: by `seen` the look-ups are at most 1280 * s * (d + 2)^(w + 1), for
    /// the s elements of the change whose own rows differ in what the key asks, where no node within w edges of one of these alone has
    /// more than d edges. So none are made where there is no such element. The rule is `is_left_unseen` in `specs/Unseen.antt`.
    pub fn affected<L: Ledger>(
        &self,
        alloc: Global,
        compiled: &Compiled,
        key: &PlannedKey,
        steps: &mut Steps<L>,
    ) -> Result<List<Elem>, Memory>
        requires { is_valid_key_of compiled.now key.now ≡ true }
        ensures holds { IfOk result (λ elems. (elem : Elem) → is_one_of elems elem ≡ false →
            HasOneRow compiled.now self.now.before self.now.after key.now elem) }
        ensures ascending { IfOk result (λ elems. ascends elem_cmp elems ≡ true) }
        ensures no_step_back { steps.old ≤ steps.new }
        ensures cost { (edges most : ℕ) → most_edges key.now ≤ edges →
            AreSparse self.now.before self.now.after (2 * edges) (touched self.now.before self.now.elems) most →
            steps.new ≤ steps.old + 1280 * length (touched self.now.before self.now.elems) * (most + 2) ^ (edges + 1) }
        ensures seen { let seen = seen_elems compiled.now self.now.before self.now.after key.now self.now.elems in (most : ℕ) →
            AreSparseInBoth self.now.before self.now.after (most_edges key.now) seen most → steps.new ≤ steps.old + 1280 * length seen * (most + 2) ^ (most_edges key.now + 1) }
        ensures few { (edges most : ℕ) → most_edges key.now ≤ edges →
            AreSparse self.now.before self.now.after (2 * edges) (touched self.now.before self.now.elems) most →
            IfOk result (λ elems. length elems ≤ 80 * length (touched self.now.before self.now.elems) * (most + 2) ^ edges) }
        ensures near { (edges most : ℕ) → most_edges key.now ≤ edges →
            AreSparse self.now.before self.now.after (2 * edges) (touched self.now.before self.now.elems) most →
            IfOk result (All (λ elem. IsSparseInBoth self.now.before self.now.after edges elem most)) }
    {
        let known = self.known.as_slice();
        let found = found_by_all(alloc, self.before, self.after, known, compiled, key, steps)?;
        Ok(in_order(found))
    }
}
