//! 25 and 26 of a changed graph, found among the elements of the delta and the edges at its nodes.

ghost use Rattle.std.specs.Prelude.{◌≡◌, ◌+◌, ◌*◌, ◌≤◌, ℕ, true, cond, [], ◌∷◌, None, length, filter_map, flat_map, slice_get, option_map, Contains};
ghost use Rattle.std.specs.Map.{keys_of};
ghost use Rattle.pgs_base.specs.Graph.{edge_cmp, is_graph};
ghost use Rattle.pgs_graph.specs.Changed.{changed, is_sound};
ghost use Rattle.pgs_graph.specs.Reads.{out_edges_of, in_edges_of, degree_of};
ghost use Rattle.pgs_overlay.specs.Standing.{row_count};
ghost use Rattle.pgs_violation.specs.declared.violation.Violation.TheVariants.{UntypedEdge};
ghost use Rattle.pgs_check.specs.Untyped.{HaveDegreesWithin, IsSettled, IsTyped, looks_as_before, retyped_nodes, untyped_violations, untyped_change, is_untyped_edge, is_found_before, least_edge, edges_at, touched_edges};

use pgs_base::{EdgeId, EdgeRow, NodeId, NodeRow, Steps};
use pgs_conform::{Compiled, Pair, looks_same, node_typed};
use pgs_graph::{Delta, GraphRead};
use pgs_match::{edge_along, is_edge_typed};
use pgs_overlay::Overlay;
use pgs_tables::Tables;
use pgs_violation::Violation;
use std::cmp::Ordering;
use std::sync::ledger::Ledger;

// Whether a change leaves a node that looks the same to types as it did, with one look-up.
fn looks_as_before<G: GraphRead, L: Ledger>(
    old: &G,
    change: &(NodeId, Option<NodeRow>),
    steps: &mut Steps<L>,
) -> bool
    ensures same { result ≡ looks_as_before (G.meaning old.now) change.now }
    ensures no_step_back { steps.old ≤ steps.new }
    ensures at_most { steps.new ≤ steps.old + 1 }
{
    let Some(row) = &change.1 else {
        return false;
    };
    let Some(before) = old.node(change.0, steps) else {
        return false;
    };
    let own = Pair {
        labels: &row.labels,
        props: &row.props,
    };
    let own_before = Pair {
        labels: before.labels,
        props: before.props,
    };
    looks_same(&own_before, &own)
}

// 25 for a node by the row that a change leaves of it. No look-up.
fn untyped_row(compiled: &Compiled, change: &(NodeId, Option<NodeRow>)) -> Option<Violation>
    ensures { result ≡ untyped_change compiled.now change.now }
{
    let Some(row) = &change.1 else {
        return None;
    };
    let own = Pair {
        labels: &row.labels,
        props: &row.props,
    };
    if node_typed(compiled, &own) {
        None
    } else {
        Some(Violation::UntypedNode { node: change.0 })
    }
}

// 25 for a node that a change leaves untyped. Its type isn't asked where it looks the same to types as before, since it was typed.
fn untyped_change<G: GraphRead, L: Ledger>(
    old: &G,
    compiled: &Compiled,
    change: &(NodeId, Option<NodeRow>),
    steps: &mut Steps<L>,
) -> Option<Violation>
    requires { IsTyped compiled.now (G.meaning old.now) }
    ensures value { result ≡ untyped_change compiled.now change.now }
    ensures no_step_back { steps.old ≤ steps.new }
    ensures at_most { steps.new ≤ steps.old + 1 }
{
    if !looks_as_before(old, change, steps) {
        return untyped_row(compiled, change);
    }
    None
}

// 25 for the first node that changes leave untyped, with a look-up for each.
fn first_untyped_change<G: GraphRead, L: Ledger>(
    old: &G,
    compiled: &Compiled,
    changes: &[(NodeId, Option<NodeRow>)],
    steps: &mut Steps<L>,
) -> Option<Violation>
    requires { IsTyped compiled.now (G.meaning old.now) }
    ensures first { result ≡ slice_get (filter_map (untyped_change compiled.now) changes.now) 0 }
    ensures no_step_back { steps.old ≤ steps.new }
    ensures cost { steps.new ≤ steps.old + length changes.now }
{
    for change in changes {
        if let Some(violation) = untyped_change(old, compiled, change, steps) {
            return Some(violation);
        }
    }
    None
}

// Whether the edge of a number is there and isn't typed.
fn is_untyped_edge<G: GraphRead, L: Ledger>(
    graph: &G,
    compiled: &Compiled,
    id: EdgeId,
    steps: &mut Steps<L>,
) -> bool
    ensures untyped { result ≡ is_untyped_edge compiled.now (G.meaning graph.now) id }
    ensures no_step_back { steps.old ≤ steps.new }
    ensures at_most { steps.new ≤ steps.old + 3 }
{
    let Some(edge) = graph.edge(id, steps) else {
        return false;
    };
    !is_edge_typed(graph, compiled, edge, steps)
}

// Whether the edge that was found is this one, or one of a lesser number.
fn is_found_before(found: Option<EdgeId>, id: EdgeId) -> bool
    ensures { result ≡ is_found_before found id }
{
    match found {
        Some(least) => !(id < least),
        None => false,
    }
}

// What was found, or the edge of a lesser number where it isn't typed.
fn lesser_untyped<G: GraphRead, L: Ledger>(
    graph: &G,
    compiled: &Compiled,
    found: Option<EdgeId>,
    id: EdgeId,
    steps: &mut Steps<L>,
) -> Option<EdgeId>
    ensures least { result ≡ least_edge (is_untyped_edge compiled.now (G.meaning graph.now)) found (id ∷ []) }
    ensures no_step_back { steps.old ≤ steps.new }
    ensures at_most { steps.new ≤ steps.old + 3 }
{
    if is_found_before(found, id) {
        found
    } else if is_untyped_edge(graph, compiled, id, steps) {
        Some(id)
    } else {
        found
    }
}

// What was found, or the least of the edges that changes name and that aren't typed.
fn least_changed<G: GraphRead, L: Ledger>(
    graph: &G,
    compiled: &Compiled,
    mut found: Option<EdgeId>,
    changes: &[(EdgeId, Option<EdgeRow>)],
    steps: &mut Steps<L>,
) -> Option<EdgeId>
    ensures least { result ≡ least_edge (is_untyped_edge compiled.now (G.meaning graph.now)) found (keys_of changes.now) }
    ensures no_step_back { steps.old ≤ steps.new }
    ensures cost { steps.new ≤ steps.old + 3 * length changes.now }
{
    for change in changes {
        let id = change.0;
        found = lesser_untyped(graph, compiled, found, id, steps);
    }
    found
}

// Whether an edge is seen to be one that changes name: so where their numbers ascend, whether it is. No look-up.
fn is_named(changes: &[(EdgeId, Option<EdgeRow>)], id: EdgeId) -> bool
    ensures { result ≡ true → Contains (keys_of changes.now) id }
{
    let place = changes.binary_search_by(
        |change: &(EdgeId, Option<EdgeRow>)| -> Ordering
            ensures { result ≡ edge_cmp change.now.0 id }
        { change.0.cmp(&id) },
    );
    place.is_ok()
}

// What was found, or the edge of a lesser number where it isn't typed. An edge that the tested changes name isn't tested again.
fn lesser_untested<G: GraphRead, L: Ledger>(
    graph: &G,
    compiled: &Compiled,
    tested: &[(EdgeId, Option<EdgeRow>)],
    found: Option<EdgeId>,
    id: EdgeId,
    steps: &mut Steps<L>,
) -> Option<EdgeId>
    requires { IsSettled (is_untyped_edge compiled.now (G.meaning graph.now)) found (keys_of tested.now) }
    ensures least { result ≡ least_edge (is_untyped_edge compiled.now (G.meaning graph.now)) found (id ∷ []) }
    ensures no_step_back { steps.old ≤ steps.new }
    ensures at_most { steps.new ≤ steps.old + 3 }
{
    if is_named(tested, id) {
        found
    } else {
        lesser_untyped(graph, compiled, found, id, steps)
    }
}

// What was found, or the least of the edges that go out of a node, or that come in at it, and aren't typed. Those that the tested changes
// name aren't tested again, here and in what follows.
fn least_along<G: GraphRead, L: Ledger>(
    graph: &G,
    compiled: &Compiled,
    tested: &[(EdgeId, Option<EdgeRow>)],
    mut found: Option<EdgeId>,
    node: NodeId,
    forward: bool,
    steps: &mut Steps<L>,
) -> Option<EdgeId>
    requires { IsSettled (is_untyped_edge compiled.now (G.meaning graph.now)) found (keys_of tested.now) }
    ensures least { result ≡ least_edge (is_untyped_edge compiled.now (G.meaning graph.now)) found
        (cond forward (out_edges_of (G.meaning graph.now) node) (in_edges_of (G.meaning graph.now) node)) }
    ensures no_step_back { steps.old ≤ steps.new }
    ensures cost { steps.new ≤ steps.old + 4 * length (cond forward (out_edges_of (G.meaning graph.now) node) (in_edges_of (G.meaning graph.now) node)) + 1 }
{
    for nth in 0..graph.count() as usize {
        match edge_along(graph, node, forward, nth, steps) {
            Some(id) => found = lesser_untested(graph, compiled, tested, found, id, steps),
            None => return found,
        }
    }
    found
}

// What was found, or the least of the edges at a node that aren't typed.
fn least_at<G: GraphRead, L: Ledger>(
    graph: &G,
    compiled: &Compiled,
    tested: &[(EdgeId, Option<EdgeRow>)],
    found: Option<EdgeId>,
    node: NodeId,
    steps: &mut Steps<L>,
) -> Option<EdgeId>
    requires { IsSettled (is_untyped_edge compiled.now (G.meaning graph.now)) found (keys_of tested.now) }
    ensures least { result ≡ least_edge (is_untyped_edge compiled.now (G.meaning graph.now)) found (edges_at (G.meaning graph.now) node) }
    ensures no_step_back { steps.old ≤ steps.new }
    ensures cost { steps.new ≤ steps.old + (4 * degree_of (G.meaning graph.now) node + 2) }
{
    let outgoing = least_along(graph, compiled, tested, found, node, true, steps);
    least_along(graph, compiled, tested, outgoing, node, false, steps)
}

// What was found, or the least of the edges that aren't typed at the nodes of changes, but for those that look the same to types as before.
fn least_at_changed<O: GraphRead, G: GraphRead, L: Ledger>(
    old: &O,
    graph: &G,
    compiled: &Compiled,
    tested: &[(EdgeId, Option<EdgeRow>)],
    mut found: Option<EdgeId>,
    changes: &[(NodeId, Option<NodeRow>)],
    steps: &mut Steps<L>,
) -> Option<EdgeId>
    requires { IsSettled (is_untyped_edge compiled.now (G.meaning graph.now)) found (keys_of tested.now) }
    ensures least { result ≡ least_edge (is_untyped_edge compiled.now (G.meaning graph.now)) found
        (flat_map (edges_at (G.meaning graph.now)) (retyped_nodes (O.meaning old.now) changes.now)) }
    ensures no_step_back { steps.old ≤ steps.new }
    ensures cost { (most : ℕ) → HaveDegreesWithin (G.meaning graph.now) (retyped_nodes (O.meaning old.now) changes.now) most →
        steps.new ≤ steps.old + length changes.now + length (retyped_nodes (O.meaning old.now) changes.now) * (4 * most + 2) }
{
    for change in changes {
        if looks_as_before(old, change, steps) {
            continue;
        }
        let node = change.0;
        found = least_at(graph, compiled, tested, found, node, steps);
    }
    found
}

// The least of the edges that a delta touches and that aren't typed. Those at a node that looks the same to types as before were typed, and
// still are, unless they are at another node too, or the delta's own.
fn least_untyped<L: Ledger>(
    old: &Tables,
    new: &Overlay<'_>,
    compiled: &Compiled,
    delta: &Delta,
    steps: &mut Steps<L>,
) -> Option<EdgeId>
    requires graph { is_graph old.now.graph ≡ true }
    requires sound { is_sound old.now.graph delta.now ≡ true }
    requires overlay { new.now ≡ changed old.now.graph delta.now }
    requires typed { IsTyped compiled.now old.now.graph }
    ensures least { result ≡ least_edge (is_untyped_edge compiled.now new.now) None (touched_edges new.now delta.now) }
    ensures no_step_back { steps.old ≤ steps.new }
    ensures cost { (most : ℕ) → HaveDegreesWithin new.now (retyped_nodes old.now.graph delta.now.nodes) most →
        steps.new ≤ steps.old + 3 * row_count delta.now + length (retyped_nodes old.now.graph delta.now.nodes) * (4 * most + 2) }
{
    let edges = delta.edges.as_slice();
    let changed = least_changed(new, compiled, None, edges, steps);
    least_at_changed(
        old,
        new,
        compiled,
        edges,
        changed,
        delta.nodes.as_slice(),
        steps,
    )
}

// 26 for an edge, where there is one.
fn untyped_edge(edge: Option<EdgeId>) -> Option<Violation>
    ensures { result ≡ option_map UntypedEdge edge }
{
    match edge {
        Some(edge) => Some(Violation::UntypedEdge { edge }),
        None => None,
    }
}

/// The first 25 or 26 of a changed graph: the least of its nodes that aren't typed, and else the least of its edges. `None` exactly
/// where there is none, so always where the guard isn't strict. It asks that the graph before had none, and that `new` is its overlay
/// by the sound delta. It takes no memory. The rule is `untyped_violations` in `specs/Untyped.antt` of `pgs_check`.
///
/// It looks at the elements of the delta and at the edges of the new graph at its nodes: it takes at most 4 * m * (d + 2) look-ups, for
/// m rows of the delta and any d that the in-degree plus out-degree of none of these nodes passes. Types see labels, keys and kinds of
/// values, and no value: a node that keeps these, and the edges there, aren't asked for their types. So it takes at most
/// 4 * m + 4 * r * (d + 1) look-ups too, for the r nodes that don't, and any d that no degree of these alone passes (`retyped`).
pub fn check_types<L: Ledger>(
    old: &Tables,
    compiled: &Compiled,
    new: &Overlay<'_>,
    delta: &Delta,
    steps: &mut Steps<L>,
) -> Option<Violation>
    requires sound { is_sound old.now.graph delta.now ≡ true }
    requires overlay { new.now ≡ changed old.now.graph delta.now }
    requires typed { untyped_violations compiled.now old.now.graph ≡ [] }
    ensures first { result ≡ slice_get (untyped_violations compiled.now new.now) 0 }
    ensures no_step_back { steps.old ≤ steps.new }
    ensures cost { (most : ℕ) → HaveDegreesWithin new.now (keys_of delta.now.nodes) most →
        steps.new ≤ steps.old + 4 * row_count delta.now * (most + 2) }
    ensures retyped { (most : ℕ) → HaveDegreesWithin new.now (retyped_nodes old.now.graph delta.now.nodes) most →
        steps.new ≤ steps.old + 4 * row_count delta.now + 4 * length (retyped_nodes old.now.graph delta.now.nodes) * (most + 1) }
{
    if !compiled.resolved().guard.strict {
        return None;
    }
    // The count's clause says that what is read is a graph.
    old.count();
    match first_untyped_change(old, compiled, delta.nodes.as_slice(), steps) {
        Some(violation) => Some(violation),
        None => untyped_edge(least_untyped(old, new, compiled, delta, steps)),
    }
}
