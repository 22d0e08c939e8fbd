//! The calls on a planned key.

ghost use Rattle.std.specs.Prelude.{◌≡◌, ◌+◌, ◌*◌, ◌^◌, ◌<◌, ◌≤◌, ◌==◌, ◌||◌, ℕ, true, length, map, filter, filter_map, IfOk, OnOk};
ghost use Rattle.std.specs.List.{All, Contains, list_all, sum_by};
ghost use Rattle.pgs_base.specs.declared.element.Elem.{Elem};
ghost use Rattle.pgs_base.specs.Order.{ascends, elem_cmp};
ghost use Rattle.pgs_syntax.specs.KeyValues.{is_in_scope, scope_of, key_values};
ghost use Rattle.pgs_syntax.specs.Matches.{elements};
ghost use Rattle.pgs_syntax.specs.Valid.{is_edge_var, is_valid_key_of};
ghost use Rattle.pgs_match.specs.declared.step.Step.{Step};
ghost use Rattle.pgs_match.specs.Branches.{has_no_cycle, walked_from};
ghost use Rattle.pgs_match.specs.Plans.{is_plan};
ghost use Rattle.pgs_match.specs.Learned.{HasSearched, HasSearchedFrom};
ghost use Rattle.pgs_match.specs.Near.{HasDegreesWithin, IsSparse};
ghost use Rattle.pgs_match.specs.Reached.{reached};
ghost use Rattle.pgs_match.specs.Planned.{most_edges, pattern_of, taken, first_elem};
ghost use Rattle.pgs_match.specs.Routes.{routed_from};
ghost use Rattle.pgs_match.specs.declared.stand.Stand.{Stand};
ghost use Rattle.pgs_match.specs.Spread.{IsNearSome, AreSparseFrom, HasPassed, are_in_range, elem_degree};

use crate::notes::Notes;
use crate::searching::Place;
use crate::spreading::parted;
use crate::{Learned, PlannedKey, Search, Side, Stand, in_order, in_scope_learned};
use pgs_base::{EdgeId, Elem, List, Memory, NodeId, Part, Steps, Tuple, TupleSet};
use pgs_conform::Compiled;
use pgs_graph::GraphRead;
use pgs_syntax::Expr;
use std::alloc::Global;
use std::sync::ledger::Ledger;

/// Whether an element is in the scope of a key, whose types are those of the schema. It takes no memory. The rule is `is_in_scope` of
/// `pgs_syntax`.
///
/// It takes at most 16 * (d + 2)^(w + 1) look-ups, where w is the greater number of edge variables of the key's two patterns, and no
/// node within w edges of the element has an in-degree plus out-degree over d. Where the scope has no cycle its branches add: it takes at
/// most 80 times the sum of the degrees plus 2 over all that walks along the scope from the element come to, each counted once a walk.
pub fn in_scope<G: GraphRead, L: Ledger>(
    graph: &G,
    compiled: &Compiled,
    key: &PlannedKey,
    elem: Elem,
    steps: &mut Steps<L>,
) -> bool
    requires { is_valid_key_of compiled.now key.now ≡ true }
    ensures found { result ≡ is_in_scope compiled.now (G.meaning graph.now) key.now elem }
    ensures no_step_back { steps.old ≤ steps.new }
    ensures cost { (most : ℕ) → IsSparse (G.meaning graph.now) (most_edges key.now) elem most →
        steps.new ≤ steps.old + 16 * (most + 2) ^ (most_edges key.now + 1) }
    ensures adds { has_no_cycle key.now.scope ≡ true → (plan : List Step) × (is_plan key.now.scope 0 plan ≡ true)
        × (steps.new ≤ steps.old + 80 * walked_from compiled.now (G.meaning graph.now) key.now.scope plan 0 elem) }
{
    let place = Place {
        graph,
        compiled,
        pattern: key.pattern(Side::Scope),
    };
    place.has_match(key.plan(Side::Scope, 0).steps.as_slice(), 0, elem, steps)
}

/// The key values of an element, for a key whose types are those of the schema. The rule is `key_values` of `pgs_syntax`.
///
/// At every exit it has taken at most 16 * (d + 2)^(w + 1) look-ups, with w and d as for [`in_scope`], and it gives at most (d + 2)^w
/// tuples. Where the descriptor has no cycle it takes at most 80 times the sum of the degrees plus 2 over the routes to the variables that
/// the expressions take, each counted once a route, and over the walks off these, each counted once a walk (`routed_from` in
/// `specs/Routes.antt` of `pgs_match`). Where they take one variable beside x, that is at most 160 times the sum over all that walks along
/// the descriptor from the element come to, each counted once a walk; and, unless `Memory` comes, at most 1400 times the sum over the pairs
/// of a variable and an element that these come to, each counted once. `Memory` also where an answer couldn't be noted for want of it.
pub fn key_values<G: GraphRead, L: Ledger>(
    alloc: Global,
    graph: &G,
    compiled: &Compiled,
    key: &PlannedKey,
    elem: Elem,
    steps: &mut Steps<L>,
) -> Result<TupleSet, Memory>
    requires { is_valid_key_of compiled.now key.now ≡ true }
    ensures values { IfOk result (λ tuples. tuples ≡ key_values compiled.now (G.meaning graph.now) key.now elem) }
    ensures no_step_back { steps.old ≤ steps.new }
    ensures cost { (most : ℕ) → IsSparse (G.meaning graph.now) (most_edges key.now) elem most →
        steps.new ≤ steps.old + 16 * (most + 2) ^ (most_edges key.now + 1) }
    ensures few { (most : ℕ) → IsSparse (G.meaning graph.now) (most_edges key.now) elem most →
        IfOk result (λ tuples. length tuples ≤ (most + 2) ^ most_edges key.now) }
    ensures routes { has_no_cycle key.now.descriptor ≡ true → (plan : List Step) × (is_plan key.now.descriptor 0 plan ≡ true) × (steps.new ≤ steps.old
        + 80 * routed_from compiled.now (G.meaning graph.now) key.now.descriptor (taken key.now) plan 0 elem) }
    ensures adds { has_no_cycle key.now.descriptor ≡ true → (var : ℕ) → list_all (λ v. v == 0 || v == var) (taken key.now) ≡ true →
        (plan : List Step) × (is_plan key.now.descriptor 0 plan ≡ true)
        × (steps.new ≤ steps.old + 160 * walked_from compiled.now (G.meaning graph.now) key.now.descriptor plan 0 elem) }
    ensures once { has_no_cycle key.now.descriptor ≡ true → (var : ℕ) → list_all (λ v. v == 0 || v == var) (taken key.now) ≡ true →
        (pairs : List Stand) → HasSearched compiled.now (G.meaning graph.now) key.now.descriptor elem pairs →
        OnOk result (steps.new ≤ steps.old + 1400 * sum_by (λ (stand : Stand). elem_degree (G.meaning graph.now) stand.elem + 2) pairs) }
{
    let place = Place {
        graph,
        compiled,
        pattern: key.pattern(Side::Descriptor),
    };
    let exprs = key.key().exprs.as_slice();
    let mut notes = Notes::new(alloc);
    place.tuples(alloc, exprs, key.values(), 0, elem, &mut notes, steps)
}

/// The elements that x takes in the matches of a pattern of the key in which the variable takes the element, ascending and each once.
/// The variable is in range, and the key's types are those of the schema. The rule is `reached` in `specs/Reached.antt` of `pgs_match`.
///
/// At every exit it has taken at most 16 * (d + 2)^(w + 1) look-ups, with w and d as for [`in_scope`], and it gives at most (d + 2)^w
/// elements. Where the pattern has no cycle it takes at most 160 times the sum of the degrees plus 2 over all that walks along the pattern
/// from the element at the variable come to, each counted once a walk; and, unless `Memory` comes, at most 1400 times the sum over the pairs
/// of a variable and an element that these come to, each counted once. `Memory` also where an answer couldn't be noted for want of it.
pub fn reach<G: GraphRead, L: Ledger>(
    alloc: Global,
    graph: &G,
    compiled: &Compiled,
    key: &PlannedKey,
    side: Side,
    var: u32,
    elem: Elem,
    steps: &mut Steps<L>,
) -> Result<List<Elem>, Memory>
    requires typed { is_valid_key_of compiled.now key.now ≡ true }
    requires in_range { var < length (pattern_of side key.now).edge_vars }
    ensures elems { IfOk result (λ elems. elems ≡ reached compiled.now (G.meaning graph.now) (pattern_of side key.now) var elem) }
    ensures no_step_back { steps.old ≤ steps.new }
    ensures cost { (most : ℕ) → IsSparse (G.meaning graph.now) (most_edges key.now) elem most →
        steps.new ≤ steps.old + 16 * (most + 2) ^ (most_edges key.now + 1) }
    ensures few { (most : ℕ) → IsSparse (G.meaning graph.now) (most_edges key.now) elem most →
        IfOk result (λ elems. length elems ≤ (most + 2) ^ most_edges key.now) }
    ensures adds { has_no_cycle (pattern_of side key.now) ≡ true → (plan : List Step) × (is_plan (pattern_of side key.now) var plan ≡ true)
        × (steps.new ≤ steps.old + 160 * walked_from compiled.now (G.meaning graph.now) (pattern_of side key.now) plan var elem) }
    ensures once { has_no_cycle (pattern_of side key.now) ≡ true →
        (pairs : List Stand) → HasSearchedFrom compiled.now (G.meaning graph.now) (pattern_of side key.now) var elem pairs →
        OnOk result (steps.new ≤ steps.old + 1400 * sum_by (λ (stand : Stand). elem_degree (G.meaning graph.now) stand.elem + 2) pairs) }
{
    let place = Place {
        graph,
        compiled,
        pattern: key.pattern(side),
    };
    let exprs = [Expr::Element(0)];
    let plan = key.plan(side, var);
    let mut notes = Notes::new(alloc);
    let tuples = place.tuples(alloc, &exprs, plan, var, elem, &mut notes, steps)?;
    first_elems(alloc, tuples.as_slice())
}

/// The elements to which a plan of a pattern of the key leads back from elements at variables, ascending and each once: all that x takes
/// in the matches in which the variable of one of these starts takes its element are among them. The variables are in range, and the
/// key's types are those of the schema.
///
/// It goes back by one step of the plan after another, from all starts together, so that no pair of a variable and an element is gone
/// back from twice: it takes at most 4 times the sum of the degrees plus 2 over the pairs that the walks back pass, each counted once.
/// Each element that it gives lies within w edges of a start. At every exit it has taken at most 8 * (d + 2)^w look-ups
/// for each start, and it gives at most (d + 2)^w elements for each, with w as for [`in_scope`], where no node within w edges of a start
/// has an in-degree plus out-degree over d.
pub fn spread<G: GraphRead, L: Ledger>(
    alloc: Global,
    graph: &G,
    compiled: &Compiled,
    key: &PlannedKey,
    side: Side,
    starts: Vec<Stand>,
    steps: &mut Steps<L>,
) -> Result<List<Elem>, Memory>
    requires typed { is_valid_key_of compiled.now key.now ≡ true }
    requires in_range { are_in_range (pattern_of side key.now) starts.items ≡ true }
    ensures all { IfOk result (λ elems. (start : Stand) → Contains starts.items start → (elem : Elem) →
        Contains (reached compiled.now (G.meaning graph.now) (pattern_of side key.now) start.var start.elem) elem → Contains elems elem) }
    ensures near { IfOk result (All (IsNearSome (G.meaning graph.now) (most_edges key.now) starts.items)) }
    ensures ascending { IfOk result (λ elems. ascends elem_cmp elems ≡ true) }
    ensures no_step_back { steps.old ≤ steps.new }
    ensures cost { (most : ℕ) → AreSparseFrom (G.meaning graph.now) (most_edges key.now) starts.items most →
        steps.new ≤ steps.old + length starts.items * (8 * (most + 2) ^ most_edges key.now) }
    ensures few { (most : ℕ) → AreSparseFrom (G.meaning graph.now) (most_edges key.now) starts.items most →
        IfOk result (λ elems. length elems ≤ length starts.items * (most + 2) ^ most_edges key.now) }
    ensures once { (plan : List Step) × (is_plan (pattern_of side key.now) 0 plan ≡ true) × ((pairs : List Stand) →
        HasPassed compiled.now (G.meaning graph.now) (pattern_of side key.now).atoms plan starts.items pairs →
        steps.new ≤ steps.old + 4 * sum_by (λ (stand : Stand). elem_degree (G.meaning graph.now) stand.elem + 2) pairs) }
{
    let _elements = graph.count();
    let search = Search {
        graph,
        compiled,
        atoms: key.pattern(side).atoms.as_slice(),
    };
    let plan = key.plan(side, 0);
    let ends = search.lead_back(alloc, plan.steps.as_slice(), starts, steps)?;
    let (firsts, _others) = parted(alloc, 0, ends.as_slice())?;
    Ok(in_order(firsts))
}

// The element that a tuple begins with.
fn first_elem(tuple: &Tuple) -> Option<Elem>
    ensures { result ≡ first_elem tuple.now }
{
    match tuple.parts().first() {
        Some(Part::Elem(elem)) => Some(*elem),
        _ => None,
    }
}

// The elements that tuples begin with.
fn first_elems(alloc: Global, tuples: &[Tuple]) -> Result<List<Elem>, Memory>
    ensures { IfOk result (λ elems. elems ≡ filter_map first_elem tuples.now) }
{
    let mut firsts = Vec::with_capacity(alloc, tuples.len())?;
    for tuple in tuples {
        if let Some(elem) = first_elem(tuple) {
            firsts.push(elem)?;
        }
    }
    Ok(List::from_vec(firsts))
}

/// The elements of the kind of a key's x, ascending: all edges of the graph, or all nodes. It takes a look-up for each.
pub fn each_element<G: GraphRead, L: Ledger>(
    alloc: Global,
    graph: &G,
    key: &PlannedKey,
    steps: &mut Steps<L>,
) -> Result<List<Elem>, Memory>
    ensures elems { IfOk result (λ elems. elems ≡ elements (G.meaning graph.now) (is_edge_var key.now.scope.edge_vars 0)) }
    ensures no_step_back { steps.old ≤ steps.new }
    ensures cost { steps.new ≤ steps.old + length (elements (G.meaning graph.now) (is_edge_var key.now.scope.edge_vars 0)) }
{
    if key.is_of_edges() {
        let ids = graph.edge_ids(alloc, steps)?;
        edge_elems(alloc, ids.as_slice())
    } else {
        let ids = graph.node_ids(alloc, steps)?;
        node_elems(alloc, ids.as_slice())
    }
}

fn node_elems(alloc: Global, ids: &[NodeId]) -> Result<List<Elem>, Memory>
    ensures { IfOk result (λ elems. elems ≡ map (λ id. Elem.Node id) ids.now) }
{
    let mut elems = Vec::with_capacity(alloc, ids.len())?;
    for id in ids {
        elems.push(Elem::Node(*id))?;
    }
    Ok(List::from_vec(elems))
}

fn edge_elems(alloc: Global, ids: &[EdgeId]) -> Result<List<Elem>, Memory>
    ensures { IfOk result (λ elems. elems ≡ map (λ id. Elem.Edge id) ids.now) }
{
    let mut elems = Vec::with_capacity(alloc, ids.len())?;
    for id in ids {
        elems.push(Elem::Edge(*id))?;
    }
    Ok(List::from_vec(elems))
}

/// The scope of a key, ascending, for a key whose types are those of the schema. The rule is `scope_of` of `pgs_syntax`. It asks
/// [`in_scope_learned`] once for each element of the kind of x, and what it learns of one serves all.
///
/// At every exit it has taken at most 17 * (d + 2)^(w + 1) look-ups for each of these, where no node of the graph has an in-degree plus
/// out-degree over d. Where the scope has no cycle and `Memory` doesn't come, it takes a look-up for each, and at most 440 times the
/// degrees plus 2 of all of these and of the pairs of a variable and an element that walks along the scope from them come to, each
/// counted once.
pub fn each_x<G: GraphRead, L: Ledger>(
    alloc: Global,
    graph: &G,
    compiled: &Compiled,
    key: &PlannedKey,
    steps: &mut Steps<L>,
) -> Result<List<Elem>, Memory>
    requires { is_valid_key_of compiled.now key.now ≡ true }
    ensures scope { IfOk result (λ elems. elems ≡ scope_of compiled.now (G.meaning graph.now) key.now) }
    ensures no_step_back { steps.old ≤ steps.new }
    ensures cost { (most : ℕ) → HasDegreesWithin (G.meaning graph.now) most →
        steps.new ≤ steps.old + length (elements (G.meaning graph.now) (is_edge_var key.now.scope.edge_vars 0))
        * (17 * (most + 2) ^ (most_edges key.now + 1)) }
    ensures once { has_no_cycle key.now.scope ≡ true → (pairs : List Stand) → ((elem : Elem) →
        Contains (elements (G.meaning graph.now) (is_edge_var key.now.scope.edge_vars 0)) elem → HasSearched compiled.now (G.meaning graph.now) key.now.scope elem pairs) →
        OnOk result (steps.new ≤ steps.old + length (elements (G.meaning graph.now) (is_edge_var key.now.scope.edge_vars 0))
        + 440 * sum_by (λ (elem : Elem). elem_degree (G.meaning graph.now) elem + 2) (elements (G.meaning graph.now) (is_edge_var key.now.scope.edge_vars 0))
        + 440 * sum_by (λ (stand : Stand). elem_degree (G.meaning graph.now) stand.elem + 2) pairs) }
{
    let elements = each_element(alloc, graph, key, steps)?;
    scope_among(alloc, graph, compiled, key, elements.as_slice(), steps)
}

// Those of some elements that are in the scope, in their order. What is learned of one serves all.
fn scope_among<G: GraphRead, L: Ledger>(
    alloc: Global,
    graph: &G,
    compiled: &Compiled,
    key: &PlannedKey,
    elems: &[Elem],
    steps: &mut Steps<L>,
) -> Result<List<Elem>, Memory>
    requires { is_valid_key_of compiled.now key.now ≡ true }
    ensures among { IfOk result (λ scope. scope ≡ filter (is_in_scope compiled.now (G.meaning graph.now) key.now) elems.now) }
    ensures no_step_back { steps.old ≤ steps.new }
    ensures cost { (most : ℕ) → HasDegreesWithin (G.meaning graph.now) most →
        steps.new ≤ steps.old + length elems.now * (16 * (most + 2) ^ (most_edges key.now + 1)) }
    ensures once { has_no_cycle key.now.scope ≡ true → (pairs : List Stand) → ((elem : Elem) →
        Contains elems.now elem → HasSearched compiled.now (G.meaning graph.now) key.now.scope elem pairs) →
        OnOk result (steps.new ≤ steps.old + 440 * sum_by (λ (elem : Elem). elem_degree (G.meaning graph.now) elem + 2) elems.now
        + 440 * sum_by (λ (stand : Stand). elem_degree (G.meaning graph.now) stand.elem + 2) pairs) }
{
    let mut learned = Learned::new(alloc);
    let mut scope = Vec::new(alloc);
    for elem in elems {
        let found = in_scope_learned(graph, compiled, key, *elem, &mut learned, steps)?;
        if found {
            scope.push(*elem)?;
        }
    }
    Ok(List::from_vec(scope))
}
