ghost use Rattle.std.specs.Prelude.{◌≡◌, ◌≤◌, true, IfOk};
ghost use Rattle.std.specs.List.{list_all};
ghost use Rattle.pgs_match.specs.Planned.{first_elem};
ghost use Rattle.pgs_pattern_end.specs.End.{first_of, is_front_of, is_placed, is_defined, least_before, IsEnd};

use crate::{Front, PatternEnd};
use pgs_base::{Elem, Memory, Part, Steps, Tuple};
use pgs_conform::Compiled;
use pgs_graph::GraphRead;
use pgs_match::{in_scope, key_values};
use std::alloc::Global;
use std::sync::ledger::Ledger;

// Whether some match of the places up to a part starts at an element.
fn is_placed<G: GraphRead, L: Ledger>(
    graph: &G,
    compiled: &Compiled,
    front: &Front,
    elem: Elem,
    steps: &mut Steps<L>,
) -> bool
    requires { is_front_of compiled.now front.now ≡ true }
    ensures value { result ≡ is_placed compiled.now (G.meaning graph.now) elem front.now }
    ensures no_step_back { steps.old ≤ steps.new }
{
    in_scope(graph, compiled, &front.upto, elem, steps)
}

// Whether some match that starts at an element defines all expressions up to a part.
fn is_defined<G: GraphRead, L: Ledger>(
    alloc: Global,
    graph: &G,
    compiled: &Compiled,
    front: &Front,
    elem: Elem,
    steps: &mut Steps<L>,
) -> Result<bool, Memory>
    requires { is_front_of compiled.now front.now ≡ true }
    ensures value { IfOk result (λ defined. defined ≡ is_defined compiled.now (G.meaning graph.now) elem front.now) }
    ensures no_step_back { steps.old ≤ steps.new }
{
    let tuples = key_values(alloc, graph, compiled, &front.upto, elem, steps)?;
    match tuples.as_slice() {
        [] => Ok(false),
        _ => Ok(true),
    }
}

// The element that the first of some tuples begins with.
fn first_of(tuples: &[Tuple]) -> Option<Elem>
    ensures { result ≡ first_of tuples.now }
{
    match tuples {
        [] => None,
        [tuple, ..] => match tuple.parts().first() {
            Some(Part::Elem(elem)) => Some(*elem),
            _ => None,
        },
    }
}

// The least element that the variable of a part takes in the matches of what is before it.
fn least_before<G: GraphRead, L: Ledger>(
    alloc: Global,
    graph: &G,
    compiled: &Compiled,
    front: &Front,
    elem: Elem,
    steps: &mut Steps<L>,
) -> Result<Option<Elem>, Memory>
    requires { is_front_of compiled.now front.now ≡ true }
    ensures value { IfOk result (λ least. least ≡ least_before compiled.now (G.meaning graph.now) elem front.now) }
    ensures no_step_back { steps.old ≤ steps.new }
{
    let tuples = key_values(alloc, graph, compiled, &front.before, elem, steps)?;
    Ok(first_of(tuples.as_slice()))
}

/// Where the places of a pattern end at an element, in the order of a walk from x, which is given: the first place such that no match
/// of the places up to it starts at the element, though one of those before it does, and the least element at which the walk comes
/// to it. `None` where a match of all starts there. All keys are of the schema.
pub fn place_end<G: GraphRead, L: Ledger>(
    alloc: Global,
    graph: &G,
    compiled: &Compiled,
    fronts: &[Front],
    elem: Elem,
    steps: &mut Steps<L>,
) -> Result<Option<PatternEnd>, Memory>
    requires { list_all (is_front_of compiled.now) fronts.now ≡ true }
    ensures end { IfOk result (IsEnd (is_placed compiled.now (G.meaning graph.now) elem)
        (least_before compiled.now (G.meaning graph.now) elem) fronts.now) }
    ensures no_step_back { steps.old ≤ steps.new }
{
    for (part, front) in fronts.iter().enumerate() {
        if !is_placed(graph, compiled, front, elem, steps) {
            let from = least_before(alloc, graph, compiled, front, elem, steps)?;
            return Ok(Some(PatternEnd { part, from }));
        }
    }
    Ok(None)
}

/// Where the expressions of a key end at an element: the first such that no match that starts at the element defines it and all before
/// it, and the least element that its variable takes where those before are defined. `None` where a match defines all. All keys are of
/// the schema.
pub fn expression_end<G: GraphRead, L: Ledger>(
    alloc: Global,
    graph: &G,
    compiled: &Compiled,
    fronts: &[Front],
    elem: Elem,
    steps: &mut Steps<L>,
) -> Result<Option<PatternEnd>, Memory>
    requires { list_all (is_front_of compiled.now) fronts.now ≡ true }
    ensures end { IfOk result (IsEnd (is_defined compiled.now (G.meaning graph.now) elem)
        (least_before compiled.now (G.meaning graph.now) elem) fronts.now) }
    ensures no_step_back { steps.old ≤ steps.new }
{
    for (part, front) in fronts.iter().enumerate() {
        let defined = is_defined(alloc, graph, compiled, front, elem, steps)?;
        if !defined {
            let from = least_before(alloc, graph, compiled, front, elem, steps)?;
            return Ok(Some(PatternEnd { part, from }));
        }
    }
    Ok(None)
}
