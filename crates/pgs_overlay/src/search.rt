ghost use Rattle.std.specs.Prelude.{◌≡◌, ◌+◌, ◌-◌, ◌*◌, ◌^◌, ◌<◌, ◌≤◌, ℕ, length, MatchResult, IfSome, true, false};
ghost use Rattle.std.specs.List.Sorted.{IsStrictlySortedBy};
ghost use Rattle.pgs_base.specs.Graph.{edge_cmp};
ghost use Rattle.pgs_tables_edges.specs.Numbers.{AllBelow, IsBetween};
ghost use Rattle.pgs_overlay.specs.Found.{AllFrom, IsLower, StandsAt};

use crate::base_list::BaseList;
use pgs_base::{EdgeId, Steps};
use pgs_graph::GraphRead;
use std::sync::ledger::Ledger;

// Whether an edge of a lower number stands at a place.
fn is_below<B: GraphRead, L: Ledger>(
    list: &BaseList<'_, B>,
    place: usize,
    edge: EdgeId,
    steps: &mut Steps<L>,
) -> bool
    ensures lower { result ≡ true → IsLower edge list.now place }
    ensures others { result ≡ false → AllFrom edge list.now place }
    ensures tick { steps.new ≡ steps.old + 1 }
{
    match list.at(place, steps) {
        Some(found) => found.0 < edge.0,
        None => false,
    }
}

// A place before which all edges are lower, and a later one from which none is, found in steps that double.
fn bounds<B: GraphRead, L: Ledger>(
    list: &BaseList<'_, B>,
    from: usize,
    edge: EdgeId,
    steps: &mut Steps<L>,
) -> (usize, usize)
    requires in_range { from ≤ length list.now }
    requires lower { AllBelow edge list.now from }
    ensures in_range { result.0 ≤ length list.now }
    ensures order { result.0 ≤ result.1 }
    ensures lower { AllBelow edge list.now result.0 }
    ensures upper { AllFrom edge list.now result.1 }
    ensures near { result.1 + from ≤ result.0 + result.0 }
    ensures never_back { steps.old ≤ steps.new }
    ensures cost { (k : ℕ) → length list.now < 2 ^ k → steps.new ≤ steps.old + k + 1 }
{
    list.facts();
    let mut low = from;
    let mut step = 1;
    loop {
        let place = low.saturating_add(step - 1);
        if !is_below(list, place, edge, steps) {
            return (low, place);
        }
        low = place + 1;
        step = step.saturating_mul(2);
    }
}

// The first place from which no edge is lower, between a place before which all are and one from which none is.
fn place_between<B: GraphRead, L: Ledger>(
    list: &BaseList<'_, B>,
    bounds: (usize, usize),
    edge: EdgeId,
    steps: &mut Steps<L>,
) -> usize
    requires in_range { bounds.0 ≤ length list.now }
    requires order { bounds.0 ≤ bounds.1 }
    requires lower { AllBelow edge list.now bounds.0 }
    requires upper { AllFrom edge list.now bounds.1 }
    ensures in_range { result ≤ length list.now }
    ensures lower { AllBelow edge list.now result }
    ensures upper { AllFrom edge list.now result }
    ensures never_back { steps.old ≤ steps.new }
    ensures cost { (k : ℕ) → bounds.1 < bounds.0 + 2 ^ k → steps.new ≤ steps.old + k }
{
    let (mut low, mut high) = bounds;
    while low < high {
        let middle = low + (high - low) / 2;
        if is_below(list, middle, edge, steps) {
            low = middle + 1;
        } else {
            high = middle;
        }
    }
    low
}

// The first place from which no edge is lower, where no number is missing between the edge at a place and there: its number tells how far
// that is. So it is where edges were numbered one after another. At most two looks.
fn without_gap<B: GraphRead, L: Ledger>(
    list: &BaseList<'_, B>,
    from: usize,
    edge: EdgeId,
    steps: &mut Steps<L>,
) -> Option<usize>
    requires in_range { from ≤ length list.now }
    requires lower { AllBelow edge list.now from }
    ensures in_range { IfSome result (λ place. place ≤ length list.now) }
    ensures lower { IfSome result (AllBelow edge list.now) }
    ensures upper { IfSome result (AllFrom edge list.now) }
    ensures never_back { steps.old ≤ steps.new }
    ensures cost { steps.new ≤ steps.old + 2 }
{
    let Some(found) = list.at(from, steps) else {
        return Some(from);
    };
    if edge.0 <= found.0 {
        return Some(from);
    }
    let missing = (edge.0 - found.0 - 1) as usize;
    list.facts();
    let place = from.saturating_add(missing);
    if is_below(list, place, edge, steps) {
        Some(place + 1)
    } else {
        None
    }
}

// The first place from which no edge is lower, at or behind a place before which all are.
fn lower_bound<B: GraphRead, L: Ledger>(
    list: &BaseList<'_, B>,
    from: usize,
    edge: EdgeId,
    steps: &mut Steps<L>,
) -> usize
    requires in_range { from ≤ length list.now }
    requires lower { AllBelow edge list.now from }
    ensures in_range { result ≤ length list.now }
    ensures lower { AllBelow edge list.now result }
    ensures upper { AllFrom edge list.now result }
    ensures never_back { steps.old ≤ steps.new }
    ensures cost { (k : ℕ) → length list.now < 2 ^ k → steps.new ≤ steps.old + 2 * k + 3 }
{
    if let Some(place) = without_gap(list, from, edge, steps) {
        return place;
    }
    let bounds = bounds(list, from, edge, steps);
    place_between(list, bounds, edge, steps)
}

/// Where an edge stands in a list of the base, or where it would go, at or behind a place before which all edges are lower.
pub fn search<B: GraphRead, L: Ledger>(
    list: &BaseList<'_, B>,
    from: usize,
    edge: EdgeId,
    steps: &mut Steps<L>,
) -> Result<usize, usize>
    requires in_range { from ≤ length list.now }
    requires lower { AllBelow edge list.now from }
    ensures place { MatchResult result (StandsAt edge list.now)
        (IsBetween edge list.now) }
    ensures ascending { IsStrictlySortedBy edge_cmp list.now }
    ensures never_back { steps.old ≤ steps.new }
    ensures cost { (k : ℕ) → length list.now < 2 ^ k → steps.new ≤ steps.old + 2 * k + 4 }
{
    let place = lower_bound(list, from, edge, steps);
    match list.at(place, steps) {
        Some(found) if found.0 == edge.0 => Ok(place),
        _ => Err(place),
    }
}
