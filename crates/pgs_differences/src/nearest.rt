ghost use Rattle.std.specs.Prelude.{◌≡◌, ℕ, ◌&&◌, true, filter, count_by, nat_le, IfOk};
ghost use Rattle.std.specs.List.{list_all};
ghost use Rattle.std.specs.Option.{option_map_or};
ghost use Rattle.pgs_conform.specs.Shapes.{triple_of};
ghost use Rattle.pgs_differences.specs.declared.near_type.NearType.{NearType as ANearType};
ghost use Rattle.pgs_differences.specs.Nearest.{is_of_label, is_eligible_by, nearest, IsNodeCandidate, IsEdgeCandidate, AreNearest};

use crate::NearType;
use crate::candidates::{edge_candidates, node_candidates};
use crate::measuring::label_count;
use crate::ordering::first_by_measure;
use pgs_base::{List, Memory};
use pgs_conform::{Compiled, Pair};
use std::alloc::Global;

// How many types are told at most.
const MOST_TOLD: usize = 3;

// The lesser of two numbers, the first of which may be lacking.
fn lesser(fewest: Option<usize>, count: usize) -> Option<usize>
    ensures { (n : ℕ) → (option_map_or (nat_le n) fewest true && nat_le n count) ≡ option_map_or (nat_le n) result true }
{
    match fewest {
        Some(least) => Some(least.min(count)),
        None => Some(count),
    }
}

// The fewest differences of their own labels that any has. `None` where there is none.
fn fewest_in_labels(nears: &[NearType]) -> Option<usize>
    ensures { (n : ℕ) → list_all (λ (near : ANearType). nat_le n (count_by is_of_label near.own)) nears.now
        ≡ option_map_or (nat_le n) result true }
{
    let mut fewest = None;
    for near in nears {
        fewest = lesser(fewest, label_count(near.own.as_slice()));
    }
    fewest
}

// Whether a count is as few as the fewest.
fn is_fewest(count: usize, fewest: Option<usize>) -> bool
    ensures { result ≡ option_map_or (nat_le count) fewest true }
{
    match fewest {
        Some(least) => count <= least,
        None => true,
    }
}

// Whether one has no more differences of its own labels than the fewest, or is of an edge whose ends fit.
fn is_eligible(near: &NearType, fewest: Option<usize>) -> bool
    ensures { result ≡ is_eligible_by fewest near.now }
{
    near.has_fitting_ends() || is_fewest(label_count(near.own.as_slice()), fewest)
}

// Those that are eligible.
fn eligible(
    alloc: Global,
    nears: Vec<NearType>,
    fewest: Option<usize>,
) -> Result<Vec<NearType>, Memory>
    ensures { IfOk result (λ kept. kept.items ≡ filter (is_eligible_by fewest) nears.items) }
{
    let mut kept = Vec::new(alloc);
    for near in nears {
        if is_eligible(&near, fewest) {
            kept.push(near)?;
        }
    }
    Ok(kept)
}

// The nearest of candidates.
fn nearest(alloc: Global, nears: Vec<NearType>) -> Result<List<NearType>, Memory>
    ensures { IfOk result (λ told. told ≡ nearest nears.items) }
{
    let fewest = fewest_in_labels(nears.as_slice());
    let kept = eligible(alloc, nears, fewest)?;
    let told = first_by_measure(alloc, kept, MOST_TOLD)?;
    Ok(List::from_vec(told))
}

/// The types of the guard that a node comes nearest to, at most three, the nearest first: of those with the fewest differences in
/// labels the ones with the fewest others, and of these the first in the guard. None is ABSTRACT or fitted by nothing, and there is none
/// exactly where no other is of the guard. The rule is in `specs/Nearest.antt`.
pub fn nearest_node_types(
    alloc: Global,
    compiled: &Compiled,
    own: &Pair<'_>,
) -> Result<List<NearType>, Memory>
    ensures { IfOk result (λ told. AreNearest (IsNodeCandidate compiled.now own.now) compiled.now.guard.types told) }
{
    let nears = node_candidates(alloc, compiled, own)?;
    nearest(alloc, nears)
}

/// The types of the guard that an edge comes nearest to, by the pairs of its source, of itself and of its target: at most three, the
/// nearest first, of those with the fewest differences of their own labels or whose ends fit. The rule is in `specs/Nearest.antt`.
pub fn nearest_edge_types(
    alloc: Global,
    compiled: &Compiled,
    source: &Pair<'_>,
    own: &Pair<'_>,
    target: &Pair<'_>,
) -> Result<List<NearType>, Memory>
    ensures { IfOk result (λ told.
        AreNearest (IsEdgeCandidate compiled.now (triple_of source.now own.now target.now)) compiled.now.guard.types told) }
{
    let nears = edge_candidates(alloc, compiled, source, own, target)?;
    nearest(alloc, nears)
}
