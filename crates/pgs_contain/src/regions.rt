//! Regions, and what others leave of one.

ghost use Rattle.std.specs.Prelude.{◌≡◌, ◌<◌, ◌≤◌, ◌&&◌, ◌||◌, true, false, not, ◌∷◌, ◌++◌, length, IfOk, OnOk, MatchOption, IfSome, slice_get, Some};
ghost use Rattle.std.specs.List.{list_all, list_any};
ghost use Rattle.pgs_contain.specs.Regions.{Point, in_region, in_some_region, is_possible, without, lies_in, meets, IsCovered, IsLeft};

use crate::options::{common_options, is_possible, is_within, without};
use pgs_base::{List, Memory};
use pgs_conform::Options;
use std::alloc::Global;

// Whether each key's options lie within those of another region.
fn lies_in(region: &[Options], other: &[Options]) -> bool
    ensures { result ≡ lies_in region.now other.now }
{
    let mut left = region;
    let mut right = other;
    while let [own, owns @ ..] = left {
        let [wide, wides @ ..] = right else {
            return false;
        };
        if !is_within(*own, *wide) {
            return false;
        }
        left = owns;
        right = wides;
    }
    right.is_empty()
}

// Whether two regions have a point in common.
fn meets(region: &[Options], other: &[Options]) -> bool
    ensures { result ≡ meets region.now other.now }
{
    let mut left = region;
    let mut right = other;
    while let [own, owns @ ..] = left {
        let [wide, wides @ ..] = right else {
            return false;
        };
        if !is_possible(common_options(*own, *wide)) {
            return false;
        }
        left = owns;
        right = wides;
    }
    right.is_empty()
}

// Whether a region lies in one of others.
fn lies_in_one(region: &[Options], taken: &[List<Options>]) -> bool
    ensures { result ≡ list_any (λ other. lies_in region.now other) taken.now }
{
    taken.iter().any(|other| lies_in(region, other.as_slice()))
}

// The regions from the first on that a region meets; it has no point of those before.
fn from_first_met<'a>(region: &[Options], taken: &'a [List<Options>]) -> &'a [List<Options>]
    ensures same { (v : Point) → in_region region.now v ≡ true → in_some_region taken.now v ≡ in_some_region result.now v }
    ensures shorter { length result.now ≤ length taken.now }
    ensures met { IfSome (slice_get result.now 0) (λ first. meets region.now first ≡ true) }
{
    let mut left = taken;
    while let [first, later @ ..] = left {
        if meets(region, first.as_slice()) {
            return left;
        }
        left = later;
    }
    left
}

// The options before a key, those at it and those after it, as one region.
fn with_key(
    alloc: Global,
    before: &[Options],
    own: Options,
    after: &[Options],
) -> Result<List<Options>, Memory>
    ensures { IfOk result (λ region. region ≡ before.now ++ own ∷ after.now) }
{
    let mut region = Vec::with_capacity(alloc, before.len().saturating_add(after.len()))?;
    region.extend_from_slice(before)?;
    region.push(own)?;
    region.extend_from_slice(after)?;
    Ok(List::from_vec(region))
}

// Puts last the part that is wrong for another region at one key, where it has a point there: before the key it has what was kept.
fn push_wrong(
    alloc: Global,
    kept: &[Options],
    own: &Options,
    other: &Options,
    after: &[Options],
    parts: &mut Vec<List<Options>>,
) -> Result<(), Memory>
    ensures { OnOk result ((v : Point) → in_some_region parts.new.items v
        ≡ (in_some_region parts.old.items v || in_region (kept.now ++ without own.now other.now ∷ after.now) v)) }
{
    let wrong = without(*own, *other);
    if is_possible(wrong) {
        let part = with_key(alloc, kept, wrong, after)?;
        parts.push(part)?;
    }
    Ok(())
}

// What another region leaves of one, in parts: each is wrong for the other at one key.
fn parts_left(
    alloc: Global,
    region: &[Options],
    taken: &[Options],
) -> Result<List<List<Options>>, Memory>
    requires { length region.now ≡ length taken.now }
    ensures { IfOk result (λ parts. (v : Point) →
        in_some_region parts v ≡ (in_region region.now v && not (in_region taken.now v))) }
{
    let mut parts = Vec::new(alloc);
    let mut kept = Vec::with_capacity(alloc, region.len())?;
    let mut left = region;
    let mut right = taken;
    while let [own, owns @ ..] = left {
        let [other, others @ ..] = right else {
            unreachable!()
        };
        push_wrong(alloc, kept.as_slice(), own, other, owns, &mut parts)?;
        let both = common_options(*own, *other);
        kept.push(both)?;
        left = owns;
        right = others;
    }
    Ok(List::from_vec(parts))
}

// Whether something may stand at each key.
fn has_point(region: &[Options]) -> bool
    ensures { result ≡ list_all is_possible region.now }
{
    region.iter().all(|options| is_possible(*options))
}

// The whole region, where it has a point.
fn whole(alloc: Global, region: &[Options]) -> Result<Option<List<Options>>, Memory>
    ensures { IfOk result (λ answer. MatchOption answer (list_all is_possible region.now ≡ false)
        (λ found. (found ≡ region.now) × (list_all is_possible region.now ≡ true))) }
{
    if has_point(region) {
        let found = List::from_slice(alloc, region)?;
        Ok(Some(found))
    } else {
        Ok(None)
    }
}

/// A region of points of a region that are in none of others, and something may stand at each of its keys. `None` exactly where each
/// point is in some of the others.
pub(crate) fn left_of(
    alloc: Global,
    region: &[Options],
    taken: &[List<Options>],
) -> Result<Option<List<Options>>, Memory>
    ensures { IfOk result (λ answer. MatchOption answer (IsCovered region.now taken.now) (IsLeft region.now taken.now)) }
{
    if lies_in_one(region, taken) {
        return Ok(None);
    }
    let met = from_first_met(region, taken);
    let [first, later @ ..] = met else {
        return whole(alloc, region);
    };
    let parts = parts_left(alloc, region, first.as_slice())?;
    for part in parts.as_slice() {
        let found = left_of(alloc, part.as_slice(), later)?;
        if found.is_some() {
            return Ok(found);
        }
    }
    Ok(None)
}
