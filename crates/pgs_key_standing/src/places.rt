//! The shapes of places, and what is left of them where one more is asked of some place.

ghost use Rattle.std.specs.Prelude.{◌≡◌, ◌&&◌, ◌∷◌, ◌++◌, List as Items, true, IfOk, OnOk, MatchBool};
ghost use Rattle.pgs_base.specs.declared.row.NodeRow.{NodeRow};
ghost use Rattle.pgs_base.specs.Pair.{is_pair};
ghost use Rattle.pgs_conform.specs.Shapes.{in_shape};
ghost use Rattle.pgs_standing.specs.Common.{in_common};
ghost use Rattle.pgs_standing.specs.Standing.{is_small};
ghost use Rattle.pgs_key_standing.specs.Demands.{are_small, are_in, is_in, are_in_three, in_way, AreSame, HaveSmall, LackSmall};

use pgs_base::{List, Memory};
use pgs_conform::{Shape, Triple};
use pgs_product::copy_shape;
use pgs_standing::{common, plain_pair};
use std::alloc::Global;

// Puts shapes last.
fn push_copies(alloc: Global, shapes: &[Shape], all: &mut Vec<Shape>) -> Result<(), Memory>
    ensures { OnOk result (AreSame all.new.items (all.old.items ++ shapes.now)) }
{
    for shape in shapes {
        let copy = copy_shape(alloc, shape)?;
        all.push(copy)?;
    }
    Ok(())
}

// Shapes with one between them.
fn with_between(
    alloc: Global,
    before: &[Shape],
    own: Shape,
    after: &[Shape],
) -> Result<List<Shape>, Memory>
    ensures { IfOk result (λ places. AreSame places (before.now ++ own ∷ after.now)) }
{
    let mut places = Vec::with_capacity(alloc, before.len())?;
    push_copies(alloc, before, &mut places)?;
    places.push(own)?;
    push_copies(alloc, after, &mut places)?;
    Ok(List::from_vec(places))
}

// What a shape and another have in common, where a small pair is in it.
fn common_pairs(alloc: Global, first: &Shape, second: &Shape) -> Result<Option<Shape>, Memory>
    ensures { IfOk result (λ answer. (p : NodeRow) → (is_pair p && is_small p) ≡ true → in_common answer p ≡ (in_shape first.now p && in_shape second.now p)) }
{
    let Some(shape) = common(alloc, first, second)? else {
        return Ok(None);
    };
    let least = plain_pair(alloc, &shape)?;
    if least.is_none() {
        return Ok(None);
    }
    Ok(Some(shape))
}

/// What is left of the shapes of places where a shape is asked of one place. `None` where nothing is.
pub(crate) fn narrowed(
    alloc: Global,
    places: &[Shape],
    place: usize,
    shape: &Shape,
) -> Result<Option<List<Shape>>, Memory>
    ensures { IfOk result (λ answer. (ps : Items NodeRow) → are_small ps ≡ true → in_way answer ps ≡ (are_in places.now ps && is_in ps place shape.now)) }
{
    if place >= places.len() {
        return Ok(None);
    }
    let (before, rest) = places.split_at(place);
    let [old, after @ ..] = rest else {
        return Ok(None);
    };
    let Some(own) = common_pairs(alloc, old, shape)? else {
        return Ok(None);
    };
    let next = with_between(alloc, before, own, after)?;
    Ok(Some(next))
}

/// What is left of them where three shapes are asked of three places. `None` where nothing is.
pub(crate) fn narrowed_by_three(
    alloc: Global,
    places: &[Shape],
    at: (usize, usize, usize),
    shapes: &Triple,
) -> Result<Option<List<Shape>>, Memory>
    ensures { IfOk result (λ answer. (ps : Items NodeRow) → are_small ps ≡ true →
        in_way answer ps ≡ (are_in places.now ps && are_in_three ps at.0 at.1 at.2 shapes.now)) }
{
    let Some(first) = narrowed(alloc, places, at.0, &shapes.source)? else {
        return Ok(None);
    };
    let Some(second) = narrowed(alloc, first.as_slice(), at.1, &shapes.middle)? else {
        return Ok(None);
    };
    narrowed(alloc, second.as_slice(), at.2, &shapes.target)
}

/// Whether a small pair is in the shape of each place.
pub(crate) fn have_small(alloc: Global, places: &[Shape]) -> Result<bool, Memory>
    ensures { IfOk result (λ all. MatchBool all (HaveSmall places.now) (LackSmall places.now)) }
{
    for shape in places {
        let found = plain_pair(alloc, shape)?;
        if found.is_none() {
            return Ok(false);
        }
    }
    Ok(true)
}
