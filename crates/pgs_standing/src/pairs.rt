//! The plainest pair that is in two lists of shapes.

ghost use Rattle.std.specs.Prelude.{◌≡◌, ◌&&◌, IfOk};
ghost use Rattle.pgs_conform.specs.Shapes.{in_shape, in_some};
ghost use Rattle.pgs_standing.specs.Example.{IsFoundPair};
ghost use Rattle.pgs_standing.specs.Standing.{is_small};

use crate::choice::smaller_pair;
use crate::in_common::common;
use crate::least::plain_pair;
use pgs_base::Memory;
use pgs_conform::Shape;
use pgs_contain::OwnedPair;
use std::alloc::Global;

// The plainest pair in two shapes.
fn plain_in_both(alloc: Global, first: &Shape, second: &Shape) -> Result<Option<OwnedPair>, Memory>
    ensures { IfOk result (IsFoundPair (λ p. is_small p && (in_shape first.now p && in_shape second.now p))) }
{
    let Some(shape) = common(alloc, first, second)? else {
        return Ok(None);
    };
    plain_pair(alloc, &shape)
}

/// The plainest pair in a shape and in some of others.
pub(crate) fn plain_in_some(
    alloc: Global,
    shape: &Shape,
    others: &[Shape],
) -> Result<Option<OwnedPair>, Memory>
    ensures { IfOk result (IsFoundPair (λ p. is_small p && (in_shape shape.now p && in_some others.now p))) }
{
    let mut found = None;
    for other in others {
        let next = plain_in_both(alloc, shape, other)?;
        found = smaller_pair(found, next);
    }
    Ok(found)
}

/// The plainest pair in some shapes and in some of others.
pub(crate) fn plain_in_lists(
    alloc: Global,
    shapes: &[Shape],
    others: &[Shape],
) -> Result<Option<OwnedPair>, Memory>
    ensures { IfOk result (IsFoundPair (λ p. is_small p && (in_some shapes.now p && in_some others.now p))) }
{
    let mut found = None;
    for shape in shapes {
        let next = plain_in_some(alloc, shape, others)?;
        found = smaller_pair(found, next);
    }
    Ok(found)
}
