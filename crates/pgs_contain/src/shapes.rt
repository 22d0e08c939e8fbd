//! Are the pairs of some shapes in others?

ghost use Rattle.std.specs.Prelude.{◌≡◌, true, ◌∷◌, [], IfOk, MatchOption};
ghost use Rattle.std.specs.List.{list_all};
ghost use Rattle.pgs_contain.specs.Contained.{pair_in};
ghost use Rattle.pgs_contain.specs.Frames.{in_some_of, IsFramed, IsInOthers, AreInOthers, IsOutOfOthers};
ghost use Rattle.pgs_contain.specs.Known.{lacks_label};
ghost use Rattle.pgs_contain.specs.Regions.{Leaves};

use crate::OwnedPair;
use crate::frame::{Frame, frame_labels, frame_of, regions_of};
use crate::further::Further;
use crate::regions::left_of;
use crate::vocabulary::vocabulary_of;
use crate::witness::plain_pair;
use pgs_base::{List, Memory};
use pgs_conform::{Options, Shape};
use std::alloc::Global;

// What other shapes leave of the region of a frame.
fn left_in_frame(
    alloc: Global,
    frame: &Frame,
    others: &[Shape],
) -> Result<Option<List<Options>>, Memory>
    ensures { IfOk result (Leaves (in_some_of others.now frame.now.labels frame.now.keys) frame.now.region) }
{
    let taken = regions_of(alloc, others, frame)?;
    left_of(alloc, frame.region.as_slice(), taken.as_slice())
}

// The frame of a shape, by those others that may have its labels.
fn frame_among(
    alloc: Global,
    shape: &Shape,
    others: &[Shape],
    further: &Further<'_>,
) -> Result<Frame, Memory>
    ensures { IfOk result (IsFramed further.now.name further.now.avoid.now shape.now others.now) }
{
    let labels = frame_labels(alloc, shape, &further.name)?;
    let words = vocabulary_of(alloc, shape, &labels, others, further)?;
    frame_of(alloc, shape, labels, &words)
}

// A pair of a shape that is in none of others. `None` exactly where there is none.
fn outside_of_shape(
    alloc: Global,
    shape: &Shape,
    others: &[Shape],
    further: &Further<'_>,
) -> Result<Option<OwnedPair>, Memory>
    requires { list_all (lacks_label further.now.name) others.now ≡ true }
    ensures { IfOk result (λ answer. MatchOption answer (IsInOthers shape.now others.now)
        (λ own. IsOutOfOthers further.now.avoid.now (shape.now ∷ []) others.now (pair_in own))) }
{
    let frame = frame_among(alloc, shape, others, further)?;
    frame.facts();
    let left = left_in_frame(alloc, &frame, others)?;
    match left {
        None => Ok(None),
        Some(found) => {
            let own = plain_pair(alloc, &frame, found.as_slice())?;
            Ok(Some(own))
        }
    }
}

/// A pair of some shapes that is in none of others, and is strange to the names to avoid. `None` exactly where there is none.
pub(crate) fn outside_of_shapes(
    alloc: Global,
    shapes: &[Shape],
    others: &[Shape],
    further: &Further<'_>,
) -> Result<Option<OwnedPair>, Memory>
    requires { list_all (lacks_label further.now.name) others.now ≡ true }
    ensures { IfOk result (λ answer. MatchOption answer (AreInOthers shapes.now others.now)
        (λ own. IsOutOfOthers further.now.avoid.now shapes.now others.now (pair_in own))) }
{
    for shape in shapes {
        let found = outside_of_shape(alloc, shape, others, further)?;
        if found.is_some() {
            return Ok(found);
        }
    }
    Ok(None)
}
