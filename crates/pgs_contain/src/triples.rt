//! Are the triples of pairs of some triples of shapes in others? The three regions of a triple stand one after another as one.

ghost use Rattle.std.specs.Prelude.{◌≡◌, ◌+◌, ◌++◌, ◌∷◌, [], true, length, IfOk, MatchOption};
ghost use Rattle.std.specs.List.{list_all, list_any};
ghost use Rattle.std.specs.Ordering.{nat_cmp};
ghost use Rattle.std.specs.Cmp.Lexicographic.{slice_cmp};
ghost use Rattle.pgs_base.specs.Order.{ascends};
ghost use Rattle.pgs_contain.specs.Known.{lacks_label_three};
ghost use Rattle.pgs_contain.specs.Regions.{Point, in_some_region, Leaves};
ghost use Rattle.pgs_contain.specs.Threes.{three_of, region_in, AreFramed, ArePlainest, owned_triple, may_have_three, options_of_three, in_some_three, labels_of_three, AreFramesOf, LeavesThree, has_frames, IsInOtherTriples, AreInOtherTriples, IsOutOfOtherTriples};

use crate::OwnedPair;
use crate::frame::{Frame, frame_labels, frame_of, lies_in_shape, may_have, options_of};
use crate::further::Further;
use crate::labels_of_three::LabelsOfThree;
use crate::regions::left_of;
use crate::vocabulary::{Vocabulary, vocabulary_of_triple};
use crate::witness::plain_pair;
use pgs_base::{List, Memory, Name};
use pgs_conform::{Options, Triple};
use std::alloc::Global;

/// The frames of a triple of shapes.
#[derive(Drop)]
pub(crate) struct Frames {
    source: Frame,
    middle: Frame,
    target: Frame,
}

/// Pairs of an edge's source, of the edge itself and of its target.
#[derive(Drop)]
pub struct OwnedTriple {
    pub source: OwnedPair,
    pub middle: OwnedPair,
    pub target: OwnedPair,
}

// The labels of the frames of a triple of shapes.
fn labels_of_three(alloc: Global, triple: &Triple, further: &Name) -> Result<LabelsOfThree, Memory>
    ensures { IfOk result (λ labels. labels ≡ labels_of_three triple.now further.now) }
{
    let source = frame_labels(alloc, &triple.source, further)?;
    let middle = frame_labels(alloc, &triple.middle, further)?;
    let target = frame_labels(alloc, &triple.target, further)?;
    Ok(LabelsOfThree {
        source,
        middle,
        target,
    })
}

// The frames of a triple of shapes, of these labels.
fn frames_of(
    alloc: Global,
    triple: &Triple,
    labels: LabelsOfThree,
    words: &Vocabulary,
) -> Result<Frames, Memory>
    ensures { IfOk result (AreFramesOf triple.now labels words.now.keys words.now.key) }
{
    let LabelsOfThree {
        source,
        middle,
        target,
    } = labels;
    let source = frame_of(alloc, &triple.source, source, words)?;
    let middle = frame_of(alloc, &triple.middle, middle, words)?;
    let target = frame_of(alloc, &triple.target, target, words)?;
    Ok(Frames {
        source,
        middle,
        target,
    })
}

// The frames of a triple of shapes, by those others that may have its labels.
fn frames_among(
    alloc: Global,
    triple: &Triple,
    others: &[Triple],
    further: &Further<'_>,
) -> Result<Frames, Memory>
    ensures { IfOk result (AreFramed further.now.name further.now.avoid.now triple.now others.now) }
{
    let labels = labels_of_three(alloc, triple, &further.name)?;
    let words = vocabulary_of_triple(alloc, triple, &labels, others, further)?;
    frames_of(alloc, triple, labels, &words)
}

impl Frames {
    // What all frames meet: their keys ascend. Nothing is done.
    fn facts(&self)
        ensures { (ascends (slice_cmp nat_cmp) self.now.source.keys ≡ true) × (ascends (slice_cmp nat_cmp) self.now.middle.keys ≡ true)
            × (ascends (slice_cmp nat_cmp) self.now.target.keys ≡ true) }
    {
        self.source.facts();
        self.middle.facts();
        self.target.facts();
    }
}

// Three regions, one after another as one.
fn region_of_three(
    alloc: Global,
    source: &[Options],
    middle: &[Options],
    target: &[Options],
) -> Result<List<Options>, Memory>
    ensures { IfOk result (λ region. region ≡ source.now ++ (middle.now ++ target.now)) }
{
    let mut region = Vec::new(alloc);
    region.extend_from_slice(source)?;
    region.extend_from_slice(middle)?;
    region.extend_from_slice(target)?;
    Ok(List::from_vec(region))
}

// The regions of frames, one after another as one.
fn region_in(alloc: Global, frames: &Frames) -> Result<List<Options>, Memory>
    ensures { IfOk result (λ region. region ≡ region_in frames.now) }
{
    region_of_three(
        alloc,
        frames.source.region.as_slice(),
        frames.middle.region.as_slice(),
        frames.target.region.as_slice(),
    )
}

// Whether another triple of shapes may have a triple of pairs of the frames.
fn may_have_three(triple: &Triple, frames: &Frames) -> bool
    ensures { result ≡ may_have_three triple.now (three_of frames.now) }
{
    may_have(&triple.source, &frames.source)
        && may_have(&triple.middle, &frames.middle)
        && may_have(&triple.target, &frames.target)
}

// What another triple of shapes says of the keys of the frames.
fn options_of_three(
    alloc: Global,
    triple: &Triple,
    frames: &Frames,
) -> Result<List<Options>, Memory>
    ensures { IfOk result (λ region. region ≡ options_of_three triple.now (three_of frames.now)) }
{
    let source = options_of(alloc, &triple.source, frames.source.keys.as_slice())?;
    let middle = options_of(alloc, &triple.middle, frames.middle.keys.as_slice())?;
    let target = options_of(alloc, &triple.target, frames.target.keys.as_slice())?;
    region_of_three(
        alloc,
        source.as_slice(),
        middle.as_slice(),
        target.as_slice(),
    )
}

// What the triples of shapes that may have a triple of pairs of the frames say of their keys.
fn regions_of_triples(
    alloc: Global,
    triples: &[Triple],
    frames: &Frames,
) -> Result<List<List<Options>>, Memory>
    ensures { IfOk result (λ regions. (v : Point) → in_some_region regions v ≡ in_some_three triples.now (three_of frames.now) v) }
{
    let mut regions = Vec::new(alloc);
    for triple in triples {
        if may_have_three(triple, frames) {
            regions.push(options_of_three(alloc, triple, frames)?)?;
        }
    }
    Ok(List::from_vec(regions))
}

// Whether a triple of shapes has each triple of pairs of frames.
fn has_frames(triple: &Triple, frames: &Frames) -> bool
    ensures { result ≡ has_frames frames.now triple.now }
{
    may_have_three(triple, frames)
        && lies_in_shape(
            frames.source.region.as_slice(),
            frames.source.keys.as_slice(),
            &triple.source,
        )
        && lies_in_shape(
            frames.middle.region.as_slice(),
            frames.middle.keys.as_slice(),
            &triple.middle,
        )
        && lies_in_shape(
            frames.target.region.as_slice(),
            frames.target.keys.as_slice(),
            &triple.target,
        )
}

// Whether one of some triples of shapes has each triple of pairs of frames.
fn one_has_frames(triples: &[Triple], frames: &Frames) -> bool
    ensures { result ≡ list_any (has_frames frames.now) triples.now }
{
    triples.iter().any(|triple| has_frames(triple, frames))
}

// What other triples of shapes leave of the regions of frames. Mostly one of them has all, and then no region is made.
fn left_in_frames(
    alloc: Global,
    frames: &Frames,
    others: &[Triple],
) -> Result<Option<List<Options>>, Memory>
    ensures { IfOk result (Leaves (in_some_three others.now (three_of frames.now)) (region_in frames.now)) }
{
    if one_has_frames(others, frames) {
        return Ok(None);
    }
    let taken = regions_of_triples(alloc, others, frames)?;
    let region = region_in(alloc, frames)?;
    left_of(alloc, region.as_slice(), taken.as_slice())
}

// The plainest pairs of the frames, of what is left of their regions: its parts are as long as their keys.
fn plain_three(alloc: Global, frames: &Frames, found: &[Options]) -> Result<OwnedTriple, Memory>
    requires { length found.now ≡ length frames.now.source.keys + (length frames.now.middle.keys + length frames.now.target.keys) }
    ensures { IfOk result (λ own. ArePlainest frames.now found.now own) }
{
    let (first, later) = found.split_at(frames.source.keys.len());
    let (second, third) = later.split_at(frames.middle.keys.len());
    let source = plain_pair(alloc, &frames.source, first)?;
    let middle = plain_pair(alloc, &frames.middle, second)?;
    let target = plain_pair(alloc, &frames.target, third)?;
    Ok(OwnedTriple {
        source,
        middle,
        target,
    })
}

// The plainest three pairs of what other triples of shapes leave of frames. `None` exactly where they leave nothing.
fn outside_of_frames(
    alloc: Global,
    frames: &Frames,
    others: &[Triple],
) -> Result<Option<OwnedTriple>, Memory>
    requires { length (region_in frames.now) ≡ length frames.now.source.keys + (length frames.now.middle.keys + length frames.now.target.keys) }
    ensures { IfOk result (LeavesThree frames.now others.now) }
{
    let left = left_in_frames(alloc, frames, others)?;
    match left {
        None => Ok(None),
        Some(found) => {
            let own = plain_three(alloc, frames, found.as_slice())?;
            Ok(Some(own))
        }
    }
}

// A triple of pairs of a triple of shapes that is in none of others. `None` exactly where there is none.
fn outside_of_triple(
    alloc: Global,
    triple: &Triple,
    others: &[Triple],
    further: &Further<'_>,
) -> Result<Option<OwnedTriple>, Memory>
    requires { list_all (lacks_label_three further.now.name) others.now ≡ true }
    ensures { IfOk result (λ answer. MatchOption answer (IsInOtherTriples triple.now others.now)
        (λ own. IsOutOfOtherTriples further.now.avoid.now (triple.now ∷ []) others.now (owned_triple own))) }
{
    let frames = frames_among(alloc, triple, others, further)?;
    frames.facts();
    outside_of_frames(alloc, &frames, others)
}

/// A triple of pairs of some triples of shapes that is in none of others, and is strange to the names to avoid. `None` exactly where there
/// is none.
pub(crate) fn outside_of_triples(
    alloc: Global,
    triples: &[Triple],
    others: &[Triple],
    further: &Further<'_>,
) -> Result<Option<OwnedTriple>, Memory>
    requires { list_all (lacks_label_three further.now.name) others.now ≡ true }
    ensures { IfOk result (λ answer. MatchOption answer (AreInOtherTriples triples.now others.now)
        (λ own. IsOutOfOtherTriples further.now.avoid.now triples.now others.now (owned_triple own))) }
{
    for triple in triples {
        let found = outside_of_triple(alloc, triple, others, further)?;
        if found.is_some() {
            return Ok(found);
        }
    }
    Ok(None)
}
