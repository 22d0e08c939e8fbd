//! The frame of a shape: what labels and keys what is outside may have, and what may stand at each key.

ghost use Rattle.std.specs.Prelude.{◌≡◌, ◌||◌, true, ℕ, List as Items, map, IfOk};
ghost use Rattle.std.specs.List.{list_all};
ghost use Rattle.std.specs.Map.{keys_of};
ghost use Rattle.std.specs.Ordering.{nat_cmp};
ghost use Rattle.std.specs.Cmp.Lexicographic.{slice_cmp};
ghost use Rattle.pgs_base.specs.Order.{ascends};
ghost use Rattle.pgs_base.specs.Pair.{same_name, has_name};
ghost use Rattle.pgs_conform.specs.declared.options.Options.{Options as KeyOptions};
ghost use Rattle.pgs_conform.specs.Shapes.{labels_meet};
ghost use Rattle.pgs_conform.specs.JoinedOptions.{options_at};
ghost use Rattle.pgs_contain.specs.Frames.{text_alone, frame_labels, frame_keys, frame_options, options_of, may_have, in_some_of};
ghost use Rattle.pgs_contain.specs.Regions.{Point, in_some_region, lies_in};

use crate::options::is_within;
use crate::vocabulary::Vocabulary;
use pgs_base::{Copyable, Labels, List, Memory, Name};
use pgs_conform::{Options, Shape, free_options};
use std::alloc::Global;

/// The labels of what may be outside, the keys at which values may stand in it, and what may stand at each.
#[derive(Drop)]
pub(crate) struct Frame {
    pub labels: Labels,
    pub keys: Labels,
    pub region: List<Options>,
}

impl Frame {
    /// What each frame meets: its keys ascend. Nothing is done.
    pub(crate) fn facts(&self)
        ensures { ascends (slice_cmp nat_cmp) self.now.keys ≡ true }
    {
        let _keys = self.keys.as_slice();
    }
}

// A text, and nothing else.
fn text_alone() -> Options
    ensures { result ≡ text_alone }
{
    Options {
        absent: false,
        text: true,
        int: false,
        boolean: false,
        date: false,
    }
}

// Whether two names are one.
fn same_name(first: &Name, second: &Name) -> bool
    ensures { result ≡ same_name first.now second.now }
{
    first.cmp(second).is_eq()
}

/// What may stand at any key, where some are named and more are free or not.
pub fn options_at(keys: &[(Name, Options)], more: bool, name: &Name) -> Options
    ensures { result ≡ options_at keys.now more name.now }
{
    let mut left = keys;
    while let [key, later @ ..] = left {
        if same_name(name, &key.0) {
            return key.1;
        }
        left = later;
    }
    free_options(more)
}

/// The labels of what may be outside.
pub(crate) fn frame_labels(alloc: Global, shape: &Shape, label: &Name) -> Result<Labels, Memory>
    ensures { IfOk result (λ labels. labels ≡ frame_labels shape.now.more_labels shape.now.labels label.now) }
{
    let mut labels = shape.labels.copy(alloc)?;
    if shape.more_labels {
        labels.insert(label.copy(alloc)?)?;
    }
    Ok(labels)
}

// The names of keys.
fn names_of(alloc: Global, keys: &[(Name, Options)]) -> Result<Vec<Name>, Memory>
    ensures { IfOk result (λ names. names.items ≡ keys_of keys.now) }
{
    let mut names = Vec::with_capacity(alloc, keys.len())?;
    for key in keys {
        names.push(key.0.copy(alloc)?)?;
    }
    Ok(names)
}

// The keys at which values may stand.
fn frame_keys(alloc: Global, shape: &Shape, words: &Vocabulary) -> Result<Labels, Memory>
    ensures { IfOk result (λ keys. keys ≡ frame_keys shape.now.more_keys shape.now.keys words.now.keys words.now.key) }
{
    if shape.more_keys {
        let mut keys = words.keys.copy(alloc)?;
        keys.insert(words.key.copy(alloc)?)?;
        Ok(keys)
    } else {
        let names = names_of(alloc, shape.keys.as_slice())?;
        Ok(Labels::from_vec(names))
    }
}

// What may stand at a key of the frame.
fn frame_options(shape: &Shape, key: &Name, name: &Name) -> Options
    ensures { result ≡ frame_options shape.now.more_keys shape.now.keys key.now name.now }
{
    if shape.more_keys && same_name(name, key) {
        text_alone()
    } else {
        options_at(shape.keys.as_slice(), shape.more_keys, name)
    }
}

// What may stand at the keys of the frame.
fn frame_region(
    alloc: Global,
    shape: &Shape,
    key: &Name,
    names: &[Name],
) -> Result<List<Options>, Memory>
    ensures { IfOk result (λ region. region ≡ map (frame_options shape.now.more_keys shape.now.keys key.now) names.now) }
{
    let mut region = Vec::with_capacity(alloc, names.len())?;
    for name in names {
        region.push(frame_options(shape, key, name))?;
    }
    Ok(List::from_vec(region))
}

/// The frame of a shape, of these labels.
pub(crate) fn frame_of(
    alloc: Global,
    shape: &Shape,
    labels: Labels,
    words: &Vocabulary,
) -> Result<Frame, Memory>
    ensures { IfOk result (λ frame.
        (frame.labels ≡ labels)
        × (frame.keys ≡ frame_keys shape.now.more_keys shape.now.keys words.now.keys words.now.key)
        × (frame.region ≡ map (frame_options shape.now.more_keys shape.now.keys words.now.key) frame.keys)) }
{
    let keys = frame_keys(alloc, shape, words)?;
    let region = frame_region(alloc, shape, &words.key, keys.as_slice())?;
    Ok(Frame {
        labels,
        keys,
        region,
    })
}

// Whether all labels that are asked for are there.
fn all_there(asked: &Labels, labels: &Labels) -> bool
    ensures { result ≡ list_all (λ label. has_name label labels.now) asked.now }
{
    asked.as_slice().iter().all(|label| labels.contains(label))
}

// Whether no label is there that isn't asked for, unless more are free.
fn none_further(asked: &Labels, more: bool, labels: &Labels) -> bool
    ensures { result ≡ list_all (λ label. more || has_name label asked.now) labels.now }
{
    labels
        .as_slice()
        .iter()
        .all(|label| more || asked.contains(label))
}

/// Whether a shape may have labels.
pub(crate) fn labels_meet(shape: &Shape, labels: &Labels) -> bool
    ensures { result ≡ labels_meet shape.now.labels shape.now.more_labels labels.now }
{
    all_there(&shape.labels, labels) && none_further(&shape.labels, shape.more_labels, labels)
}

// Whether keys that are not among names are all optional.
fn are_optional(keys: &[(Name, Options)], names: &Labels) -> bool
    ensures { result ≡ list_all (λ (key : Items ℕ × KeyOptions). key.1.absent || has_name key.0 names.now) keys.now }
{
    keys.iter()
        .all(|key| key.1.absent || names.contains(&key.0))
}

// Whether another shape may have a pair of the frame.
pub(crate) fn may_have(shape: &Shape, frame: &Frame) -> bool
    ensures { result ≡ may_have shape.now frame.now.labels frame.now.keys }
{
    labels_meet(shape, &frame.labels) && are_optional(shape.keys.as_slice(), &frame.keys)
}

/// Whether what may stand at each key lies within what another shape says of it.
pub(crate) fn lies_in_shape(region: &[Options], keys: &[Name], shape: &Shape) -> bool
    ensures { result ≡ lies_in region.now (options_of shape.now keys.now) }
{
    let mut left = region;
    let mut names = keys;
    while let [own, owns @ ..] = left {
        let [name, later @ ..] = names else {
            return false;
        };
        if !is_within(
            *own,
            options_at(shape.keys.as_slice(), shape.more_keys, name),
        ) {
            return false;
        }
        left = owns;
        names = later;
    }
    names.is_empty()
}

/// What another shape says of the keys of the frame.
pub(crate) fn options_of(
    alloc: Global,
    shape: &Shape,
    keys: &[Name],
) -> Result<List<Options>, Memory>
    ensures { IfOk result (λ region. region ≡ options_of shape.now keys.now) }
{
    let mut region = Vec::with_capacity(alloc, keys.len())?;
    for key in keys {
        region.push(options_at(shape.keys.as_slice(), shape.more_keys, key))?;
    }
    Ok(List::from_vec(region))
}

/// What the shapes that may have a pair of the frame say of its keys.
pub(crate) fn regions_of(
    alloc: Global,
    shapes: &[Shape],
    frame: &Frame,
) -> Result<List<List<Options>>, Memory>
    ensures { IfOk result (λ regions. (v : Point) → in_some_region regions v ≡ in_some_of shapes.now frame.now.labels frame.now.keys v) }
{
    let mut regions = Vec::new(alloc);
    for shape in shapes {
        if may_have(shape, frame) {
            regions.push(options_of(alloc, shape, frame.keys.as_slice())?)?;
        }
    }
    Ok(List::from_vec(regions))
}
