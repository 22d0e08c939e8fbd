ghost use Rattle.std.specs.Prelude.{◌≡◌, ◌++◌, OnOk, IfOk};
ghost use Rattle.pgs_differences.specs.Differences.{label_differences, present_differences, key_differences, differences};

use crate::{Difference, keys, labels};
use pgs_base::{Labels, List, Memory, Props};
use pgs_conform::{Pair, Shape};
use std::alloc::Global;

// Puts the differences of labels last.
#[tactic(auto, unfolding(crate::specs::Differences::label_differences))]
fn push_label_differences(
    shape: &Shape,
    labels: &Labels,
    found: &mut Vec<Difference>,
) -> Result<(), Memory>
    ensures { OnOk result (found.new.items ≡ found.old.items ++ label_differences shape.now labels.now) }
{
    labels::push_missing(shape.labels.as_slice(), labels, found)?;
    labels::push_further(&shape.labels, shape.more_labels, labels.as_slice(), found)
}

// Puts the differences of properties that are there last.
#[tactic(auto, unfolding(crate::specs::Differences::present_differences))]
fn push_present_differences(
    shape: &Shape,
    props: &Props,
    found: &mut Vec<Difference>,
) -> Result<(), Memory>
    ensures { OnOk result (found.new.items ≡ found.old.items ++ present_differences shape.now props.now) }
{
    keys::push_other_kinds(shape.keys.as_slice(), props, found)?;
    keys::push_further(
        shape.keys.as_slice(),
        shape.more_keys,
        props.as_slice(),
        found,
    )
}

// Puts the differences of properties last.
#[tactic(auto, unfolding(crate::specs::Differences::key_differences))]
fn push_key_differences(
    shape: &Shape,
    props: &Props,
    found: &mut Vec<Difference>,
) -> Result<(), Memory>
    ensures { OnOk result (found.new.items ≡ found.old.items ++ key_differences shape.now props.now) }
{
    keys::push_absent(shape.keys.as_slice(), props, found)?;
    push_present_differences(shape, props, found)
}

/// The differences of labels and a shape.
pub(crate) fn label_differences(
    alloc: Global,
    shape: &Shape,
    labels: &Labels,
) -> Result<List<Difference>, Memory>
    ensures { IfOk result (λ found. found ≡ label_differences shape.now labels.now) }
{
    let mut found = Vec::new(alloc);
    push_label_differences(shape, labels, &mut found)?;
    Ok(List::from_vec(found))
}

/// The differences of properties and a shape.
pub(crate) fn key_differences(
    alloc: Global,
    shape: &Shape,
    props: &Props,
) -> Result<List<Difference>, Memory>
    ensures { IfOk result (λ found. found ≡ key_differences shape.now props.now) }
{
    let mut found = Vec::new(alloc);
    push_key_differences(shape, props, &mut found)?;
    Ok(List::from_vec(found))
}

/// The differences of a pair and a shape, in order: what the pair lacks and what the shape doesn't admit, labels before keys.
/// There is none exactly where the pair is in the shape. The rule is in `specs/Differences.antt`.
pub fn differences(alloc: Global, shape: &Shape, own: &Pair<'_>) -> Result<List<Difference>, Memory>
    ensures { IfOk result (λ found. found ≡ differences shape.now own.now) }
{
    let mut found = Vec::new(alloc);
    push_label_differences(shape, own.labels, &mut found)?;
    push_key_differences(shape, own.props, &mut found)?;
    Ok(List::from_vec(found))
}
