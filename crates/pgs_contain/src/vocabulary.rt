//! The keys that shapes name, and one that none of them names.

ghost use Rattle.std.specs.Prelude.{◌≡◌, ◌&&◌, ◌||◌, true, false, List as Items, ℕ, IfOk, OnOk};
ghost use Rattle.std.specs.Map.{keys_of};
ghost use Rattle.pgs_base.specs.Pair.{has_name};
ghost use Rattle.pgs_contain.specs.Known.{names_if_met, names_met_key, three_name, three_name_if_met, three_name_met_key, three_meet, any_free};

use crate::frame::labels_meet;
use crate::further::{Further, strange_to_both};
use crate::labels_of_three::LabelsOfThree;
use pgs_base::{Copyable, Labels, Memory, Name};
use pgs_conform::{Options, Shape, Triple};
use std::alloc::Global;

/// The keys at which something else than in a further one may stand, and a further one.
#[derive(Drop)]
pub(crate) struct Vocabulary {
    pub keys: Labels,
    pub key: Name,
    pub ghost new_key: { has_name key keys ≡ false },
}

/// Puts names in. `Memory` where there was none left: then some are in.
pub fn learn_names(alloc: Global, names: &[Name], known: &mut Labels) -> Result<(), Memory>
    ensures { OnOk result ((l : Items ℕ) → has_name l known.new ≡ (has_name l known.old || has_name l names.now)) }
{
    for name in names {
        let name = name.copy(alloc)?;
        known.insert(name)?;
    }
    Ok(())
}

/// Puts the names of keys in. `Memory` where there was none left: then some are in.
pub fn learn_keys(alloc: Global, keys: &[(Name, Options)], known: &mut Labels) -> Result<(), Memory>
    ensures { OnOk result ((l : Items ℕ) → has_name l known.new ≡ (has_name l known.old || has_name l (keys_of keys.now))) }
{
    for key in keys {
        let name = key.0.copy(alloc)?;
        known.insert(name)?;
    }
    Ok(())
}

// Puts in the keys of a shape, where it may have labels.
fn learn_if_met(
    alloc: Global,
    shape: &Shape,
    labels: &Labels,
    keys: &mut Labels,
) -> Result<(), Memory>
    ensures { OnOk result ((k : Items ℕ) → has_name k keys.new ≡ (has_name k keys.old || names_if_met labels.now k shape.now)) }
{
    if labels_meet(shape, labels) {
        learn_keys(alloc, shape.keys.as_slice(), keys)
    } else {
        Ok(())
    }
}

// Puts in the keys of those shapes that may have labels.
fn learn_met(
    alloc: Global,
    shapes: &[Shape],
    labels: &Labels,
    keys: &mut Labels,
) -> Result<(), Memory>
    ensures { OnOk result ((k : Items ℕ) → has_name k keys.new ≡ (has_name k keys.old || names_met_key shapes.now labels.now k)) }
{
    for shape in shapes {
        learn_if_met(alloc, shape, labels, keys)?;
    }
    Ok(())
}

// The keys of a shape and of those others that may have its labels.
fn keys_met(
    alloc: Global,
    shape: &Shape,
    labels: &Labels,
    others: &[Shape],
) -> Result<Labels, Memory>
    ensures { IfOk result (λ keys. (k : Items ℕ) → has_name k keys ≡ (has_name k (keys_of shape.now.keys) || names_met_key others.now labels.now k)) }
{
    let mut keys = Labels::new(alloc);
    learn_keys(alloc, shape.keys.as_slice(), &mut keys)?;
    learn_met(alloc, others, labels, &mut keys)?;
    Ok(keys)
}

// The same where the shape is free in keys: else no key has to be known.
fn known_keys(
    alloc: Global,
    shape: &Shape,
    labels: &Labels,
    others: &[Shape],
) -> Result<Labels, Memory>
    ensures { IfOk result (λ keys. (k : Items ℕ) → has_name k keys
        ≡ (shape.now.more_keys && (has_name k (keys_of shape.now.keys) || names_met_key others.now labels.now k))) }
{
    if shape.more_keys {
        keys_met(alloc, shape, labels, others)
    } else {
        Ok(Labels::new(alloc))
    }
}

// A key that isn't known: the further name, unless that one is.
fn further_key(alloc: Global, keys: &Labels, further: &Further<'_>) -> Result<Name, Memory>
    ensures { IfOk result (λ key. (has_name key keys.now ≡ false) × (has_name key further.now.avoid.now ≡ false)) }
{
    if keys.contains(&further.name) {
        strange_to_both(alloc, keys.as_slice(), further.avoid)
    } else {
        further.name.copy(alloc)
    }
}

// Known keys and one that isn't.
fn with_further_key(
    alloc: Global,
    keys: Labels,
    further: &Further<'_>,
) -> Result<Vocabulary, Memory>
    ensures { IfOk result (λ words. (words.keys ≡ keys) × (has_name words.key further.now.avoid.now ≡ false)) }
{
    let key = further_key(alloc, &keys, further)?;
    Ok(Vocabulary { keys, key })
}

/// The vocabulary of a shape and of those others that may have these labels.
pub(crate) fn vocabulary_of(
    alloc: Global,
    shape: &Shape,
    labels: &Labels,
    others: &[Shape],
    further: &Further<'_>,
) -> Result<Vocabulary, Memory>
    ensures keys { IfOk result (λ words. (k : Items ℕ) → has_name k words.keys
        ≡ (shape.now.more_keys && (has_name k (keys_of shape.now.keys) || names_met_key others.now labels.now k))) }
    ensures key { IfOk result (λ words. has_name words.key further.now.avoid.now ≡ false) }
{
    let keys = known_keys(alloc, shape, labels, others)?;
    with_further_key(alloc, keys, further)
}

// Puts in the keys of three shapes.
fn learn_three(alloc: Global, triple: &Triple, keys: &mut Labels) -> Result<(), Memory>
    ensures { OnOk result ((k : Items ℕ) → has_name k keys.new ≡ (has_name k keys.old || three_name triple.now k)) }
{
    learn_keys(alloc, triple.source.keys.as_slice(), keys)?;
    learn_keys(alloc, triple.middle.keys.as_slice(), keys)?;
    learn_keys(alloc, triple.target.keys.as_slice(), keys)?;
    Ok(())
}

// Whether a triple of shapes may have the labels of three frames.
fn three_meet(triple: &Triple, labels: &LabelsOfThree) -> bool
    ensures { result ≡ three_meet triple.now labels.now }
{
    labels_meet(&triple.source, &labels.source)
        && labels_meet(&triple.middle, &labels.middle)
        && labels_meet(&triple.target, &labels.target)
}

// Puts in the keys of a triple of shapes, where it may have labels.
fn learn_three_if_met(
    alloc: Global,
    triple: &Triple,
    labels: &LabelsOfThree,
    keys: &mut Labels,
) -> Result<(), Memory>
    ensures { OnOk result ((k : Items ℕ) → has_name k keys.new ≡ (has_name k keys.old || three_name_if_met labels.now k triple.now)) }
{
    if three_meet(triple, labels) {
        learn_three(alloc, triple, keys)
    } else {
        Ok(())
    }
}

// Puts in the keys of those triples of shapes that may have labels.
fn learn_met_triples(
    alloc: Global,
    triples: &[Triple],
    labels: &LabelsOfThree,
    keys: &mut Labels,
) -> Result<(), Memory>
    ensures { OnOk result ((k : Items ℕ) → has_name k keys.new ≡ (has_name k keys.old || three_name_met_key triples.now labels.now k)) }
{
    for triple in triples {
        learn_three_if_met(alloc, triple, labels, keys)?;
    }
    Ok(())
}

// Whether one of three shapes is free in keys.
fn any_free(triple: &Triple) -> bool
    ensures { result ≡ any_free triple.now }
{
    triple.source.more_keys || triple.middle.more_keys || triple.target.more_keys
}

// The keys of a triple of shapes and of those others that may have its labels.
fn keys_met_by_triple(
    alloc: Global,
    triple: &Triple,
    labels: &LabelsOfThree,
    others: &[Triple],
) -> Result<Labels, Memory>
    ensures { IfOk result (λ keys. (k : Items ℕ) → has_name k keys ≡ (three_name triple.now k || three_name_met_key others.now labels.now k)) }
{
    let mut keys = Labels::new(alloc);
    learn_three(alloc, triple, &mut keys)?;
    learn_met_triples(alloc, others, labels, &mut keys)?;
    Ok(keys)
}

// The same where one of its shapes is free in keys.
fn known_keys_of_triple(
    alloc: Global,
    triple: &Triple,
    labels: &LabelsOfThree,
    others: &[Triple],
) -> Result<Labels, Memory>
    ensures { IfOk result (λ keys. (k : Items ℕ) → has_name k keys
        ≡ (any_free triple.now && (three_name triple.now k || three_name_met_key others.now labels.now k))) }
{
    if any_free(triple) {
        keys_met_by_triple(alloc, triple, labels, others)
    } else {
        Ok(Labels::new(alloc))
    }
}

/// The vocabulary of a triple of shapes and of those others that may have these labels.
pub(crate) fn vocabulary_of_triple(
    alloc: Global,
    triple: &Triple,
    labels: &LabelsOfThree,
    others: &[Triple],
    further: &Further<'_>,
) -> Result<Vocabulary, Memory>
    ensures keys { IfOk result (λ words. (k : Items ℕ) → has_name k words.keys
        ≡ (any_free triple.now && (three_name triple.now k || three_name_met_key others.now labels.now k))) }
    ensures key { IfOk result (λ words. has_name words.key further.now.avoid.now ≡ false) }
{
    let keys = known_keys_of_triple(alloc, triple, labels, others)?;
    with_further_key(alloc, keys, further)
}
