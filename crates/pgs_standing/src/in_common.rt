//! What two shapes have in common: a shape, or nothing.

ghost use Rattle.std.specs.Prelude.{◌≡◌, ◌&&◌, ◌||◌, true, List as Items, ℕ, map, IfOk};
ghost use Rattle.std.specs.List.{list_all};
ghost use Rattle.std.specs.Map.{keys_of};
ghost use Rattle.pgs_base.specs.declared.row.NodeRow.{NodeRow};
ghost use Rattle.pgs_base.specs.Pair.{has_name, is_pair};
ghost use Rattle.pgs_syntax.specs.Join.{PairTriple};
ghost use Rattle.pgs_syntax.specs.Triples.{is_triple};
ghost use Rattle.pgs_conform.specs.Shapes.{in_shape, in_triple};
ghost use Rattle.pgs_standing.specs.Common.{allows, may_meet, common_key, in_common, in_common_triple, common_at};

use pgs_base::{Copyable, Labels, List, Memory, Name};
use pgs_conform::{Options, Shape, Triple};
use pgs_contain::{common_options, learn_keys, learn_names, options_at};
use std::alloc::Global;

// Whether a shape may have all of these labels.
fn allows(shape: &Shape, labels: &Labels) -> bool
    ensures { result ≡ allows shape.now labels.now }
{
    labels
        .as_slice()
        .iter()
        .all(|label| shape.more_labels || shape.labels.contains(label))
}

// Whether each of two shapes may have the labels of the other.
fn may_meet(first: &Shape, second: &Shape) -> bool
    ensures { result ≡ may_meet first.now second.now }
{
    allows(first, &second.labels) && allows(second, &first.labels)
}

// The labels of both shapes.
fn labels_of_both(alloc: Global, first: &Shape, second: &Shape) -> Result<Labels, Memory>
    ensures { IfOk result (λ labels. (l : Items ℕ) → has_name l labels ≡ (has_name l first.now.labels || has_name l second.now.labels)) }
{
    let mut labels = first.labels.copy(alloc)?;
    learn_names(alloc, second.labels.as_slice(), &mut labels)?;
    Ok(labels)
}

// The names of the keys of both shapes.
fn names_of_both(alloc: Global, first: &Shape, second: &Shape) -> Result<Labels, Memory>
    ensures { IfOk result (λ names. (k : Items ℕ) → has_name k names ≡ (has_name k (keys_of first.now.keys) || has_name k (keys_of second.now.keys))) }
{
    let mut names = Labels::new(alloc);
    learn_keys(alloc, first.keys.as_slice(), &mut names)?;
    learn_keys(alloc, second.keys.as_slice(), &mut names)?;
    Ok(names)
}

// What may stand at a key in both shapes.
fn common_at(first: &Shape, second: &Shape, name: &Name) -> Options
    ensures { result ≡ common_at first.now second.now name.now }
{
    let own = options_at(first.keys.as_slice(), first.more_keys, name);
    let other = options_at(second.keys.as_slice(), second.more_keys, name);
    common_options(own, other)
}

// Keys of these names, with what may stand at each in both shapes.
fn common_keys(
    alloc: Global,
    first: &Shape,
    second: &Shape,
    names: &[Name],
) -> Result<Vec<(Name, Options)>, Memory>
    ensures { IfOk result (λ keys. keys.items ≡ map (common_key first.now second.now) names.now) }
{
    let mut keys = Vec::with_capacity(alloc, names.len())?;
    for name in names {
        let options = common_at(first, second, name);
        let key = name.copy(alloc)?;
        keys.push((key, options))?;
    }
    Ok(keys)
}

// The shape of what is in both shapes, each of which may have the labels of the other.
fn common_shape(alloc: Global, first: &Shape, second: &Shape) -> Result<Shape, Memory>
    requires { may_meet first.now second.now ≡ true }
    ensures { IfOk result (λ shape. (p : NodeRow) → is_pair p ≡ true → in_shape shape p ≡ (in_shape first.now p && in_shape second.now p)) }
{
    let labels = labels_of_both(alloc, first, second)?;
    let names = names_of_both(alloc, first, second)?;
    let keys = common_keys(alloc, first, second, names.as_slice())?;
    Ok(Shape {
        labels,
        more_labels: first.more_labels & second.more_labels,
        keys: List::from_vec(keys),
        more_keys: first.more_keys & second.more_keys,
    })
}

/// What two shapes have in common: the shape of the pairs that are in both. `None` only where no pair is. `Memory` where there was none
/// left.
pub fn common(alloc: Global, first: &Shape, second: &Shape) -> Result<Option<Shape>, Memory>
    ensures { IfOk result (λ answer. (p : NodeRow) → is_pair p ≡ true → in_common answer p ≡ (in_shape first.now p && in_shape second.now p)) }
{
    if !may_meet(first, second) {
        return Ok(None);
    }
    let shape = common_shape(alloc, first, second)?;
    Ok(Some(shape))
}

/// What two triples of shapes have in common: the triple of shapes of the triples of pairs that are in both. `None` where no triple
/// is. `Memory` where there was none left.
pub fn common_triple(
    alloc: Global,
    first: &Triple,
    second: &Triple,
) -> Result<Option<Triple>, Memory>
    ensures { IfOk result (λ answer. (t : PairTriple) → is_triple t ≡ true → in_common_triple answer t ≡ (in_triple first.now t && in_triple second.now t)) }
{
    let Some(middle) = common(alloc, &first.middle, &second.middle)? else {
        return Ok(None);
    };
    let Some(source) = common(alloc, &first.source, &second.source)? else {
        return Ok(None);
    };
    let Some(target) = common(alloc, &first.target, &second.target)? else {
        return Ok(None);
    };
    Ok(Some(Triple {
        source,
        middle,
        target,
    }))
}
