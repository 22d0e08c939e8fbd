ghost use Rattle.std.specs.Prelude.{◌≡◌, ℕ, ◌+◌, ◌≤◌, Bool, ◌||◌, true, List, length, flat_map, IfOk};
ghost use Rattle.std.specs.List.{list_all};
ghost use Rattle.pgs_base.specs.declared.row.NodeRow.{NodeRow};
ghost use Rattle.pgs_syntax.specs.declared.specification.Spec.{Word};
ghost use Rattle.pgs_syntax.specs.Fitting.{suits};
ghost use Rattle.pgs_syntax.specs.Join.{of_pairs, is_empty_pair};
ghost use Rattle.pgs_syntax.specs.Valid.{is_valid_spec};
ghost use Rattle.pgs_syntax.specs.Width.{Width, width_of};
ghost use Rattle.pgs_conform.specs.Counts.{AreWithin};
ghost use Rattle.pgs_conform.specs.Shapes.{in_some, Denotes};
ghost use Rattle.pgs_conform.specs.Standing.{EachDenotes};
ghost use Rattle.pgs_shapes.specs.Counts.{PartsWithin};
ghost use Rattle.pgs_shapes.specs.Parts.{PartsDenote};

use crate::braces::braces_shape;
use crate::leaf::{at, label_shape, one, open_shape};
use pgs_base::{List, Memory};
use pgs_conform::Shape;
use pgs_product::{copy_shapes, empty_shape, product_of_all};
use pgs_syntax::{Leaf, Spec};
use std::alloc::Global;

/// Lists one after another, as one.
pub fn concat<T: Drop>(alloc: Global, lists: Vec<List<T>>) -> Result<List<T>, Memory>
    ensures { IfOk result (λ whole. whole ≡ flat_map (λ list. list) lists.items) }
{
    let mut whole = Vec::new(alloc);
    for list in lists {
        let mut items = list.into_vec();
        whole.append(&mut items)?;
    }
    Ok(List::from_vec(whole))
}

// Shapes, and the shape of the empty pair.
fn with_empty(alloc: Global, shapes: List<Shape>) -> Result<List<Shape>, Memory>
    ensures denote { IfOk result (λ whole. (p : NodeRow) → in_some whole p ≡ (in_some shapes p || is_empty_pair p)) }
    ensures count { IfOk result (λ whole. length whole ≡ length shapes + 1) }
{
    let mut items = shapes.into_vec();
    items.push(empty_shape(alloc))?;
    Ok(List::from_vec(items))
}

fn leaf_shapes(alloc: Global, named: &[List<Shape>], leaf: &Leaf) -> Result<List<Shape>, Memory>
    ensures denote { IfOk result (λ shapes. is_valid_spec (length named.now) (Word leaf.now) ≡ true → (test : ℕ → NodeRow → Bool) →
        EachDenotes named.now test → Denotes shapes (suits of_pairs test (Word leaf.now))) }
    ensures within { IfOk result (λ shapes. (widths : List Width) → AreWithin widths named.now →
        length shapes ≤ (width_of widths (Word leaf.now)).count) }
{
    match leaf {
        Leaf::Label(label) => {
            let shape = label_shape(alloc, label)?;
            one(alloc, shape)
        }
        Leaf::Named(number) => match at(named, *number) {
            Some(list) => copy_shapes(alloc, list.as_slice()),
            None => Ok(List::new(alloc)),
        },
    }
}

/// The shapes of a specification of nodes, where those of the types that it may name are given: they denote what it asks, where
/// the lists of these types do, and are no more than its width counts, where those are no more than theirs.
#[cycle(shapes)]
pub fn shapes_of(
    alloc: Global,
    named: &[List<Shape>],
    spec: &Spec<Leaf>,
) -> Result<List<Shape>, Memory>
    ensures denote { IfOk result (λ shapes. is_valid_spec (length named.now) spec.now ≡ true → (test : ℕ → NodeRow → Bool) →
        EachDenotes named.now test → Denotes shapes (suits of_pairs test spec.now)) }
    ensures within { IfOk result (λ shapes. (widths : List Width) → AreWithin widths named.now →
        length shapes ≤ (width_of widths spec.now).count) }
{
    match spec {
        Spec::Empty => one(alloc, empty_shape(alloc)),
        Spec::Word(leaf) => leaf_shapes(alloc, named, leaf),
        Spec::OpenLabels => one(alloc, open_shape(alloc)),
        Spec::Braces(braces) => {
            let shape = braces_shape(alloc, braces)?;
            one(alloc, shape)
        }
        Spec::And(parts) => {
            let lists = shapes_of_each(alloc, named, parts.as_slice())?;
            product_of_all(alloc, &lists)
        }
        Spec::Or(parts) => {
            let lists = shapes_of_each(alloc, named, parts.as_slice())?;
            concat(alloc, lists)
        }
        Spec::Opt(part) => {
            let shapes = shapes_of(alloc, named, part.get())?;
            with_empty(alloc, shapes)
        }
    }
}

#[cycle(shapes)]
fn shapes_of_each(
    alloc: Global,
    named: &[List<Shape>],
    parts: &[Spec<Leaf>],
) -> Result<Vec<List<Shape>>, Memory>
    ensures denote { IfOk result (λ lists. list_all (is_valid_spec (length named.now)) parts.now ≡ true → (test : ℕ → NodeRow → Bool) →
        EachDenotes named.now test → PartsDenote test parts.now lists.items) }
    ensures within { IfOk result (λ lists. (widths : List Width) → AreWithin widths named.now →
        PartsWithin widths parts.now lists.items) }
{
    let mut lists = Vec::with_capacity(alloc, parts.len())?;
    for part in parts {
        let shapes = shapes_of(alloc, named, part)?;
        lists.push(shapes)?;
    }
    Ok(lists)
}
