//! Shapes of what is asked at one place.

ghost use Rattle.std.specs.Prelude.{◌≡◌, true, false, is_some, Option, IfOk};
ghost use Rattle.std.specs.Option.{option_map_or};
ghost use Rattle.pgs_base.specs.declared.row.NodeRow.{NodeRow};
ghost use Rattle.pgs_base.specs.declared.value.Value.{Value as Valued};
ghost use Rattle.pgs_base.specs.Pair.{has_name, value_at};
ghost use Rattle.pgs_base.specs.Value.{is_of_kind};
ghost use Rattle.pgs_conform.specs.Shapes.{admits, in_shape, in_some};

use pgs_base::{Copyable, Kind, Labels, List, Memory, Name};
use pgs_conform::{Options, Shape};
use std::alloc::Global;

/// The shape of all pairs. It takes no memory.
pub(crate) fn any_shape(alloc: Global) -> Shape
    ensures { (p : NodeRow) → in_shape result p ≡ true }
{
    Shape {
        labels: Labels::new(alloc),
        more_labels: true,
        keys: List::new(alloc),
        more_keys: true,
    }
}

// One shape as a list.
#[tactic(auto, using(crate::proofs::Single::single_in))]
fn single(alloc: Global, shape: Shape) -> Result<List<Shape>, Memory>
    ensures { IfOk result (λ shapes. (p : NodeRow) → in_some shapes p ≡ in_shape shape p) }
{
    let mut shapes = Vec::new(alloc);
    shapes.push(shape)?;
    Ok(List::from_vec(shapes))
}

// The shape of the pairs with a label.
fn label_shape(alloc: Global, label: &Name) -> Result<Shape, Memory>
    ensures { IfOk result (λ shape. (p : NodeRow) → in_shape shape p ≡ has_name label.now p.labels) }
{
    let mut labels = Labels::new(alloc);
    let name = label.copy(alloc)?;
    labels.insert(name)?;
    Ok(Shape {
        labels,
        more_labels: true,
        keys: List::new(alloc),
        more_keys: true,
    })
}

// The shape of the pairs in which something stands at a key that options admit.
fn key_shape(alloc: Global, key: &Name, options: Options) -> Result<Shape, Memory>
    ensures { IfOk result (λ shape. (p : NodeRow) → in_shape shape p ≡ admits options (value_at key.now p.props)) }
{
    let name = key.copy(alloc)?;
    let mut keys = Vec::new(alloc);
    keys.push((name, options))?;
    Ok(Shape {
        labels: Labels::new(alloc),
        more_labels: true,
        keys: List::from_vec(keys),
        more_keys: true,
    })
}

// A value of one kind.
fn only_kind(kind: Kind) -> Options
    ensures { (o : Option Valued) → admits result o ≡ option_map_or (is_of_kind kind) o false }
{
    Options {
        absent: false,
        text: kind == Kind::Text,
        int: kind == Kind::Int,
        boolean: kind == Kind::Bool,
        date: kind == Kind::Date,
    }
}

// A value of any kind.
#[tactic(auto, using(crate::proofs::Single::admits_all))]
fn any_kind() -> Options
    ensures { (o : Option Valued) → admits result o ≡ is_some o }
{
    Options {
        absent: false,
        text: true,
        int: true,
        boolean: true,
        date: true,
    }
}

/// Shapes of the pairs with a label.
pub(crate) fn labelled(alloc: Global, label: &Name) -> Result<List<Shape>, Memory>
    ensures { IfOk result (λ shapes. (p : NodeRow) → in_some shapes p ≡ has_name label.now p.labels) }
{
    let shape = label_shape(alloc, label)?;
    single(alloc, shape)
}

/// Shapes of the pairs with a value of a kind at a key.
pub(crate) fn of_kind(alloc: Global, key: &Name, kind: Kind) -> Result<List<Shape>, Memory>
    ensures { IfOk result (λ shapes. (p : NodeRow) → in_some shapes p ≡ option_map_or (is_of_kind kind) (value_at key.now p.props) false) }
{
    let shape = key_shape(alloc, key, only_kind(kind))?;
    single(alloc, shape)
}

/// Shapes of the pairs with a value at a key.
pub(crate) fn present(alloc: Global, key: &Name) -> Result<List<Shape>, Memory>
    ensures { IfOk result (λ shapes. (p : NodeRow) → in_some shapes p ≡ is_some (value_at key.now p.props)) }
{
    let shape = key_shape(alloc, key, any_kind())?;
    single(alloc, shape)
}
