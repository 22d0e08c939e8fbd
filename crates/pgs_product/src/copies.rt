ghost use Rattle.std.specs.Prelude.{◌≡◌, length, IfOk};
ghost use Rattle.pgs_base.specs.declared.row.NodeRow.{NodeRow};
ghost use Rattle.pgs_conform.specs.Shapes.{in_shape, in_some};

use pgs_base::{Copyable, List, Memory, Name};
use pgs_conform::{Options, Shape};
use std::alloc::Global;

fn copy_keys(alloc: Global, keys: &[(Name, Options)]) -> Result<Vec<(Name, Options)>, Memory>
    ensures { IfOk result (λ copies. copies.items ≡ keys.now) }
{
    let mut copies = Vec::with_capacity(alloc, keys.len())?;
    for key in keys {
        let name = key.0.copy(alloc)?;
        copies.push((name, key.1))?;
    }
    Ok(copies)
}

/// A shape of the same pairs. Names are shared.
pub fn copy_shape(alloc: Global, shape: &Shape) -> Result<Shape, Memory>
    ensures { IfOk result (λ copy. (p : NodeRow) → in_shape copy p ≡ in_shape shape.now p) }
{
    let labels = shape.labels.copy(alloc)?;
    let keys = copy_keys(alloc, shape.keys.as_slice())?;
    Ok(Shape {
        labels,
        more_labels: shape.more_labels,
        keys: List::from_vec(keys),
        more_keys: shape.more_keys,
    })
}

/// Shapes of the same pairs, in order.
pub fn copy_shapes(alloc: Global, shapes: &[Shape]) -> Result<List<Shape>, Memory>
    ensures same { IfOk result (λ copies. (p : NodeRow) → in_some copies p ≡ in_some shapes.now p) }
    ensures count { IfOk result (λ copies. length copies ≡ length shapes.now) }
{
    let mut copies = Vec::with_capacity(alloc, shapes.len())?;
    for shape in shapes {
        copies.push(copy_shape(alloc, shape)?)?;
    }
    Ok(List::from_vec(copies))
}
