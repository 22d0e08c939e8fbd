ghost use Rattle.std.specs.Prelude.{◌≡◌, ◌∷◌, [], slice_get, IfOk};
ghost use Rattle.std.specs.Option.{option_copied};
ghost use Rattle.pgs_base.specs.declared.row.NodeRow.{NodeRow};
ghost use Rattle.pgs_syntax.specs.Fitting.{is_only};
ghost use Rattle.pgs_syntax.specs.Join.{is_empty};
ghost use Rattle.pgs_conform.specs.Shapes.{in_shape};

use pgs_base::{Copyable, Labels, List, Memory, Name};
use pgs_conform::Shape;
use std::alloc::Global;

/// The item of a number, from 0. `None` exactly past the last.
pub fn at<T>(items: &[T], number: u32) -> Option<&T>
    ensures { option_copied result ≡ slice_get items.now number }
{
    items.get(number as usize)
}

/// A list of one item.
pub fn one<T: Drop>(alloc: Global, item: T) -> Result<List<T>, Memory>
    ensures { IfOk result (λ list. list ≡ item ∷ []) }
{
    let mut items = Vec::new(alloc);
    items.push(item)?;
    Ok(List::from_vec(items))
}

/// The shape of the pairs without properties, with any labels. It takes no memory.
pub fn open_shape(alloc: Global) -> Shape
    ensures { (p : NodeRow) → in_shape result p ≡ is_empty p.props }
{
    Shape {
        labels: Labels::new(alloc),
        more_labels: true,
        keys: List::new(alloc),
        more_keys: false,
    }
}

/// The shape of the pair of one label and no properties.
pub fn label_shape(alloc: Global, label: &Name) -> Result<Shape, Memory>
    ensures { IfOk result (λ shape. (p : NodeRow) → in_shape shape p ≡ is_only label.now p) }
{
    let mut labels = Labels::new(alloc);
    labels.insert(label.copy(alloc)?)?;
    Ok(Shape {
        labels,
        more_labels: false,
        keys: List::new(alloc),
        more_keys: false,
    })
}
