ghost use Rattle.std.specs.Prelude.{◌≡◌};
ghost use Rattle.pgs_base.specs.declared.row.NodeRow.{NodeRow};
ghost use Rattle.pgs_syntax.specs.Join.{is_empty_pair};
ghost use Rattle.pgs_conform.specs.Shapes.{in_shape};

use pgs_base::{Labels, List};
use pgs_conform::Shape;
use std::alloc::Global;

/// The shape of the empty pair alone. It takes no memory.
pub fn empty_shape(alloc: Global) -> Shape
    ensures { (p : NodeRow) → in_shape result p ≡ is_empty_pair p }
{
    Shape {
        labels: Labels::new(alloc),
        more_labels: false,
        keys: List::new(alloc),
        more_keys: false,
    }
}
