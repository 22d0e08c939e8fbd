ghost use Rattle.std.specs.Prelude.{◌≡◌, true, IfOk};
ghost use Rattle.pgs_base.specs.declared.row.NodeRow.{NodeRow};
ghost use Rattle.pgs_base.specs.Pair.{is_pair};
ghost use Rattle.pgs_syntax.specs.Join.{of_pairs, joined};
ghost use Rattle.pgs_conform.specs.Shapes.{in_shape};

use crate::keys::join_keys;
use crate::labels::unite;
use pgs_base::{List, Memory};
use pgs_conform::{Shape, free_options};
use std::alloc::Global;

/// The exact product of two shapes: a pair is in it exactly where it is the join of a pair of the first with a pair of the second.
pub fn product(alloc: Global, first: &Shape, second: &Shape) -> Result<Shape, Memory>
    ensures { IfOk result (λ shape. (p : NodeRow) → is_pair p ≡ true →
        in_shape shape p ≡ joined of_pairs (in_shape first.now) (in_shape second.now) p) }
{
    let labels = unite(alloc, &first.labels, &second.labels)?;
    let keys = join_keys(
        alloc,
        first.keys.as_slice(),
        free_options(first.more_keys),
        second.keys.as_slice(),
        free_options(second.more_keys),
    )?;
    Ok(Shape {
        labels,
        more_labels: first.more_labels | second.more_labels,
        keys: List::from_vec(keys),
        more_keys: first.more_keys | second.more_keys,
    })
}
