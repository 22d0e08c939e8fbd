ghost use Rattle.std.specs.Prelude.{◌≡◌, true, None, length, IfOk};
ghost use Rattle.pgs_syntax.specs.Fitting.{fits_node};
ghost use Rattle.pgs_syntax.specs.Valid.{is_valid};
ghost use Rattle.pgs_syntax.specs.Width.{first_too_wide};
ghost use Rattle.pgs_conform.specs.Counts.{AreWithin, widths_of_nodes};
ghost use Rattle.pgs_conform.specs.Standing.{EachDenotes};

use crate::specification::shapes_of;
use pgs_base::{List, Memory};
use pgs_conform::Shape;
use pgs_syntax::Resolved;
use std::alloc::Global;

/// The shapes of each node type, in order: each list denotes what its type asks, where the schema is valid, and is no longer than
/// the type's width counts. It asks that no type is too wide, so that this is known before any shape is made.
pub fn node_shapes(alloc: Global, resolved: &Resolved) -> Result<Vec<List<Shape>>, Memory>
    requires { first_too_wide resolved.now ≡ None }
    ensures count { IfOk result (λ lists. length lists.items ≡ length resolved.now.nodes) }
    ensures denote { IfOk result (λ lists. is_valid resolved.now ≡ true → EachDenotes lists.items (fits_node resolved.now)) }
    ensures within { IfOk result (λ lists. AreWithin (widths_of_nodes resolved.now) lists.items) }
{
    let nodes = resolved.nodes.as_slice();
    let mut lists = Vec::with_capacity(alloc, nodes.len())?;
    for node in nodes {
        let shapes = shapes_of(alloc, &lists, &node.spec)?;
        lists.push(shapes)?;
    }
    Ok(lists)
}
