//! What can stand under a guard, as shapes: where the guard is strict those of its types, else all.

ghost use Rattle.std.specs.Prelude.{◌≡◌, ◌||◌, true, not, IfOk};
ghost use Rattle.pgs_base.specs.declared.row.NodeRow.{NodeRow};
ghost use Rattle.pgs_syntax.specs.Join.{PairTriple};
ghost use Rattle.pgs_conform.specs.Shapes.{in_shape, in_triple, Denotes, DenotesTriples};
ghost use Rattle.pgs_standing.specs.Standing.{admits_node, admits_edge};

use pgs_base::{Labels, List, Memory};
use pgs_conform::{Compiled, Shape, Triple};
use pgs_contain::{typed_shapes, typed_triples};
use std::alloc::Global;

// The shape of all pairs. It takes no memory.
fn any_shape(alloc: Global) -> Shape
    ensures { (p : NodeRow) → in_shape result p ≡ true }
{
    Shape {
        labels: Labels::new(alloc),
        more_labels: true,
        keys: List::new(alloc),
        more_keys: true,
    }
}

// The triple of shapes of all triples of pairs. It takes no memory.
fn any_triple(alloc: Global) -> Triple
    ensures { (t : PairTriple) → in_triple result t ≡ true }
{
    Triple {
        source: any_shape(alloc),
        middle: any_shape(alloc),
        target: any_shape(alloc),
    }
}

/// The shapes of the pairs that the guard lets a node have. `Memory` where there was none left.
pub fn standing_shapes(alloc: Global, schema: &Compiled) -> Result<List<Shape>, Memory>
    ensures { IfOk result (λ shapes. Denotes shapes (admits_node schema.now)) }
{
    if schema.resolved().guard.strict {
        return typed_shapes(alloc, schema);
    }
    let mut all = Vec::new(alloc);
    all.push(any_shape(alloc))?;
    Ok(List::from_vec(all))
}

/// The triples of shapes of the triples of pairs that the guard lets an edge have, whatever its ends may be. `Memory` where there
/// was none left.
pub fn standing_triples(alloc: Global, schema: &Compiled) -> Result<List<Triple>, Memory>
    ensures { IfOk result (λ triples. DenotesTriples triples (admits_edge schema.now)) }
{
    if schema.resolved().guard.strict {
        return typed_triples(alloc, schema);
    }
    let mut all = Vec::new(alloc);
    all.push(any_triple(alloc))?;
    Ok(List::from_vec(all))
}
