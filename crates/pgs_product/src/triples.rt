ghost use Rattle.std.specs.Prelude.{◌≡◌, ◌&&◌, true, length, IfOk};
ghost use Rattle.pgs_syntax.specs.Join.{of_triples, joined, is_empty_pair, PairTriple};
ghost use Rattle.pgs_syntax.specs.Triples.{is_triple};
ghost use Rattle.pgs_conform.specs.Shapes.{in_shape, in_triple, in_some_triple};

use crate::copies::copy_shape;
use crate::empty::empty_shape;
use crate::joining::product;
use pgs_base::{List, Memory};
use pgs_conform::{Shape, Triple};
use std::alloc::Global;

/// The triples of pairs whose own pair is in a shape and whose ends are empty. It takes no memory.
pub fn middle_triple(alloc: Global, middle: Shape) -> Triple
    ensures { (t : PairTriple) → in_triple result t ≡ (is_empty_pair t.source && in_shape middle t.own && is_empty_pair t.target) }
{
    Triple {
        source: empty_shape(alloc),
        middle,
        target: empty_shape(alloc),
    }
}

/// The exact product of two triples of shapes: a triple of pairs is in it exactly where it is the join of a triple of the first
/// with a triple of the second.
pub fn triple_product(alloc: Global, first: &Triple, second: &Triple) -> Result<Triple, Memory>
    ensures { IfOk result (λ shapes. (t : PairTriple) → is_triple t ≡ true →
        in_triple shapes t ≡ joined of_triples (in_triple first.now) (in_triple second.now) t) }
{
    let source = product(alloc, &first.source, &second.source)?;
    let middle = product(alloc, &first.middle, &second.middle)?;
    let target = product(alloc, &first.target, &second.target)?;
    Ok(Triple {
        source,
        middle,
        target,
    })
}

/// A triple of shapes of the same triples of pairs. Names are shared. `Memory` where there was none left.
pub fn copy_triple(alloc: Global, triple: &Triple) -> Result<Triple, Memory>
    ensures { IfOk result (λ copy. (t : PairTriple) → in_triple copy t ≡ in_triple triple.now t) }
{
    let source = copy_shape(alloc, &triple.source)?;
    let middle = copy_shape(alloc, &triple.middle)?;
    let target = copy_shape(alloc, &triple.target)?;
    Ok(Triple {
        source,
        middle,
        target,
    })
}

/// Triples of shapes of the same triples of pairs, in order.
pub fn copy_triples(alloc: Global, triples: &[Triple]) -> Result<List<Triple>, Memory>
    ensures same { IfOk result (λ copies. (t : PairTriple) → in_some_triple copies t ≡ in_some_triple triples.now t) }
    ensures count { IfOk result (λ copies. length copies ≡ length triples.now) }
{
    let mut copies = Vec::with_capacity(alloc, triples.len())?;
    for triple in triples {
        copies.push(copy_triple(alloc, triple)?)?;
    }
    Ok(List::from_vec(copies))
}
