//! Whether a type has nothing of another one.

ghost use Rattle.std.specs.Prelude.{◌≡◌, ◌&&◌, true, IfOk, MatchBool};
ghost use Rattle.pgs_conform.specs.Shapes.{in_shape, in_triple, in_some, in_some_triple};
ghost use Rattle.pgs_standing.specs.Apart.{SomePasses, Apart, NotApart, IsApart, IsNotApart};
ghost use Rattle.pgs_standing.specs.Example.{by_nodes, by_edges, NonePasses};
ghost use Rattle.pgs_syntax.specs.Valid.{is_type};

use crate::in_common::{common, common_triple};
use crate::least::has_pair;
use pgs_base::Memory;
use pgs_conform::{Compiled, Shape, Triple};
use pgs_syntax::TypeNo;
use std::alloc::Global;

// Whether some triple of pairs is in a triple of shapes.
fn has_triple(alloc: Global, shapes: &Triple) -> Result<bool, Memory>
    ensures { IfOk result (λ has. MatchBool has (SomePasses by_edges (in_triple shapes.now)) (NonePasses by_edges (in_triple shapes.now))) }
{
    let source = has_pair(alloc, &shapes.source)?;
    let middle = has_pair(alloc, &shapes.middle)?;
    let target = has_pair(alloc, &shapes.target)?;
    Ok(source & middle & target)
}

// Whether some pair is in both of two shapes.
fn share_pair(alloc: Global, first: &Shape, second: &Shape) -> Result<bool, Memory>
    ensures { IfOk result (λ shared. MatchBool shared
        (SomePasses by_nodes (λ p. in_shape first.now p && in_shape second.now p))
        (NonePasses by_nodes (λ p. in_shape first.now p && in_shape second.now p))) }
{
    match common(alloc, first, second)? {
        Some(shape) => has_pair(alloc, &shape),
        None => Ok(false),
    }
}

// Whether some triple is in both of two triples of shapes.
fn share_triple(alloc: Global, first: &Triple, second: &Triple) -> Result<bool, Memory>
    ensures { IfOk result (λ shared. MatchBool shared
        (SomePasses by_edges (λ t. in_triple first.now t && in_triple second.now t))
        (NonePasses by_edges (λ t. in_triple first.now t && in_triple second.now t))) }
{
    match common_triple(alloc, first, second)? {
        Some(shapes) => has_triple(alloc, &shapes),
        None => Ok(false),
    }
}

// Whether some pair is in a shape and in some of others.
fn shares_some_pair(alloc: Global, shape: &Shape, others: &[Shape]) -> Result<bool, Memory>
    ensures { IfOk result (λ shared. MatchBool shared
        (SomePasses by_nodes (λ p. in_shape shape.now p && in_some others.now p))
        (NonePasses by_nodes (λ p. in_shape shape.now p && in_some others.now p))) }
{
    for other in others {
        if share_pair(alloc, shape, other)? {
            return Ok(true);
        }
    }
    Ok(false)
}

// Whether some triple is in a triple of shapes and in some of others.
fn shares_some_triple(alloc: Global, shapes: &Triple, others: &[Triple]) -> Result<bool, Memory>
    ensures { IfOk result (λ shared. MatchBool shared
        (SomePasses by_edges (λ t. in_triple shapes.now t && in_some_triple others.now t))
        (NonePasses by_edges (λ t. in_triple shapes.now t && in_some_triple others.now t))) }
{
    for other in others {
        if share_triple(alloc, shapes, other)? {
            return Ok(true);
        }
    }
    Ok(false)
}

// Whether some pair is in shapes, and none of these in those of a base.
fn pairs_apart(alloc: Global, base: &[Shape], own: &[Shape]) -> Result<bool, Memory>
    ensures { IfOk result (λ apart. MatchBool apart
        (Apart by_nodes (in_some base.now) (in_some own.now)) (NotApart by_nodes (in_some base.now) (in_some own.now))) }
{
    let mut fits = false;
    for shape in own {
        if shares_some_pair(alloc, shape, base)? {
            return Ok(false);
        }
        fits = fits || has_pair(alloc, shape)?;
    }
    Ok(fits)
}

// Whether some triple is in triples of shapes, and none of these in those of a base.
fn triples_apart(alloc: Global, base: &[Triple], own: &[Triple]) -> Result<bool, Memory>
    ensures { IfOk result (λ apart. MatchBool apart
        (Apart by_edges (in_some_triple base.now) (in_some_triple own.now)) (NotApart by_edges (in_some_triple base.now) (in_some_triple own.now))) }
{
    let mut fits = false;
    for shapes in own {
        if shares_some_triple(alloc, shapes, base)? {
            return Ok(false);
        }
        fits = fits || has_triple(alloc, shapes)?;
    }
    Ok(fits)
}

/// Whether a type, by its number, is apart from a base type, both of which are there: true exactly where some pair, or triple of pairs,
/// fits it, and none of these fits the base type, which is of its kind. What can stand has no part in it. The rule is `IsApart` of
/// `specs/Apart.antt`. `Memory` where there was none left.
pub fn are_apart(
    alloc: Global,
    schema: &Compiled,
    base: TypeNo,
    own: TypeNo,
) -> Result<bool, Memory>
    requires base { is_type schema.now base ≡ true }
    requires own { is_type schema.now own ≡ true }
    ensures { IfOk result (λ apart. MatchBool apart (IsApart schema.now base own) (IsNotApart schema.now base own)) }
{
    match (base, own) {
        (TypeNo::Node(base), TypeNo::Node(own)) => pairs_apart(
            alloc,
            schema.shapes_of_node(base).as_slice(),
            schema.shapes_of_node(own).as_slice(),
        ),
        (TypeNo::Edge(base), TypeNo::Edge(own)) => triples_apart(
            alloc,
            schema.shapes_of_edge(base).as_slice(),
            schema.shapes_of_edge(own).as_slice(),
        ),
        _ => Ok(false),
    }
}
