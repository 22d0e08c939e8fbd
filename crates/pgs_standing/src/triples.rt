//! The plainest triple of pairs that is in two lists of triples of shapes, and whose ends are in shapes of nodes.

ghost use Rattle.std.specs.Prelude.{◌≡◌, ◌&&◌, IfOk};
ghost use Rattle.pgs_conform.specs.Shapes.{in_triple, in_some_triple};
ghost use Rattle.pgs_standing.specs.Common.{ends_in};
ghost use Rattle.pgs_standing.specs.Example.{IsFoundTriple};
ghost use Rattle.pgs_standing.specs.Standing.{is_small_triple};

use crate::choice::smaller_triple;
use crate::in_common::common_triple;
use crate::least::plain_pair;
use crate::pairs::plain_in_some;
use pgs_base::Memory;
use pgs_conform::{Shape, Triple};
use pgs_contain::OwnedTriple;
use std::alloc::Global;

// The plainest triple in a triple of shapes, with ends in shapes of nodes.
fn plain_triple(
    alloc: Global,
    shapes: &Triple,
    nodes: &[Shape],
) -> Result<Option<OwnedTriple>, Memory>
    ensures { IfOk result (IsFoundTriple (λ t. is_small_triple t && (in_triple shapes.now t && ends_in nodes.now t))) }
{
    let Some(middle) = plain_pair(alloc, &shapes.middle)? else {
        return Ok(None);
    };
    let Some(source) = plain_in_some(alloc, &shapes.source, nodes)? else {
        return Ok(None);
    };
    let Some(target) = plain_in_some(alloc, &shapes.target, nodes)? else {
        return Ok(None);
    };
    Ok(Some(OwnedTriple {
        source,
        middle,
        target,
    }))
}

// The plainest triple in two triples of shapes, with ends in shapes of nodes.
fn triple_in_both(
    alloc: Global,
    first: &Triple,
    second: &Triple,
    nodes: &[Shape],
) -> Result<Option<OwnedTriple>, Memory>
    ensures { IfOk result (IsFoundTriple (λ t. is_small_triple t && (in_triple first.now t && in_triple second.now t && ends_in nodes.now t))) }
{
    let Some(shapes) = common_triple(alloc, first, second)? else {
        return Ok(None);
    };
    plain_triple(alloc, &shapes, nodes)
}

// The plainest triple in a triple of shapes and in some of others, with ends in shapes of nodes.
fn triple_in_some(
    alloc: Global,
    shapes: &Triple,
    others: &[Triple],
    nodes: &[Shape],
) -> Result<Option<OwnedTriple>, Memory>
    ensures { IfOk result (IsFoundTriple (λ t. is_small_triple t && (in_triple shapes.now t && in_some_triple others.now t && ends_in nodes.now t))) }
{
    let mut found = None;
    for other in others {
        let next = triple_in_both(alloc, shapes, other, nodes)?;
        found = smaller_triple(found, next);
    }
    Ok(found)
}

/// The plainest triple in some triples of shapes and in some of others, with ends in shapes of nodes.
pub(crate) fn triple_in_lists(
    alloc: Global,
    triples: &[Triple],
    others: &[Triple],
    nodes: &[Shape],
) -> Result<Option<OwnedTriple>, Memory>
    ensures { IfOk result (IsFoundTriple (λ t. is_small_triple t && (in_some_triple triples.now t && in_some_triple others.now t && ends_in nodes.now t))) }
{
    let mut found = None;
    for shapes in triples {
        let next = triple_in_some(alloc, shapes, others, nodes)?;
        found = smaller_triple(found, next);
    }
    Ok(found)
}
