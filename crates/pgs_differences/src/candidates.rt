//! What of each type of the guard an element may be told: the nearest of its shapes.

ghost use Rattle.std.specs.Prelude.{◌≡◌, ◌<◌, ◌++◌, List as Items, true, length, flat_map, OnOk, IfOk, IsTrue};
ghost use Rattle.pgs_syntax.specs.Fitting.{fits_node, fits_edge};
ghost use Rattle.pgs_syntax.specs.Typed.{is_concrete_node_type, is_concrete_edge_type};
ghost use Rattle.pgs_conform.specs.declared.shape.Shape.{Shape as AShape};
ghost use Rattle.pgs_conform.specs.declared.shape.Triple.{Triple as ATriple};
ghost use Rattle.pgs_conform.specs.Shapes.{Denotes, DenotesTriples, triple_of};
ghost use Rattle.pgs_differences.specs.Nearest.{near_nodes, near_edges, nearest_shape, IsNodeCandidate, IsEdgeCandidate, Candidates};

use crate::NearType;
use crate::ordering::first_by_measure;
use crate::shaped::{push_near_edge, push_near_node};
use pgs_base::Memory;
use pgs_conform::{Compiled, Pair, Shape, Triple};
use pgs_syntax::TypeNo;
use std::alloc::Global;

fn near_nodes(
    alloc: Global,
    number: u32,
    own: &Pair<'_>,
    shapes: &[Shape],
) -> Result<Vec<NearType>, Memory>
    ensures { IfOk result (λ nears. nears.items ≡ flat_map (near_nodes number own.now) shapes.now) }
{
    let mut nears = Vec::new(alloc);
    for shape in shapes {
        push_near_node(alloc, number, own, shape, &mut nears)?;
    }
    Ok(nears)
}

fn nearest_node_shape(
    alloc: Global,
    compiled: &Compiled,
    number: u32,
    own: &Pair<'_>,
) -> Result<Vec<NearType>, Memory>
    requires { number < length compiled.now.nodes }
    ensures { IfOk result (λ found. (shapes : Items AShape) × Denotes shapes (fits_node compiled.now number)
        × (found.items ≡ nearest_shape (flat_map (near_nodes number own.now) shapes))) }
{
    let shapes = compiled.shapes_of_node(number).as_slice();
    let nears = near_nodes(alloc, number, own, shapes)?;
    first_by_measure(alloc, nears, 1)
}

fn is_concrete_node_type(compiled: &Compiled, number: u32) -> bool
    ensures value { result ≡ is_concrete_node_type compiled.now number }
    ensures within { IsTrue result → number < length compiled.now.nodes }
{
    match compiled.resolved().nodes.at(number as usize) {
        Some(node_type) => !node_type.hidden,
        None => false,
    }
}

fn node_candidate(
    alloc: Global,
    compiled: &Compiled,
    type_no: TypeNo,
    own: &Pair<'_>,
) -> Result<Vec<NearType>, Memory>
    ensures { IfOk result (λ found. IsNodeCandidate compiled.now own.now type_no found.items) }
{
    match type_no {
        TypeNo::Node(number) => {
            if is_concrete_node_type(compiled, number) {
                nearest_node_shape(alloc, compiled, number, own)
            } else {
                Ok(Vec::new(alloc))
            }
        }
        TypeNo::Edge(_) => Ok(Vec::new(alloc)),
    }
}

/// The candidates of the guard's types for a node, in the guard's order.
pub(crate) fn node_candidates(
    alloc: Global,
    compiled: &Compiled,
    own: &Pair<'_>,
) -> Result<Vec<NearType>, Memory>
    ensures { IfOk result (λ nears. Candidates (IsNodeCandidate compiled.now own.now) compiled.now.guard.types nears.items) }
{
    let mut nears = Vec::new(alloc);
    for type_no in compiled.resolved().guard.types.as_slice() {
        let mut found = node_candidate(alloc, compiled, *type_no, own)?;
        nears.append(&mut found)?;
    }
    Ok(nears)
}

fn near_edges(
    alloc: Global,
    number: u32,
    source: &Pair<'_>,
    own: &Pair<'_>,
    target: &Pair<'_>,
    triples: &[Triple],
) -> Result<Vec<NearType>, Memory>
    ensures { IfOk result (λ nears. nears.items ≡ flat_map (near_edges number (triple_of source.now own.now target.now)) triples.now) }
{
    let mut nears = Vec::new(alloc);
    for shapes in triples {
        push_near_edge(alloc, number, source, own, target, shapes, &mut nears)?;
    }
    Ok(nears)
}

fn nearest_edge_shapes(
    alloc: Global,
    compiled: &Compiled,
    number: u32,
    source: &Pair<'_>,
    own: &Pair<'_>,
    target: &Pair<'_>,
) -> Result<Vec<NearType>, Memory>
    requires { number < length compiled.now.edges }
    ensures { IfOk result (λ found. (triples : Items ATriple) × DenotesTriples triples (fits_edge compiled.now number)
        × (found.items ≡ nearest_shape (flat_map (near_edges number (triple_of source.now own.now target.now)) triples))) }
{
    let triples = compiled.shapes_of_edge(number).as_slice();
    let nears = near_edges(alloc, number, source, own, target, triples)?;
    first_by_measure(alloc, nears, 1)
}

fn is_concrete_edge_type(compiled: &Compiled, number: u32) -> bool
    ensures value { result ≡ is_concrete_edge_type compiled.now number }
    ensures within { IsTrue result → number < length compiled.now.edges }
{
    match compiled.resolved().edges.at(number as usize) {
        Some(edge_type) => !edge_type.hidden,
        None => false,
    }
}

fn edge_candidate(
    alloc: Global,
    compiled: &Compiled,
    type_no: TypeNo,
    source: &Pair<'_>,
    own: &Pair<'_>,
    target: &Pair<'_>,
) -> Result<Vec<NearType>, Memory>
    ensures { IfOk result (λ found. IsEdgeCandidate compiled.now (triple_of source.now own.now target.now) type_no found.items) }
{
    match type_no {
        TypeNo::Node(_) => Ok(Vec::new(alloc)),
        TypeNo::Edge(number) => {
            if is_concrete_edge_type(compiled, number) {
                nearest_edge_shapes(alloc, compiled, number, source, own, target)
            } else {
                Ok(Vec::new(alloc))
            }
        }
    }
}

/// The candidates of the guard's types for an edge, in the guard's order.
pub(crate) fn edge_candidates(
    alloc: Global,
    compiled: &Compiled,
    source: &Pair<'_>,
    own: &Pair<'_>,
    target: &Pair<'_>,
) -> Result<Vec<NearType>, Memory>
    ensures { IfOk result (λ nears. Candidates (IsEdgeCandidate compiled.now (triple_of source.now own.now target.now))
        compiled.now.guard.types nears.items) }
{
    let mut nears = Vec::new(alloc);
    for type_no in compiled.resolved().guard.types.as_slice() {
        let mut found = edge_candidate(alloc, compiled, *type_no, source, own, target)?;
        nears.append(&mut found)?;
    }
    Ok(nears)
}
