//! The shapes, and the triples of shapes, of all types of a guard that are not abstract.

ghost use Rattle.std.specs.Prelude.{◌≡◌, ◌≤◌, ◌+◌, ◌||◌, true, length, IfOk, OnOk};
ghost use Rattle.pgs_base.specs.declared.row.NodeRow.{NodeRow};
ghost use Rattle.pgs_base.specs.Pair.{is_pair};
ghost use Rattle.pgs_syntax.specs.Join.{PairTriple};
ghost use Rattle.pgs_syntax.specs.Triples.{is_triple};
ghost use Rattle.pgs_syntax.specs.Typed.{is_typed_node, is_typed_triple, types_node, types_edge};
ghost use Rattle.pgs_conform.specs.Shapes.{in_some, in_some_triple, Denotes, DenotesTriples};
ghost use Rattle.pgs_contain.specs.Strange.{AreTypedShapes, AreTypedTriples, node_forms, edge_forms};

use pgs_base::{List, Memory};
use pgs_conform::{Compiled, Shape, Triple};
use pgs_product::{copy_shape, copy_triple};
use pgs_syntax::TypeNo;
use std::alloc::Global;

// Puts shapes last.
fn push_shapes(alloc: Global, shapes: &[Shape], all: &mut Vec<Shape>) -> Result<(), Memory>
    ensures denote { OnOk result ((p : NodeRow) → in_some all.new.items p ≡ (in_some all.old.items p || in_some shapes.now p)) }
    ensures count { OnOk result (length all.new.items ≡ length all.old.items + length shapes.now) }
{
    for shape in shapes {
        let copy = copy_shape(alloc, shape)?;
        all.push(copy)?;
    }
    Ok(())
}

// Puts the shapes of a node type last, where it isn't abstract.
fn push_type(
    alloc: Global,
    schema: &Compiled,
    type_no: TypeNo,
    all: &mut Vec<Shape>,
) -> Result<(), Memory>
    ensures denote { OnOk result ((p : NodeRow) → is_pair p ≡ true →
        in_some all.new.items p ≡ (in_some all.old.items p || types_node schema.now p type_no)) }
    ensures within { OnOk result (length all.new.items ≤ length all.old.items + node_forms schema.now type_no) }
{
    let TypeNo::Node(number) = type_no else {
        return Ok(());
    };
    match schema.resolved().nodes.at(number as usize) {
        Some(node_type) if !node_type.hidden => {
            push_shapes(alloc, schema.shapes_of_node(number).as_slice(), all)
        }
        _ => Ok(()),
    }
}

/// The shapes of all node types of the guard that are not abstract: they denote which nodes are typed. `Memory` where there
/// was none left.
pub fn typed_shapes(alloc: Global, schema: &Compiled) -> Result<List<Shape>, Memory>
    ensures { IfOk result (λ shapes. Denotes shapes (is_typed_node schema.now)) }
{
    shapes_of_guard(alloc, schema)
}

/// The same, and they are no more than the widths of the types count.
pub(crate) fn shapes_of_guard(alloc: Global, schema: &Compiled) -> Result<List<Shape>, Memory>
    ensures { IfOk result (AreTypedShapes schema.now) }
{
    let mut all = Vec::new(alloc);
    let types = schema.resolved().guard.types.as_slice();
    for type_no in types {
        push_type(alloc, schema, *type_no, &mut all)?;
    }
    Ok(List::from_vec(all))
}

// Puts triples of shapes last.
fn push_triples(alloc: Global, triples: &[Triple], all: &mut Vec<Triple>) -> Result<(), Memory>
    ensures denote { OnOk result ((t : PairTriple) → in_some_triple all.new.items t ≡ (in_some_triple all.old.items t || in_some_triple triples.now t)) }
    ensures count { OnOk result (length all.new.items ≡ length all.old.items + length triples.now) }
{
    for triple in triples {
        let copy = copy_triple(alloc, triple)?;
        all.push(copy)?;
    }
    Ok(())
}

// Puts the triples of shapes of an edge type last, where it isn't abstract.
fn push_edge_type(
    alloc: Global,
    schema: &Compiled,
    type_no: TypeNo,
    all: &mut Vec<Triple>,
) -> Result<(), Memory>
    ensures denote { OnOk result ((t : PairTriple) → is_triple t ≡ true →
        in_some_triple all.new.items t ≡ (in_some_triple all.old.items t || types_edge schema.now t type_no)) }
    ensures within { OnOk result (length all.new.items ≤ length all.old.items + edge_forms schema.now type_no) }
{
    let TypeNo::Edge(number) = type_no else {
        return Ok(());
    };
    match schema.resolved().edges.at(number as usize) {
        Some(edge_type) if !edge_type.hidden => {
            push_triples(alloc, schema.shapes_of_edge(number).as_slice(), all)
        }
        _ => Ok(()),
    }
}

/// The triples of shapes of all edge types of the guard that are not abstract: they denote which edges are typed. `Memory`
/// where there was none left.
pub fn typed_triples(alloc: Global, schema: &Compiled) -> Result<List<Triple>, Memory>
    ensures { IfOk result (λ triples. DenotesTriples triples (is_typed_triple schema.now)) }
{
    triples_of_guard(alloc, schema)
}

/// The same, and they are no more than the widths of the types count.
pub(crate) fn triples_of_guard(alloc: Global, schema: &Compiled) -> Result<List<Triple>, Memory>
    ensures { IfOk result (AreTypedTriples schema.now) }
{
    let mut all = Vec::new(alloc);
    let types = schema.resolved().guard.types.as_slice();
    for type_no in types {
        push_edge_type(alloc, schema, *type_no, &mut all)?;
    }
    Ok(List::from_vec(all))
}
