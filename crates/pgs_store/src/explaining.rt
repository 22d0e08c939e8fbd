//! Which types of a schema an element of a graph fits.

ghost use Rattle.std.specs.Prelude.{◌≡◌, ◌<◌, true, filter, IfOk};
ghost use Rattle.pgs_base.specs.declared.element.Elem.TheVariants.{Node, Edge};
ghost use Rattle.pgs_base.specs.Pair.{pair_of};
ghost use Rattle.pgs_conform.specs.Shapes.{triple_of};
ghost use Rattle.pgs_graph.specs.Reads.{edge_row};
ghost use Rattle.pgs_syntax.specs.Valid.{is_type};
ghost use Rattle.pgs_store.specs.Explained.{types_of};
ghost use Rattle.pgs_store.specs.Fits.{fits_as_node, fits_as_edge, edge_types_of};

use pgs_base::{EdgeId, Elem, List, Memory, NodeId, Steps};
use pgs_conform::{Compiled, Pair, edge_fits, node_fits};
use pgs_graph::{EdgeRef, GraphRead, NodeRef};
use pgs_syntax::TypeNo;
use std::alloc::Global;
use std::marker::Brand;
use std::sync::ledger::{Blank, Ledger};

// What a node carries, as a pair.
fn pair_of(node: NodeRef<'_>) -> Pair<'_>
    ensures { result ≡ pair_of node.entry.labels.now node.entry.props.now }
{
    Pair {
        labels: node.labels,
        props: node.props,
    }
}

// Whether a type is one of nodes, and the pair fits it.
fn fits_as_node(compiled: &Compiled, own: &Pair<'_>, type_no: TypeNo) -> bool
    requires { is_type compiled.now type_no ≡ true }
    ensures { result ≡ fits_as_node compiled.now own.now type_no }
{
    match type_no {
        TypeNo::Node(number) => node_fits(compiled, number, own.labels, own.props),
        TypeNo::Edge(_) => false,
    }
}

// Whether a type is one of edges, and the pairs of an edge's source, of itself and of its target fit it.
fn fits_as_edge(
    compiled: &Compiled,
    source: &Pair<'_>,
    own: &Pair<'_>,
    target: &Pair<'_>,
    type_no: TypeNo,
) -> bool
    requires { is_type compiled.now type_no ≡ true }
    ensures { result ≡ fits_as_edge compiled.now (triple_of source.now own.now target.now) type_no }
{
    match type_no {
        TypeNo::Node(_) => false,
        TypeNo::Edge(number) => edge_fits(compiled, number, source, own, target),
    }
}

// The types of the guard that a node's pair fits.
fn node_types(alloc: Global, compiled: &Compiled, own: &Pair<'_>) -> Result<List<TypeNo>, Memory>
    ensures { IfOk result (λ types. types ≡ filter (fits_as_node compiled.now own.now) compiled.now.guard.types) }
{
    let mut fitting = Vec::new(alloc);
    let types = compiled.resolved().guard.types.as_slice();
    for type_no in types {
        if fits_as_node(compiled, own, *type_no) {
            fitting.push(*type_no)?;
        }
    }
    Ok(List::from_vec(fitting))
}

// The types of the guard that the pairs of an edge's source, of itself and of its target fit.
fn triple_types(
    alloc: Global,
    compiled: &Compiled,
    source: &Pair<'_>,
    own: &Pair<'_>,
    target: &Pair<'_>,
) -> Result<List<TypeNo>, Memory>
    ensures { IfOk result (λ types.
        types ≡ filter (fits_as_edge compiled.now (triple_of source.now own.now target.now)) compiled.now.guard.types) }
{
    let mut fitting = Vec::new(alloc);
    let types = compiled.resolved().guard.types.as_slice();
    for type_no in types {
        if fits_as_edge(compiled, source, own, target, *type_no) {
            fitting.push(*type_no)?;
        }
    }
    Ok(List::from_vec(fitting))
}

// The types of the guard that an edge fits, by its ends in the graph.
fn edge_types<G: GraphRead, L: Ledger>(
    alloc: Global,
    graph: &G,
    compiled: &Compiled,
    edge: EdgeRef<'_>,
    steps: &mut Steps<L>,
) -> Result<List<TypeNo>, Memory>
    ensures { IfOk result (λ types. types ≡ edge_types_of compiled.now (G.meaning graph.now)
        (edge_row edge.entry.source edge.entry.target edge.entry.labels.now edge.entry.props.now)) }
{
    let Some(source) = graph.node(edge.source, steps) else {
        return Ok(List::new(alloc));
    };
    let Some(target) = graph.node(edge.target, steps) else {
        return Ok(List::new(alloc));
    };
    let own = Pair {
        labels: edge.labels,
        props: edge.props,
    };
    triple_types(alloc, compiled, &pair_of(source), &own, &pair_of(target))
}

// The types of the guard that the node of a number fits; none where it isn't in the graph.
fn types_at_node<G: GraphRead, L: Ledger>(
    alloc: Global,
    graph: &G,
    compiled: &Compiled,
    id: NodeId,
    steps: &mut Steps<L>,
) -> Result<List<TypeNo>, Memory>
    ensures { IfOk result (λ types. types ≡ types_of compiled.now (G.meaning graph.now) (Node id)) }
{
    match graph.node(id, steps) {
        Some(node) => node_types(alloc, compiled, &pair_of(node)),
        None => Ok(List::new(alloc)),
    }
}

// The types of the guard that the edge of a number fits; none where it isn't in the graph.
fn types_at_edge<G: GraphRead, L: Ledger>(
    alloc: Global,
    graph: &G,
    compiled: &Compiled,
    id: EdgeId,
    steps: &mut Steps<L>,
) -> Result<List<TypeNo>, Memory>
    ensures { IfOk result (λ types. types ≡ types_of compiled.now (G.meaning graph.now) (Edge id)) }
{
    match graph.edge(id, steps) {
        Some(edge) => edge_types(alloc, graph, compiled, edge, steps),
        None => Ok(List::new(alloc)),
    }
}

// The types of the guard that an element fits, by a counter of the ledger.
fn types_by<G: GraphRead, L: Ledger>(
    alloc: Global,
    graph: &G,
    compiled: &Compiled,
    elem: Elem,
    blank: Blank,
) -> Result<List<TypeNo>, Memory>
    requires name { blank.name ≡ L.name }
    requires parts { blank.parts ≡ L.parts }
    requires some { 0 < blank.parts }
    ensures { IfOk result (λ types. types ≡ types_of compiled.now (G.meaning graph.now) elem) }
{
    let mut steps: Steps<L> = Steps::begin(blank);
    match elem {
        Elem::Node(id) => types_at_node(alloc, graph, compiled, id, &mut steps),
        Elem::Edge(id) => types_at_edge(alloc, graph, compiled, id, &mut steps),
    }
}

/// The types of the guard that an element fits, abstract ones too, in the guard's order; none where the element isn't in the graph.
pub(crate) fn types_of<G: GraphRead>(
    alloc: Global,
    graph: &G,
    compiled: &Compiled,
    elem: Elem,
) -> Result<List<TypeNo>, Memory>
    ensures { IfOk result (λ types. types ≡ types_of compiled.now (G.meaning graph.now) elem) }
{
    types_by::<G, Brand>(alloc, graph, compiled, elem, Blank::new(1))
}
