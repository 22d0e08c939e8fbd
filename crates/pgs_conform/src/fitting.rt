//! Does an element fit a type, and is it typed? No test takes memory.

ghost use Rattle.std.specs.Prelude.{◌≡◌, ◌<◌, length};
ghost use Rattle.pgs_base.specs.Pair.{pair_of};
ghost use Rattle.pgs_syntax.specs.Fitting.{fits_node, fits_edge};
ghost use Rattle.pgs_syntax.specs.Typed.{is_typed_node, is_typed_triple, types_node, types_edge};
ghost use Rattle.pgs_conform.specs.Shapes.{in_shape, in_some, in_triple, in_some_triple, triple_of};

use crate::walking::{labels_fit, props_fit};
use crate::{Compiled, Pair, Shape, Triple};
use pgs_base::{Labels, Props};
use pgs_syntax::TypeNo;

impl Shape {
    /// Whether a pair is in the shape.
    pub fn has(&self, own: &Pair<'_>) -> bool
        ensures { result ≡ in_shape self.now own.now }
    {
        labels_fit(
            self.labels.as_slice(),
            self.more_labels,
            own.labels.as_slice(),
        ) && props_fit(self.keys.as_slice(), self.more_keys, own.props.as_slice())
    }
}

impl Triple {
    /// Whether the pairs of an edge's source, of the edge itself and of its target are in the triple of shapes.
    pub fn has(&self, source: &Pair<'_>, middle: &Pair<'_>, target: &Pair<'_>) -> bool
        ensures { result ≡ in_triple self.now (triple_of source.now middle.now target.now) }
    {
        self.source.has(source) && self.middle.has(middle) && self.target.has(target)
    }
}

fn some_has(shapes: &[Shape], own: &Pair<'_>) -> bool
    ensures { result ≡ in_some shapes.now own.now }
{
    shapes.iter().any(|shape| shape.has(own))
}

fn some_triple_has(
    triples: &[Triple],
    source: &Pair<'_>,
    middle: &Pair<'_>,
    target: &Pair<'_>,
) -> bool
    ensures { result ≡ in_some_triple triples.now (triple_of source.now middle.now target.now) }
{
    triples
        .iter()
        .any(|triple| triple.has(source, middle, target))
}

/// Whether labels and properties fit the node type of a number, which is in range. The rule is `fits_node` of `pgs_syntax`.
pub fn node_fits(compiled: &Compiled, number: u32, labels: &Labels, props: &Props) -> bool
    requires { number < length compiled.now.nodes }
    ensures { result ≡ fits_node compiled.now number (pair_of labels.now props.now) }
{
    let own = Pair { labels, props };
    own.facts();
    some_has(compiled.shapes_of_node(number).as_slice(), &own)
}

/// Whether an edge fits the edge type of a number, which is in range, by the pairs of its source, of itself and of its target. The
/// rule is `fits_edge` of `pgs_syntax`.
pub fn edge_fits(
    compiled: &Compiled,
    number: u32,
    source: &Pair<'_>,
    middle: &Pair<'_>,
    target: &Pair<'_>,
) -> bool
    requires { number < length compiled.now.edges }
    ensures { result ≡ fits_edge compiled.now number (triple_of source.now middle.now target.now) }
{
    source.facts();
    middle.facts();
    target.facts();
    let triples = compiled.shapes_of_edge(number).as_slice();
    some_triple_has(triples, source, middle, target)
}

// Whether a type makes a node of this pair typed.
fn types_node(compiled: &Compiled, type_no: TypeNo, own: &Pair<'_>) -> bool
    ensures { result ≡ types_node compiled.now own.now type_no }
{
    let TypeNo::Node(number) = type_no else {
        return false;
    };
    match compiled.resolved().nodes.at(number as usize) {
        Some(node_type) => {
            !node_type.hidden && node_fits(compiled, number, own.labels, own.props)
        }
        None => false,
    }
}

// Whether a type makes an edge of these pairs typed.
fn types_edge(
    compiled: &Compiled,
    type_no: TypeNo,
    source: &Pair<'_>,
    middle: &Pair<'_>,
    target: &Pair<'_>,
) -> bool
    ensures { result ≡ types_edge compiled.now (triple_of source.now middle.now target.now) type_no }
{
    let TypeNo::Edge(number) = type_no else {
        return false;
    };
    match compiled.resolved().edges.at(number as usize) {
        Some(edge_type) => !edge_type.hidden && edge_fits(compiled, number, source, middle, target),
        None => false,
    }
}

/// Whether a node of this pair is typed: it fits a type of the guard that isn't abstract. The rule is `is_typed_node` of
/// `pgs_syntax`.
pub fn node_typed(compiled: &Compiled, own: &Pair<'_>) -> bool
    ensures { result ≡ is_typed_node compiled.now own.now }
{
    let types = compiled.resolved().guard.types.as_slice();
    types
        .iter()
        .any(|type_no| types_node(compiled, *type_no, own))
}

/// Whether an edge is typed, by the pairs of its source, of itself and of its target: they fit a type of the guard that isn't
/// abstract. The rule is `is_typed_triple` of `pgs_syntax`.
pub fn edge_typed(
    compiled: &Compiled,
    source: &Pair<'_>,
    middle: &Pair<'_>,
    target: &Pair<'_>,
) -> bool
    ensures { result ≡ is_typed_triple compiled.now (triple_of source.now middle.now target.now) }
{
    let types = compiled.resolved().guard.types.as_slice();
    types.iter().any(|type_no| types_edge(compiled, *type_no, source, middle, target))
}
