//! A type by one of its shapes, with the differences of an element and the shape; none where nothing is in the shape.

ghost use Rattle.std.specs.Prelude.{◌≡◌, ◌++◌, OnOk, IfOk};
ghost use Rattle.pgs_conform.specs.Shapes.{triple_of};
ghost use Rattle.pgs_differences.specs.Nearest.{is_possible_key, is_possible, end_differences, near_nodes, near_edges};

use crate::told::{differences, key_differences, label_differences};
use crate::{Difference, NearType};
use pgs_base::{List, Memory, Name};
use pgs_conform::{Options, Pair, Shape, Triple};
use pgs_syntax::TypeNo;
use std::alloc::Global;

fn is_possible_key(key: &(Name, Options)) -> bool
    ensures { result ≡ is_possible_key key.now }
{
    let options = key.1;
    options.absent | (options.text | (options.int | (options.boolean | options.date)))
}

// Whether something may stand at each key of a shape.
#[tactic(auto, unfolding(crate::specs::Nearest::is_possible))]
fn is_possible(shape: &Shape) -> bool
    ensures { result ≡ is_possible shape.now }
{
    shape.keys.as_slice().iter().all(|key| is_possible_key(key))
}

// The differences at an end of an edge: those in labels alone, where there are such.
#[tactic(auto, unfolding(crate::specs::Nearest::end_differences))]
fn end_differences(alloc: Global, shape: &Shape, end: &Pair<'_>) -> Result<List<Difference>, Memory>
    ensures { IfOk result (λ found. found ≡ end_differences shape.now end.now) }
{
    let in_labels = label_differences(alloc, shape, end.labels)?;
    if in_labels.is_empty() {
        key_differences(alloc, shape, end.props)
    } else {
        Ok(in_labels)
    }
}

/// Puts a node type by one of its shapes last.
pub(crate) fn push_near_node(
    alloc: Global,
    number: u32,
    own: &Pair<'_>,
    shape: &Shape,
    nears: &mut Vec<NearType>,
) -> Result<(), Memory>
    ensures { OnOk result (nears.new.items ≡ nears.old.items ++ near_nodes number own.now shape.now) }
{
    if is_possible(shape) {
        let own = differences(alloc, shape, own)?;
        nears.push(NearType {
            type_no: TypeNo::Node(number),
            source: List::new(alloc),
            own,
            target: List::new(alloc),
        })?;
    }
    Ok(())
}

/// Puts an edge type by one of its triples of shapes last.
pub(crate) fn push_near_edge(
    alloc: Global,
    number: u32,
    source: &Pair<'_>,
    own: &Pair<'_>,
    target: &Pair<'_>,
    shapes: &Triple,
    nears: &mut Vec<NearType>,
) -> Result<(), Memory>
    ensures { OnOk result (nears.new.items ≡ nears.old.items ++ near_edges number (triple_of source.now own.now target.now) shapes.now) }
{
    if is_possible(&shapes.source) && is_possible(&shapes.middle) && is_possible(&shapes.target) {
        let source = end_differences(alloc, &shapes.source, source)?;
        let own = differences(alloc, &shapes.middle, own)?;
        let target = end_differences(alloc, &shapes.target, target)?;
        nears.push(NearType {
            type_no: TypeNo::Edge(number),
            source,
            own,
            target,
        })?;
    }
    Ok(())
}
