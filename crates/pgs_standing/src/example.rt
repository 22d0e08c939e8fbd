ghost use Rattle.std.specs.Prelude.{◌≡◌, true, ◌<◌, length, IfOk, MatchOption};
ghost use Rattle.pgs_contain.specs.Contained.{has_type};
ghost use Rattle.pgs_standing.specs.Example.{serves_node, serves_edge, IsFoundPair, IsFoundTriple, IsNever, IsExample};

use crate::pairs::plain_in_lists;
use crate::standing::{standing_shapes, standing_triples};
use crate::triples::triple_in_lists;
use pgs_base::Memory;
use pgs_conform::Compiled;
use pgs_contain::{Outside, OwnedPair, OwnedTriple};
use pgs_syntax::TypeNo;
use std::alloc::Global;

// The plainest pair that fits a node type and can stand.
fn node_example(alloc: Global, schema: &Compiled, number: u32) -> Result<Option<OwnedPair>, Memory>
    requires { number < length schema.now.nodes }
    ensures { IfOk result (IsFoundPair (serves_node schema.now number)) }
{
    let standing = standing_shapes(alloc, schema)?;
    plain_in_lists(
        alloc,
        schema.shapes_of_node(number).as_slice(),
        standing.as_slice(),
    )
}

// The plainest triple of pairs that fits an edge type and can stand.
fn edge_example(
    alloc: Global,
    schema: &Compiled,
    number: u32,
) -> Result<Option<OwnedTriple>, Memory>
    requires { number < length schema.now.edges }
    ensures { IfOk result (IsFoundTriple (serves_edge schema.now number)) }
{
    let nodes = standing_shapes(alloc, schema)?;
    let edges = standing_triples(alloc, schema)?;
    triple_in_lists(
        alloc,
        schema.shapes_of_edge(number).as_slice(),
        edges.as_slice(),
        nodes.as_slice(),
    )
}

/// An example of a type, by its number, which is in range: a pair, or a triple of pairs, that fits it and can stand under the guard,
/// with the plainest values and as few labels and properties as any, so that none can be left out. `None` exactly where nothing
/// that fits the type can stand. The rules are `IsExample` and `IsNever` of `specs/Example.antt`. `Memory` where there was none left.
pub fn example_of(
    alloc: Global,
    schema: &Compiled,
    number: TypeNo,
) -> Result<Option<Outside>, Memory>
    requires { has_type schema.now number ≡ true }
    ensures { IfOk result (λ answer. MatchOption answer (IsNever schema.now number) (IsExample schema.now number)) }
{
    match number {
        TypeNo::Node(place) => {
            let own = node_example(alloc, schema, place)?;
            match own {
                Some(pair) => Ok(Some(Outside::Node(pair))),
                None => Ok(None),
            }
        }
        TypeNo::Edge(place) => {
            let own = edge_example(alloc, schema, place)?;
            match own {
                Some(
                    OwnedTriple {
                        source,
                        middle,
                        target,
                    },
                ) => Ok(Some(Outside::Edge {
                    source,
                    middle,
                    target,
                })),
                None => Ok(None),
            }
        }
    }
}
