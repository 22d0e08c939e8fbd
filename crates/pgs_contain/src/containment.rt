ghost use Rattle.std.specs.Prelude.{◌≡◌, true, IfOk, IfSome, MatchOption, ◌<◌, length, option_map};
ghost use Rattle.std.specs.List.{list_all};
ghost use Rattle.pgs_contain.specs.Contained.{has_type, IsContained, IsOutside};
ghost use Rattle.pgs_contain.specs.Known.{lacks_label, lacks_label_three};
ghost use Rattle.pgs_contain.specs.Strange.{AreTypedShapes, AreTypedTriples, IsStrange};
ghost use Rattle.pgs_contain.specs.Containing.{NodeAnswers, EdgeAnswers, outside_triple};
ghost use Rattle.pgs_contain.specs.declared.outside.Outside.TheVariants.{Node};
ghost use Rattle.pgs_syntax.specs.declared.resolved.Resolved.{Resolved};

use crate::further::{Further, further_than};
use crate::shapes::outside_of_shapes;
use crate::triples::{OwnedTriple, outside_of_triples};
use crate::typed::{shapes_of_guard, triples_of_guard};
use crate::{Outside, OwnedPair};
use pgs_base::{List, Memory, Name};
use pgs_conform::{Compiled, Shape, Triple};
use pgs_syntax::TypeNo;
use std::alloc::Global;
use std::marker::Model;

/// What it takes to tell of types of other schemas whether a schema contains them, made once: the shapes of what is typed in it, and a
/// name that is none of those to avoid. Contracts see the schema and these names.
pub struct Containing<'a> {
    second: &'a Compiled,
    shapes: List<Shape>,
    triples: List<Triple>,
    further: Further<'a>,
}

impl<'a> Model for Containing<'a> {
    ghost use Rattle.std.specs.Coded.{codes};
    ghost use Rattle.pgs_syntax.specs.contracts.resolved.Resolved as schemas;
    ghost use Rattle.pgs_contain.specs.Containing.{ContainingState, IsContaining};

    ghost Value = { ContainingState };

    ghost coded = { Prim.hlevel (codes, schemas.the_row.coded) };

    ghost view = { λ it. record { second = it.second.now; avoid = it.further.avoid.now } };

    ghost invariant = { λ it. IsContaining it.second.now it.further.name it.shapes it.triples };
}

// Dropped here, so that crates above need not prove what it holds.
impl Drop for Containing<'_> {
    fn drop(self) {
        let Containing {
            second: _,
            shapes: _,
            triples: _,
            further: _,
        } = self;
    }
}

// A pair that fits a node type of a schema and is untyped in a second one, by the shapes of what is typed there, with the plainest values.
fn outside_of_node(
    alloc: Global,
    first: &Compiled,
    number: u32,
    others: &[Shape],
    further: &Further<'_>,
) -> Result<Option<OwnedPair>, Memory>
    requires range { number < length first.now.nodes }
    requires lack { list_all (lacks_label further.now.name) others.now ≡ true }
    ensures { (second : Resolved) → AreTypedShapes second others.now → IfOk result (NodeAnswers further.now.avoid.now first.now number second) }
{
    outside_of_shapes(
        alloc,
        first.shapes_of_node(number).as_slice(),
        others,
        further,
    )
}

// A triple of pairs that fits an edge type of a schema and is untyped in a second one, by the triples of shapes of what is typed there, with
// the plainest values.
fn outside_of_edge(
    alloc: Global,
    first: &Compiled,
    number: u32,
    others: &[Triple],
    further: &Further<'_>,
) -> Result<Option<OwnedTriple>, Memory>
    requires range { number < length first.now.edges }
    requires lack { list_all (lacks_label_three further.now.name) others.now ≡ true }
    ensures { (second : Resolved) → AreTypedTriples second others.now → IfOk result (EdgeAnswers further.now.avoid.now first.now number second) }
{
    outside_of_triples(
        alloc,
        first.shapes_of_edge(number).as_slice(),
        others,
        further,
    )
}

// What is outside of a node type, or of an edge type.
fn outside_in_node(own: Option<OwnedPair>) -> Option<Outside>
    ensures { result ≡ option_map Node own }
{
    match own {
        Some(pair) => Some(Outside::Node(pair)),
        None => None,
    }
}

fn outside_in_edge(own: Option<OwnedTriple>) -> Option<Outside>
    ensures { result ≡ option_map outside_triple own }
{
    match own {
        Some(
            OwnedTriple {
                source,
                middle,
                target,
            },
        ) => Some(Outside::Edge {
            source,
            middle,
            target,
        }),
        None => None,
    }
}

impl<'a> Containing<'a> {
    /// Goes over the types of a schema, and over names to avoid, once. `Memory` where there was none left.
    pub fn new(
        alloc: Global,
        second: &'a Compiled,
        avoid: &'a [Name],
    ) -> Result<Containing<'a>, Memory>
        ensures { IfOk result (λ made. (made.second ≡ second.now) × (made.avoid ≡ avoid.now)) }
    {
        let shapes = shapes_of_guard(alloc, second)?;
        let triples = triples_of_guard(alloc, second)?;
        let further = further_than(alloc, shapes.as_slice(), triples.as_slice(), avoid)?;
        Ok(Containing {
            second,
            shapes,
            triples,
            further,
        })
    }

    /// What is outside of a type of a schema, by its number, which is in range: a pair, or a triple of pairs, that fits it and is
    /// untyped in the second schema, with the plainest values, and without the names to avoid but for those that shapes name. `None` exactly
    /// where there is none: then whatever fits the type is typed in the second schema. The rules are `IsContained` of
    /// `specs/Contained.antt` and `IsStrange` of `specs/Strange.antt`. `Memory` where there was none left.
    pub fn outside_of(
        &self,
        alloc: Global,
        first: &Compiled,
        number: TypeNo,
    ) -> Result<Option<Outside>, Memory>
        requires { has_type first.now number ≡ true }
        ensures answer { IfOk result (λ answer. MatchOption answer (IsContained first.now number self.now.second) (IsOutside first.now number self.now.second)) }
        ensures strange { IfOk result (λ answer. IfSome answer (IsStrange self.now.avoid first.now number self.now.second)) }
    {
        match number {
            TypeNo::Node(place) => {
                let own = outside_of_node(
                    alloc,
                    first,
                    place,
                    self.shapes.as_slice(),
                    &self.further,
                )?;
                Ok(outside_in_node(own))
            }
            TypeNo::Edge(place) => {
                let own = outside_of_edge(
                    alloc,
                    first,
                    place,
                    self.triples.as_slice(),
                    &self.further,
                )?;
                Ok(outside_in_edge(own))
            }
        }
    }
}
