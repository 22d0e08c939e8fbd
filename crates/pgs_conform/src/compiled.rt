ghost use Rattle.std.specs.Prelude.{◌≡◌, ◌<◌, ◌≤◌, true, length};
ghost use Rattle.pgs_syntax.specs.Fitting.{fits_node, fits_edge};
ghost use Rattle.pgs_syntax.specs.Valid.{is_valid};
ghost use Rattle.pgs_conform.specs.Counts.{AreWithin, widths_of_nodes, widths_of_edges, forms_at};
ghost use Rattle.pgs_conform.specs.Shapes.{Denotes, DenotesTriples};
ghost use Rattle.pgs_conform.specs.Standing.{EachDenotes, EachDenotesTriples};

use crate::{Shape, Triple};
use pgs_base::List;
use pgs_syntax::Resolved;
use std::marker::Model;

/// A valid schema with its types compiled: for each type the list of its shapes, which denotes exactly what the definitions of
/// fitting say of the type, and has no more shapes than the type's width counts forms. Contracts see the schema.
pub struct Compiled {
    resolved: Resolved,
    nodes: List<List<Shape>>,
    edges: List<List<Triple>>,
}

// Dropped by one function of this crate, so that those above need not prove anew how a schema with its shapes is taken apart.
impl Drop for Compiled {
    fn drop(self) {
        let Compiled {
            resolved: _,
            nodes: _,
            edges: _,
        } = self;
    }
}

impl Model for Compiled {
    ghost use Rattle.pgs_syntax.specs.contracts.resolved.Resolved as schema;
    ghost use Rattle.pgs_syntax.specs.declared.resolved.Resolved.{Resolved as Schema};

    ghost Value = { Schema };

    ghost coded = { schema.the_row.coded };

    ghost use Rattle.pgs_conform.specs.Standing.{StandsFor};

    ghost view = { λ compiled. compiled.resolved };

    ghost invariant = { λ compiled. StandsFor compiled.resolved compiled.nodes compiled.edges };
}

impl Compiled {
    /// The compiled form of a valid schema, where each type has its list, in the order of the types, and each list denotes what its
    /// type asks and is no longer than the type's width counts. It takes no memory.
    pub fn new(resolved: Resolved, nodes: List<List<Shape>>, edges: List<List<Triple>>) -> Compiled
        requires valid { is_valid resolved ≡ true }
        requires node_count { length nodes ≡ length resolved.nodes }
        requires edge_count { length edges ≡ length resolved.edges }
        requires node_shapes { EachDenotes nodes (fits_node resolved) }
        requires edge_shapes { EachDenotesTriples edges (fits_edge resolved) }
        requires node_widths { AreWithin (widths_of_nodes resolved) nodes }
        requires edge_widths { AreWithin (widths_of_edges resolved) edges }
        ensures { result ≡ resolved }
    {
        Compiled {
            resolved,
            nodes,
            edges,
        }
    }

    /// The schema.
    pub fn resolved(&self) -> &Resolved
        ensures same { result.now ≡ self.now }
        ensures valid { is_valid self.now ≡ true }
    {
        &self.resolved
    }

    /// The shapes of a node type, by its number, which is in range: a pair is in some of them exactly where it fits the type. They
    /// are no more than its width counts.
    #[tactic(auto, using(crate::proofs::Counted::within_at))]
    pub fn shapes_of_node(&self, number: u32) -> &List<Shape>
        requires { number < length self.now.nodes }
        ensures denote { Denotes result.now (fits_node self.now number) }
        ensures within { length result.now ≤ forms_at (widths_of_nodes self.now) number }
    {
        &self.nodes.as_slice()[number as usize]
    }

    /// The triples of shapes of an edge type, by its number, which is in range: a triple of pairs is in some of them exactly where it
    /// fits the type. They are no more than its width counts.
    #[tactic(auto, using(crate::proofs::Counted::within_at))]
    pub fn shapes_of_edge(&self, number: u32) -> &List<Triple>
        requires { number < length self.now.edges }
        ensures denote { DenotesTriples result.now (fits_edge self.now number) }
        ensures within { length result.now ≤ forms_at (widths_of_edges self.now) number }
    {
        &self.edges.as_slice()[number as usize]
    }
}
