//! Binding a variable to an element that is there and passes all that is asked of the variable.

ghost use Rattle.std.specs.Prelude.{◌≡◌, ◌+◌, ◌≤◌, true};
ghost use Rattle.std.specs.List.{list_all};
ghost use Rattle.pgs_base.specs.Graph.{is_graph};
ghost use Rattle.pgs_syntax.specs.Typed.{triple_at};
ghost use Rattle.pgs_syntax.specs.Valid.{names_types};
ghost use Rattle.pgs_graph.specs.Reads.{edge_row};
ghost use Rattle.pgs_match.specs.Tests.{triple_meets, admitted_node, admitted_edge};

use crate::asked::{asks_some_edge_type, node_passes, pair_passes, triple_passes};
use crate::{Bound, Search};
use pgs_base::{EdgeId, NodeId, Steps};
use pgs_conform::Pair;
use pgs_graph::{EdgeRef, GraphRead};
use std::sync::ledger::Ledger;

impl<'a, G: GraphRead> Search<'a, G> {
    /// What the variable is bound to by a node, if it is there and passes. One look-up.
    pub fn admit_node<L: Ledger>(&self, var: u32, id: NodeId, steps: &mut Steps<L>) -> Option<Bound>
        requires { list_all (names_types self.now.compiled.now) self.now.atoms.now ≡ true }
        ensures value { result ≡ admitted_node self.now.compiled.now (G.meaning self.now.graph.now) self.now.atoms.now var id }
        ensures tick { steps.new ≡ steps.old + 1 }
        ensures graph { is_graph (G.meaning self.now.graph.now) ≡ true }
    {
        match self.graph.node(id, steps) {
            Some(row) if node_passes(self.compiled, self.atoms, var, row.labels, row.props) => {
                Some(Bound::Node(id))
            }
            _ => None,
        }
    }

    /// What the variable is bound to by an edge, if it is there and passes. At most three look-ups.
    pub fn admit_edge<L: Ledger>(&self, var: u32, id: EdgeId, steps: &mut Steps<L>) -> Option<Bound>
        requires { list_all (names_types self.now.compiled.now) self.now.atoms.now ≡ true }
        ensures value { result ≡ admitted_edge self.now.compiled.now (G.meaning self.now.graph.now) self.now.atoms.now var id }
        ensures no_step_back { steps.old ≤ steps.new }
        ensures at_most { steps.new ≤ steps.old + 3 }
        ensures graph { is_graph (G.meaning self.now.graph.now) ≡ true }
    {
        match self.graph.edge(id, steps) {
            Some(row) => {
                if pair_passes(self.atoms, var, row.labels, row.props)
                    && self.ends_pass(var, &row, steps)
                {
                    Some(Bound::Edge {
                        id,
                        source: row.source,
                        target: row.target,
                    })
                } else {
                    None
                }
            }
            None => None,
        }
    }

    // Whether an edge with the nodes at its ends fits the edge types that are asked of a variable.
    fn ends_pass<L: Ledger>(&self, var: u32, row: &EdgeRef<'_>, steps: &mut Steps<L>) -> bool
        requires { list_all (names_types self.now.compiled.now) self.now.atoms.now ≡ true }
        ensures value { result ≡ list_all (triple_meets self.now.compiled.now var
            (triple_at (G.meaning self.now.graph.now) (edge_row row.now.source row.now.target row.now.labels.now row.now.props.now))) self.now.atoms.now }
        ensures no_step_back { steps.old ≤ steps.new }
        ensures at_most { steps.new ≤ steps.old + 2 }
    {
        if !asks_some_edge_type(self.atoms, var) {
            return true;
        }
        let Some(source) = self.graph.node(row.source, steps) else {
            return false;
        };
        let Some(target) = self.graph.node(row.target, steps) else {
            return false;
        };
        triple_passes(
            self.compiled,
            self.atoms,
            var,
            &Pair {
                labels: source.labels,
                props: source.props,
            },
            &Pair {
                labels: row.labels,
                props: row.props,
            },
            &Pair {
                labels: target.labels,
                props: target.props,
            },
        )
    }
}
