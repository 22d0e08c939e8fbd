//! The tuple that expressions give under bindings.

ghost use Rattle.std.specs.Prelude.{◌≡◌, ◌+◌, ◌≤◌, length, IfOk, option_map, option_and_then};
ghost use Rattle.pgs_base.specs.declared.row.NodeRow.{NodeRow};
ghost use Rattle.pgs_base.specs.Pair.{value_at};
ghost use Rattle.pgs_syntax.specs.Matches.{carried};
ghost use Rattle.pgs_match.specs.Bounds.{elem_of};
ghost use Rattle.pgs_match.specs.Search.{part_at, tuple_at};

use crate::{Bindings, Bound, Search};
use pgs_base::{List, Memory, Name, Part, Steps, Tuple};
use pgs_conform::property_part;
use pgs_graph::GraphRead;
use pgs_syntax::Expr;
use std::alloc::Global;
use std::sync::ledger::Ledger;

impl<'a, G: GraphRead> Search<'a, G> {
    // The value of a property of what is bound, where it is present. At most one look-up.
    fn property<L: Ledger>(
        &self,
        alloc: Global,
        bound: Option<Bound>,
        key: &Name,
        steps: &mut Steps<L>,
    ) -> Result<Option<Part>, Memory>
        ensures value { IfOk result (λ part. part ≡ option_map (λ value. Part.Value value)
            (option_and_then (λ (own : NodeRow). value_at key.now own.props)
            (option_and_then (λ bound. carried (G.meaning self.now.graph.now) (elem_of bound)) bound))) }
        ensures no_step_back { steps.old ≤ steps.new }
        ensures at_most { steps.new ≤ steps.old + 1 }
    {
        match bound {
            Some(Bound::Node(id)) => match self.graph.node(id, steps) {
                Some(row) => property_part(alloc, row.props, key),
                None => Ok(None),
            },
            Some(Bound::Edge { id, .. }) => match self.graph.edge(id, steps) {
                Some(row) => property_part(alloc, row.props, key),
                None => Ok(None),
            },
            None => Ok(None),
        }
    }

    // What an expression gives under bindings. At most one look-up.
    fn part<L: Ledger>(
        &self,
        alloc: Global,
        expr: &Expr,
        bindings: &Bindings,
        steps: &mut Steps<L>,
    ) -> Result<Option<Part>, Memory>
        ensures value { IfOk result (λ part. part ≡ part_at (G.meaning self.now.graph.now) bindings.now expr.now) }
        ensures no_step_back { steps.old ≤ steps.new }
        ensures at_most { steps.new ≤ steps.old + 1 }
    {
        match expr {
            Expr::Element(var) => match bindings.at(*var) {
                Some(bound) => Ok(Some(Part::Elem(bound.elem()))),
                None => Ok(None),
            },
            Expr::Property { var, key } => self.property(alloc, bindings.at(*var), key, steps),
        }
    }

    /// The tuple of expressions, where each of them gives something. At most one look-up for each.
    pub(crate) fn tuple<L: Ledger>(
        &self,
        alloc: Global,
        exprs: &[Expr],
        bindings: &Bindings,
        steps: &mut Steps<L>,
    ) -> Result<Option<Tuple>, Memory>
        ensures value { IfOk result (λ tuple. tuple ≡ tuple_at (G.meaning self.now.graph.now) exprs.now bindings.now) }
        ensures no_step_back { steps.old ≤ steps.new }
        ensures at_most { steps.new ≤ steps.old + length exprs.now }
    {
        // Most keys have one expression, whose part needs no list.
        if let [expr] = exprs {
            let part = self.part(alloc, expr, bindings, steps)?;
            return Ok(part.map(Tuple::one));
        }
        let mut parts = Vec::with_capacity(alloc, exprs.len())?;
        for expr in exprs {
            match self.part(alloc, expr, bindings, steps)? {
                Some(part) => parts.push(part)?,
                None => return Ok(None),
            }
        }
        Ok(Some(Tuple::new(List::from_vec(parts))))
    }
}
