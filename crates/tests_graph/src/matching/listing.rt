//! The plain program of patterns: all matches, by listing all ways to give each variable an element.

use pgs_base::{EdgeId, Elem, Memory, Name, NodeId, Part, Steps, Tuple, Value};
use pgs_conform::{Compiled, Pair, edge_fits, node_fits};
use pgs_graph::{Graph, GraphRead, NodeRef};
use pgs_syntax::{Atom, Expr, Pattern};
use std::alloc::Global;
use std::sync::ledger::Ledger;

/// An element with what it carries, and what its ends carry. A node has itself at both ends.
#[derive(Clone, Copy)]
pub struct Row<'a> {
    pub elem: Elem,
    pub source: NodeId,
    pub target: NodeId,
    pub own: NodeRef<'a>,
    pub at_source: NodeRef<'a>,
    pub at_target: NodeRef<'a>,
}

/// What is carried, as a pair.
pub fn pair(carried: NodeRef<'_>) -> Pair<'_> {
    Pair {
        labels: carried.labels,
        props: carried.props,
    }
}

/// The elements of a graph: so many nodes, and then its edges. Both are numbered from 0.
#[derive(Drop)]
pub struct Rows<'a> {
    pub rows: Vec<Row<'a>>,
    nodes: usize,
}

fn node_row<'a, L: Ledger>(graph: &'a Graph, id: NodeId, steps: &mut Steps<L>) -> Option<Row<'a>> {
    let own = graph.node(id, steps)?;
    Some(Row {
        elem: Elem::Node(id),
        source: id,
        target: id,
        own,
        at_source: own,
        at_target: own,
    })
}

fn edge_row<'a, L: Ledger>(graph: &'a Graph, id: EdgeId, steps: &mut Steps<L>) -> Option<Row<'a>> {
    let edge = graph.edge(id, steps)?;
    let at_source = graph.node(edge.source, steps)?;
    let at_target = graph.node(edge.target, steps)?;
    let own = NodeRef {
        labels: edge.labels,
        props: edge.props,
    };
    Some(Row {
        elem: Elem::Edge(id),
        source: edge.source,
        target: edge.target,
        own,
        at_source,
        at_target,
    })
}

impl Rows<'_> {
    /// The elements of a graph of up to 10 nodes and 10 edges, both numbered from 0.
    pub fn new<'a, L: Ledger>(
        alloc: Global,
        graph: &'a Graph,
        steps: &mut Steps<L>,
    ) -> Result<Rows<'a>, Memory> {
        let mut rows = Vec::new(alloc);
        for number in 0..10 {
            if let Some(row) = node_row(graph, NodeId(number), steps) {
                rows.push(row)?;
            }
        }
        let nodes = rows.len();
        for number in 0..10 {
            if let Some(row) = edge_row(graph, EdgeId(number), steps) {
                rows.push(row)?;
            }
        }
        Ok(Rows { rows, nodes })
    }

    // How many rows a variable may take.
    fn count(&self, is_edge: bool) -> u64 {
        if is_edge {
            self.rows.len().saturating_sub(self.nodes) as u64
        } else {
            self.nodes as u64
        }
    }

    // The row of a number among those that a variable may take.
    fn row(&self, is_edge: bool, nth: u64) -> Option<&Row<'_>> {
        let first = if is_edge { self.nodes } else { 0 };
        let place = nth.saturating_add(first as u64);
        self.rows.get(place as usize)
    }

    // How many assignments variables of these kinds have.
    fn assignment_count(&self, edge_vars: &[bool]) -> u64 {
        let mut count = 1u64;
        for is_edge in edge_vars {
            count = count.saturating_mul(self.count(*is_edge));
        }
        count
    }
}

/// A bit for each node and each edge.
pub fn bit(elem: Elem) -> u32 {
    match elem {
        Elem::Node(id) => 1u32.wrapping_shl((id.0 % 16) as u32),
        Elem::Edge(id) => 65_536u32.wrapping_shl((id.0 % 16) as u32),
    }
}

/// The bits of elements of one kind that stand ascending, each once.
pub fn bits(elems: &[Elem]) -> Option<u32> {
    let mut bits = 0u32;
    for elem in elems {
        if bit(*elem) <= bits {
            return None;
        }
        bits |= bit(*elem);
    }
    Some(bits)
}

/// The matches of a pattern over the elements of a graph, as numbers: an assignment of elements to variables is a number, in which the
/// choice of the first variable counts most.
#[derive(Drop)]
pub struct Listing<'a> {
    compiled: &'a Compiled,
    rows: &'a Rows<'a>,
    edge_vars: &'a [bool],
    matches: Vec<u64>,
}

impl Listing<'_> {
    /// Lists the matches of a pattern.
    pub fn new<'a>(
        alloc: Global,
        compiled: &'a Compiled,
        rows: &'a Rows<'a>,
        pattern: &'a Pattern,
    ) -> Result<Listing<'a>, Memory> {
        let edge_vars = pattern.edge_vars.as_slice();
        let mut listing = Listing {
            compiled,
            rows,
            edge_vars,
            matches: Vec::new(alloc),
        };
        for number in 0..rows.assignment_count(edge_vars) {
            if listing.is_match(pattern.atoms.as_slice(), number) {
                listing.matches.push(number)?;
            }
        }
        Ok(listing)
    }

    /// The elements of the graph.
    pub fn rows(&self) -> &[Row<'_>] {
        self.rows.rows.as_slice()
    }

    // The row that an assignment gives a variable.
    fn row(&self, number: u64, var: u32) -> Option<&Row<'_>> {
        let [is_edge, later @ ..] = self.edge_vars.get(var as usize..)? else {
            return None;
        };
        let count = self.rows.count(*is_edge);
        let nth = number.checked_div(self.rows.assignment_count(later));
        let nth = nth.unwrap_or(0).checked_rem(count).unwrap_or(0);
        self.rows.row(*is_edge, nth)
    }

    // The element that an assignment gives a variable.
    fn elem(&self, number: u64, var: u32) -> Option<Elem> {
        Some(self.row(number, var)?.elem)
    }

    fn has_label(&self, number: u64, var: u32, label: &Name) -> Option<bool> {
        Some(self.row(number, var)?.own.labels.contains(label))
    }

    fn value(&self, number: u64, var: u32, key: &Name) -> Option<&Value> {
        self.row(number, var)?.own.props.get(key)
    }

    // Whether an assignment gives a variable an edge with these ends.
    fn leads(&self, number: u64, edge: u32, source: u32, target: u32) -> Option<bool> {
        let edge = self.row(number, edge)?;
        Some(
            self.elem(number, source) == Some(Elem::Node(edge.source))
                && self.elem(number, target) == Some(Elem::Node(edge.target)),
        )
    }

    fn fits_node(&self, number: u64, var: u32, type_no: u32) -> Option<bool> {
        if type_no as usize >= self.compiled.resolved().nodes.len() {
            return None;
        }
        let own = self.row(number, var)?.own;
        Some(node_fits(self.compiled, type_no, own.labels, own.props))
    }

    fn fits_edge(&self, number: u64, var: u32, type_no: u32) -> Option<bool> {
        if type_no as usize >= self.compiled.resolved().edges.len() {
            return None;
        }
        let row = self.row(number, var)?;
        let (source, target) = (pair(row.at_source), pair(row.at_target));
        Some(edge_fits(self.compiled, type_no, &source, &pair(row.own), &target))
    }

    // Whether an atom holds under an assignment. Nothing is as good as `false`.
    fn holds(&self, atom: &Atom, nth: u64) -> Option<bool> {
        match atom {
            Atom::Ends {
                edge,
                source,
                target,
            } => self.leads(nth, *edge, *source, *target),
            Atom::HasLabel { var, label } => self.has_label(nth, *var, label),
            Atom::FitsNode { var, number } => self.fits_node(nth, *var, *number),
            Atom::FitsEdge { var, number } => self.fits_edge(nth, *var, *number),
            Atom::Equals { var, key, value } => Some(self.value(nth, *var, key) == Some(value)),
        }
    }

    fn is_match(&self, atoms: &[Atom], number: u64) -> bool {
        for atom in atoms {
            if self.holds(atom, number) != Some(true) {
                return false;
            }
        }
        true
    }

    // The bit of the element that an assignment gives the first variable.
    fn first_bit(&self, number: u64) -> u32 {
        match self.elem(number, 0) {
            Some(elem) => bit(elem),
            None => 0,
        }
    }

    /// The elements that come first in the matches in which a variable takes this element, as bits.
    pub fn reached(&self, var: u32, elem: Elem) -> u32 {
        let mut bits = 0;
        for number in self.matches.as_slice() {
            if self.elem(*number, var) == Some(elem) {
                bits |= self.first_bit(*number);
            }
        }
        bits
    }

    /// The elements that come first in some match, as bits.
    pub fn firsts(&self) -> u32 {
        let mut bits = 0;
        for number in self.matches.as_slice() {
            bits |= self.first_bit(*number);
        }
        bits
    }

    // Whether an expression gives this under an assignment.
    fn gives_part(&self, number: u64, expr: &Expr, part: &Part) -> bool {
        match (expr, part) {
            (Expr::Element(var), Part::Elem(elem)) => self.elem(number, *var) == Some(*elem),
            (Expr::Property { var, key }, Part::Value(value)) => {
                self.value(number, *var, key) == Some(value)
            }
            _ => false,
        }
    }

    // Whether expressions give this tuple under an assignment.
    fn gives(&self, number: u64, exprs: &[Expr], tuple: &Tuple) -> bool {
        let parts = tuple.parts();
        for (expr, part) in exprs.iter().zip(parts) {
            if !self.gives_part(number, expr, part) {
                return false;
            }
        }
        parts.len() == exprs.len()
    }

    // Whether each expression gives something under an assignment.
    fn gives_all(&self, number: u64, exprs: &[Expr]) -> bool {
        for expr in exprs {
            if let Expr::Property { var, key } = expr
                && self.value(number, *var, key).is_none()
            {
                return false;
            }
        }
        true
    }

    // The bit of the first of some tuples that is given under an assignment, or none.
    fn given(&self, number: u64, exprs: &[Expr], tuples: &[Tuple]) -> u64 {
        let mut bit = 1u64;
        for tuple in tuples {
            if self.gives(number, exprs, tuple) {
                return bit;
            }
            bit = bit.wrapping_shl(1);
        }
        0
    }

    /// Whether these, at most 64, are the tuples of expressions under the matches that have this element first: each of these matches
    /// gives one of them or nothing, and each of them is given.
    pub fn are_values(&self, exprs: &[Expr], elem: Elem, tuples: &[Tuple]) -> bool {
        let mut bits = 0u64;
        for number in self.matches.as_slice() {
            if self.elem(*number, 0) == Some(elem) && self.gives_all(*number, exprs) {
                let given = self.given(*number, exprs, tuples);
                if given == 0 {
                    return false;
                }
                bits |= given;
            }
        }
        bits.count_ones() as usize == tuples.len()
    }
}
