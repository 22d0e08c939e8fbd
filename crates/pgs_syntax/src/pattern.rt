use pgs_base::{List, Name, Value};

/// One demand of a pattern. Variables and types are numbered from 0.
#[derive(Drop)]
pub enum Atom {
    /// The edge has this source and this target.
    Ends { edge: u32, source: u32, target: u32 },
    /// The element carries the label.
    HasLabel { var: u32, label: Name },
    /// The node fits the node type of this number, abstract or not.
    FitsNode { var: u32, number: u32 },
    /// The edge fits the edge type of this number, abstract or not.
    FitsEdge { var: u32, number: u32 },
    /// The property is present with this value.
    Equals { var: u32, key: Name, value: Value },
}

/// A pattern: which of its variables are edges (the others are nodes), and what must hold of them.
#[derive(Drop)]
pub struct Pattern {
    pub edge_vars: List<bool>,
    pub atoms: List<Atom>,
}

/// What a key reads under a match: the element of a variable, or a property of it.
#[derive(PartialEq, Eq, Drop)]
pub enum Expr {
    Element(u32),
    Property { var: u32, key: Name },
}
