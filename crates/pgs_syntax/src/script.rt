use crate::{EdgeType, NodeType, RawKey};
use pgs_base::{Boxed, List, Name};

/// A member of a graph type: the name of an element type, or a type declared on the spot. Types are in boxes, so that
/// a list of names takes little memory.
#[derive(Drop)]
pub enum Member {
    Named(Name),
    Node(Boxed<NodeType<Name>>),
    Edge(Boxed<EdgeType<Name>>),
}

/// A graph type as written. `strict` is the word STRICT in place of LOOSE; `place` is the number of the declaration in
/// the script, from 1.
#[derive(Drop)]
pub struct GraphType {
    pub name: Name,
    pub strict: bool,
    pub place: u32,
    pub imports: List<Name>,
    pub members: List<Member>,
    pub keys: List<RawKey>,
}

/// A declaration of a script.
#[derive(Drop)]
pub enum Statement {
    Node(Boxed<NodeType<Name>>),
    Edge(Boxed<EdgeType<Name>>),
    Graph(Boxed<GraphType>),
}

/// A schema as written.
#[derive(Drop)]
pub struct Script {
    pub statements: List<Statement>,
}
