use crate::Qualifiers;
use pgs_base::{List, Name, Value};

/// What is written of an element in a pattern: labels and type names, and properties with their values.
#[derive(Drop)]
pub struct RawFilter {
    pub names: List<Name>,
    pub tests: List<(Name, Value)>,
}

/// A place of a path: its variable, if one is written, and its filter.
#[derive(Drop)]
pub struct RawPlace {
    pub var: Option<Name>,
    pub filter: RawFilter,
}

/// An edge place and the node place after it. `forward` is `-[..]->`: the edge leads to that node.
#[derive(Drop)]
pub struct RawStep {
    pub edge: RawPlace,
    pub forward: bool,
    pub node: RawPlace,
}

/// A path of places, from a node place on.
#[derive(Drop)]
pub struct RawPath {
    pub start: RawPlace,
    pub steps: List<RawStep>,
}

/// A variable, or with a key a property of it.
#[derive(Drop)]
pub struct RawExpr {
    pub var: Name,
    pub key: Option<Name>,
}

/// A key as written. `place` is the number of its declaration in the script, from 1.
#[derive(Drop)]
pub struct RawKey {
    pub place: u32,
    pub qualifiers: Qualifiers,
    pub scope: List<RawPath>,
    pub exprs: List<RawExpr>,
    pub within: Option<List<RawPath>>,
}
