use pgs_base::{Boxed, Kind, List, Name};

/// What stands in a label position of a specification.
#[derive(PartialEq, Eq, Drop)]
pub enum Leaf {
    /// A label.
    Label(Name),
    /// The element type of this number, from 0; in a node type a node type, in a middle an edge type.
    Named(u32),
}

/// A property that braces name: its key, the kind of its value, and whether it may be absent.
#[derive(PartialEq, Eq, Drop)]
pub struct Property {
    pub key: Name,
    pub kind: Kind,
    pub optional: bool,
}

/// The properties between braces. With `more` the keys that they don't name are free; without it there is no other key.
#[derive(Drop)]
pub struct Braces {
    pub properties: List<Property>,
    pub more: bool,
}

/// A specification of elements: which pairs of a label set and a property map it admits. What each form means is the
/// definition `fits` in `specs/Fitting.antt`. `N` is what stands in a label position, a `Name` as written or a `Leaf`
/// as resolved.
#[derive(Drop)]
pub enum Spec<N> {
    /// Nothing written: no labels, no properties.
    Empty,
    /// A label, or a named element type.
    Word(N),
    /// OPEN beside the labels: any labels, no properties.
    OpenLabels,
    /// No labels, and properties as the braces say.
    Braces(Braces),
    /// `A & B`: joins of one pair for each part.
    And(List<Spec<N>>),
    /// `A | B`: what some part admits.
    Or(List<Spec<N>>),
    /// `A?`: what the part admits, and the empty pair.
    Opt(Boxed<Spec<N>>),
}
