//! The compiled form of types, and the tests on it: does an element fit a type, and is it typed?
//!
//! Each type has a list of shapes, or of triples of shapes for an edge type. A shape says which labels and keys a pair may have,
//! and is tested by one walk over both; nothing is split, copied or allocated. What a shape means stands in `specs/Shapes.antt`.
//! Types see labels, keys and the kinds of values, and never a value: where two pairs look the same to them (`specs/Kinds.antt`), they fit
//! the same types ([`laws`]). So a change of values alone needs no test of types, neither of the element nor of the edges at it.
//! A `Compiled` keeps the schema and its lists, and that each list denotes exactly what the definitions of fitting say of its type.
//! Contracts see it as the schema.
#![tactic(auto)]

mod alike;
mod compiled;
mod fitting;
mod joined_options;
pub mod laws;
mod options;
mod pair;
pub mod samples;
mod shape;
mod walking;

pub use alike::looks_same;
pub use compiled::Compiled;
pub use fitting::{edge_fits, edge_typed, node_fits, node_typed};
pub use joined_options::{free_options, join_options};
pub use options::Options;
pub use pair::{Pair, property_part};
pub use shape::{Shape, Triple};
