//! Is a type of one schema contained in another? It is where whatever fits it is typed in the other; else the answer is outside.
//!
//! Both types are shapes. The labels of what may be outside are settled at once: where a shape is free in labels, one further
//! label that no shape of the other schema names meets no closed shape, and no open one needs more. What may stand at its keys is a region,
//! and from it each shape of the other schema is taken in turn (`regions`). What is left, in its plainest form, is outside.
//! The rule stands in `specs/Contained.antt`: it speaks of all pairs, and of no shapes. That a further label or key is none of some names
//! stands in `specs/Strange.antt`. A caller makes a `Containing` once, and asks it of each type.
#![tactic(auto)]

mod containment;
mod frame;
mod further;
mod labels_of_three;
mod options;
mod outside;
mod regions;
mod shapes;
mod strange;
mod triples;
mod typed;
mod vocabulary;
mod witness;

pub use containment::Containing;
pub use frame::options_at;
pub use options::{common_options, is_possible};
pub use outside::{Outside, OwnedPair};
pub use triples::OwnedTriple;
pub use typed::{typed_shapes, typed_triples};
pub use vocabulary::{learn_keys, learn_names};
pub use witness::plainest;
