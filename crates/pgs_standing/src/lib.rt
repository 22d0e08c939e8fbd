//! What can stand under a guard, and an example of a type: the plainest thing that fits it and can stand, with the fewest labels and
//! properties.
//!
//! What two shapes have in common is a shape or nothing (`common`), and the plainest pair of a shape is known at once (`plain_pair`).
//! So an example is looked for among the shapes of its type and those of what the guard types. The rules stand in
//! `specs/Standing.antt` and `specs/Example.antt`: they speak of all pairs, and of no shapes.
#![tactic(auto)]

mod apart;
mod choice;
mod example;
mod in_common;
mod least;
mod limits;
mod pairs;
mod standing;
mod triples;

pub use apart::are_apart;
pub use example::example_of;
pub use in_common::{common, common_triple};
pub use least::plain_pair;
pub use limits::{MOST_LABELS, MOST_PROPS};
pub use standing::{standing_shapes, standing_triples};
