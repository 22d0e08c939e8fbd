//! The exact product of two shapes: a pair is in it exactly where it is the join of a pair of the one with a pair of the other.
//!
//! One shape always suffices. Its labels are those of both, and at each key it has what the options of both leave together.
//! Labels and keys ascend in both, so one walk over both makes each. Products of lists of shapes, and of triples of shapes, stand
//! on it. What a shape means stands in `pgs_conform`, what a join is in `pgs_syntax`; the compiler of types is made of these calls.
#![tactic(auto)]

mod copies;
mod empty;
mod joining;
mod keys;
mod labels;
mod lists;
mod triple_lists;
mod triples;

pub use copies::{copy_shape, copy_shapes};
pub use empty::empty_shape;
pub use joining::product;
pub use keys::join_keys;
pub use lists::{product_of_all, products};
pub use triple_lists::{triple_product_of_all, triple_products};
pub use triples::{copy_triple, copy_triples, middle_triple, triple_product};
