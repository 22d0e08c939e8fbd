//! Why an element fits no type: the differences of what it carries and a shape, and the types of the guard that it comes nearest to.
#![tactic(auto)]

mod candidates;
mod difference;
mod keys;
mod labels;
pub mod laws;
mod measure;
mod measuring;
mod near_texts;
mod near_type;
mod nearest;
mod ordering;
pub mod samples;
mod shaped;
mod texts;
mod told;

pub use difference::Difference;
pub use measure::Measure;
pub use near_texts::near_type_text;
pub use near_type::NearType;
pub use nearest::{nearest_edge_types, nearest_node_types};
pub use texts::placed_text;
pub use told::differences;
