//! The causes of a violation of a graph, as texts: for a node or an edge that fits no type of the guard, the types that it comes nearest to,
//! each with its differences; for an element that violates a key, the key as it is written, and where its pattern ends.
//!
//! The one rule: `AreViolationCauses` (`specs/Causes.antt`), of the graph that has the violation. What is nearest is said in
//! `pgs_differences`, and where a pattern ends in `pgs_key_causes`.
#![tactic(auto)]

mod causes;
mod keys;
mod texts;
mod types;

pub use causes::violation_causes;
