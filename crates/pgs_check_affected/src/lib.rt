//! The elements whose place in the scope of a key, or whose key values, a pending change may alter.
//!
//! The law behind it, in [`laws`]: a match that binds no element of the change is a match before and after it, and gives the same tuple.
//! So [`affected`] searches, in the old graph and in the new, the matches that bind one, and gives the elements at which they start
//! (`specs/Local.antt`). How many look-ups that takes is bounded by the degrees near the change (`specs/Touched.antt`).
//! Where a pattern has a cycle, it goes back to these elements from all of the change together, along a spanning tree of the pattern.
//! No search begins at an element that the key can't see change (`specs/Unseen.antt`).
//! A [`Change`] reads the rows of the delta's elements once, for the keys of a schema one after another.
#![tactic(auto)]

mod affecting;
mod change;
mod gathering;
mod known;
pub mod laws;
mod meeting;
pub mod samples;
mod seeing;
mod spreads;

pub use affecting::affected;
pub use change::Change;
pub use known::Known;
