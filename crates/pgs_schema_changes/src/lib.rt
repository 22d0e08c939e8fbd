//! What changes from one schema to another, told by the two alone: which keys are kept and which are dropped, and whether the step is
//! safe, so that no graph has to be looked at.
//!
//! The one rule stands in `specs/AsksNoMore.antt`, in terms of the two schemas alone: where one asks no more than another, each graph that
//! conforms to the other conforms to it (`laws`). Types that keys name are declared alike where their unfolded declarations are the same
//! (`specs/Unfolded.antt`). Each unfolded declaration of both schemas is kept once, under a number (`specs/Numbers.antt`), so that
//! numbers are compared in their place, however often a type is named.
#![tactic(auto)]

mod atoms;
mod braces;
mod changes;
mod declarations;
mod form;
mod forms;
mod keys;
pub mod laws;
mod same;
mod specification;
mod trees;

pub use changes::{KeyChanges, is_safe, key_changes};
pub use form::Form;
