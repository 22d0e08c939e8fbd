//! Where a pattern ends at an element: the first of its parts, in the order of a walk, that no match meets, and the least element there.
//!
//! A part is given by two keys, of what is up to it and of what is before it. The rule is `IsEnd` in `specs/End.antt`.
#![tactic(auto)]

mod ending;
mod front;
mod texts;

pub use ending::{expression_end, place_end};
pub use front::{Front, PatternEnd};
pub use texts::{no_place_text, no_step_text, no_value_text};
