//! How wide the types of a schema are, found before anything is made of them: how many forms a type has, and how many labels
//! and properties each form has at most. A width is counted up to a cap just above the limits, so that no text overflows it.
//!
//! The widths and the limits are defined beside the trees, in `pgs_syntax`, `specs/Width.antt`. The compiler of types asks
//! `first_too_wide` for the first type past the limits, and makes nothing where there is one.
#![tactic(auto)]

mod capped;
mod first;
mod sized;
mod specification;

pub use first::first_too_wide;
