//! Why a transaction is refused by a key: the key as it is written, and where its pattern ends at the element.
//!
//! The one rule: the places of the written descriptor are taken in a walk from x (`specs/Walk.antt`), and the first place is told such that
//! no match of the places up to it starts at the element; else the first expression. Which causes a violation has stands in
//! `specs/Causes.antt`.
#![tactic(auto)]

mod causes;
mod exprs;
mod fronts;
mod guide;
pub mod laws;
mod reading;
mod walk;
mod written;

pub use causes::key_causes;
pub use guide::KeyGuide;
pub use walk::{Occurrence, Visit};
