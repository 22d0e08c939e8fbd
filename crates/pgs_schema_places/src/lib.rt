//! Where things stand in a schema text, by the places of its tokens: the texts of its keys and of their parts, and the cause of a refusal.
//!
//! The one rule: what a text has at a place is told by its tokens alone (`specs/`); nothing is cut out of it anew. A layer above asks for the
//! text of each key of the guard, and of each place and expression of it, or for the line of the place of which a refusal speaks.
#![tactic(auto)]

mod awaited;
mod bad_byte;
mod because;
mod character;
mod grammar;
mod guard_texts;
mod literals;
mod names;
mod parts;
mod reading;
mod refusal;
mod texts;

pub use because::because_line;
pub use guard_texts::{guard_key_texts, guard_part_texts};
pub use parts::PartTexts;
pub use refusal::Refusal;
pub use texts::key_texts;
