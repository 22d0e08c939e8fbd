//! The lines of a schema text that is refused: the line of its refusal, and behind it the line of the cause where that has a place.
//!
//! The one rule: `specs/Refused.antt` says which lines these are. Which place is told is free, as long as the text has there what the line
//! says. A command that reads a schema text puts these lines where it refuses the text.
#![tactic(auto)]

mod refusing;

pub use refusing::{cause_line, refused_lines};
