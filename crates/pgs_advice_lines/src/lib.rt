//! The lines that say what a schema's guard asks, and what in the schema does nothing.
//!
//! The one rule: `lines_of` (`specs/Telling.antt`) says which lines a schema has, in order, and which of them warn; each line's text stands in
//! `specs/Lines.antt`. A layer above makes those of the guard's types, puts their texts, and has another status where one warns.
#![tactic(auto)]

mod line;
mod telling;

pub use line::{Line, never_line, type_line};
pub use telling::{Findings, pieces_of, push_advice, push_guard, some_warns, tell, warn};
