//! What a command is, and what a run of it promises: one status, one setting, one promise for the commands of every program.
//!
//! The one rule: a command is a `CommandSpec` (`specs/Spec.antt`), and a run of it keeps `Promise` (`specs/Promise.antt`), whatever program
//! names it. A program chooses the command by its words; words that are none are a command too, which puts one line (`specs/Words.antt`).
#![tactic(auto)]

mod status;
mod words;

pub use status::{Status, status_at};
pub use words::refuse_words;
