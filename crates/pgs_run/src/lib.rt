//! The run of a command over a source of bytes, a world and feeds: `run` is the call that the program makes.
//!
//! The words name a command, and each command is a crate below: what is promised of a run is `Promise` of its `CommandSpec`
//! (`specs/Commands.antt`). Words that are no command are one too, which puts one line. A command is one line of `spec_of` and one of
//! `run_command`.
#![tactic(auto)]

mod commands;
mod words;

pub use pgs_command::Status;
pub use pgs_run_lines::BUDGET;
pub use words::{run, run_within};
