//! The run of the checks that `pgcheck` makes: its words name a command, and each command is a crate below.
//!
//! The one rule: words are a command (`specs/Words.antt`), and a run keeps the `Promise` of its `CommandSpec` (`specs/Commands.antt`). Words
//! that are no command are one too, which puts one line. A command is one variant of `CheckCommand`, one row of `LONE_WORDS` or of
//! `STORE_WORDS`, one line of `spec_of` and one of `run_command`.
#![tactic(auto)]

mod command;
mod commands;
mod run;
mod words;

pub use command::CheckCommand;
pub use run::{run_check, run_check_within};
pub use words::{command_of, store_of};
