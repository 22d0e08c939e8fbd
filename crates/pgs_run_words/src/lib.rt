//! The words of a command line, read as a command of the program.
//!
//! The one rule: words are refused exactly where one is empty or begins with `-`, the first is no command, there are too few or too
//! many further words, or one of these isn't of its form (`specs/Words.antt`; docs/GUIDE.md has the commands). The further words
//! are read by `clap`, by one simple command for each number of words, with help and version off.
//! A layer above reads a `CommandLine`, or asks `command_of`, `store_name` or `feed_names` alone. What reads words of its own has
//! `found_in`, `is_plain`, `number` and `element`.
#![tactic(auto)]

mod asking;
mod command;
mod command_line;
mod command_word;
mod elements;
mod further;
mod name_and_feeds;
mod no_word;
mod numbers;
mod one_word;
mod plain;
mod reading;
mod two_words;
mod workload;

pub use command::Command;
pub use command_line::{CommandLine, feed_names, store_name};
pub use command_word::found_in;
pub use elements::element;
pub use numbers::number;
pub use plain::is_plain;
pub use reading::command_of;
pub use workload::Workload;
