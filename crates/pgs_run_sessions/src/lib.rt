//! The run of `pgsession`: a schema text, a line `---` and lines of events of many sessions, from the empty graph on.
//!
//! The one rule: the words are a command (`specs/Spec.antt`), and what it tells of an input within a budget is said by the machine of
//! `pgs_sessions_machine` (`specs/Told.antt`), by the event of each line (`specs/Events.antt`) and the line of each reply
//! (`specs/Replies.antt`). It is one machine over lines (`specs/InputMachine.antt`), which `pgs_run_lines` runs; between two lines contracts
//! see the sessions in brief, which is all that further lines ask of them.
#![tactic(auto)]

mod asked;
mod event_lines;
mod events;
mod input_lines;
mod input_part;
mod line_words;
mod one_event;
mod program_words;
mod replies;
mod run_of_words;
mod status;

pub use pgs_run_lines::BUDGET;
pub use run_of_words::{run_sessions, run_sessions_within};
pub use status::SessionStatus;
