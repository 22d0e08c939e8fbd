//! Following a feed as a run: it reads an input to its end and puts what was followed of it.
//!
//! The one rule: words are a command (`specs/Spec.antt`), and a run keeps its `Promise`. Of the word `follow`, `told_follow`
//! (`specs/Told.antt`) says what is put and the status, of an input and a budget: the fault, if one ended it, how many commits there were
//! and how many bytes stand behind the last line feed, and the lines of the graph. Nothing is put before the end of the input. The machine
//! stands in `specs/Following.antt`; `pgs_run_lines` runs it.
#![tactic(auto)]

mod following;
mod run;
mod status;
mod texts;

pub use pgs_run_lines::BUDGET;
pub use run::{run_follow, run_follow_within};
pub use status::FollowStatus;
