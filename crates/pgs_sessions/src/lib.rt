//! Many sessions that read, stage and commit on one graph, in any order.
//!
//! The one rule: each event is answered as by the machine of `pgs_sessions_machine`, and leaves what stands for the machine's next state
//! (`specs/State.antt`). The machine reads off its graphs which commit changed an element; here one number is kept for each element
//! that a commit ever changed. A commit takes all memory before the guard decides: what is then left to do takes none.
#![tactic(auto)]

mod changes;
mod committing;
mod contents;
mod open;
mod sessions;
mod stale;

pub use pgs_sessions_machine::{Content, Event, Reply};
pub use sessions::Sessions;
