//! What every program shares: its words, what it runs over, why it ended so, and its exit code.
//!
//! The one rule: a program is a `Program`, its name, its usage and what it does with its words, and `main` is `start` of it. What it runs
//! over is an `Outside`, which tells what a reader, a writer and files tell (`specs/Outside.antt`), with the areas of the store that its words
//! name (`areas_of`), or none; of a program without feeds all that is promised is `IsRunOf` of its command (`specs/Program.antt`).
#![tactic(auto)]

mod areas;
mod ending;
mod exit;
mod lost_feeds;
mod outside;
mod program;

pub use areas::areas_of;
pub use ending::{Causes, Ended};
pub use exit::exit_code;
pub use lost_feeds::tell_lost_feeds;
pub use outside::{Outside, Ran, seed_of};
pub use program::{Program, start};
