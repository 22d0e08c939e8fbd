//! What several crates of tests share: numbers and texts as if drawn, worlds to run over, and how a run is disturbed.
#![tactic(auto)]

mod draw;
mod numbers;
mod setting;
mod worlds;

pub use draw::Draw;
pub use numbers::Numbers;
pub use setting::{ROOM, Setting, quiet, words_of};
pub use worlds::{LEAVINGS, empty_world};
