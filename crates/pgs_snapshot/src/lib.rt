//! The store in two areas: which of them is chosen, and how a checkpoint writes a whole store into the other one.
//!
//! The one rule: the store with the greater epoch is chosen, and only the other area is written anew, so a stop at any
//! moment leaves the chosen store, or the new one. What is chosen stands in `specs/Choice.antt`, and what is saved in two
//! areas, which is what the records of the chosen store lead to, in `specs/Saved.antt`. The laws say what a stop during
//! `Journal::append`, `Journal::create` and [`checkpoint`] does to both; a layer above opens no image.
#![tactic(auto)]

mod checkpointing;
mod choose_fault;
mod choosing;
pub mod laws;

pub use checkpointing::checkpoint;
pub use choose_fault::ChooseFault;
pub use choosing::{Chosen, choose_area};
