//! What a store writes of its commands and graph, and the tables of a graph that was saved.
//!
//! The one rule: what a graph that was decided holds can be saved. Its rows are small and its transactions have the sizes of a payload
//! (`laws`); its rows are listed for a snapshot (`rows`), and rows that are a graph make its tables again (`filling`). A layer above
//! hands the frames of `frames` to a journal.
#![tactic(auto)]

mod filling;
mod frames;
pub mod laws;
mod rows;

pub use filling::tables_of;
pub use frames::{first_frames, record_frame};
pub use rows::{edge_rows, node_rows};
