//! Staging: the operations of a transaction on a graph, as a delta.
//!
//! `stage` does the operations one after another on rows that are copied once, when an operation first changes them, and gives what
//! they leave as a delta. The graph after each operation is the one that the definition of staging has
//! (`pgs_violation/specs/Staging.antt`); what a delta lists and what a stage may look up stand in `specs/Listing.antt`, and `samples`
//! tries that on a small graph. What a layer above needs is `stage`, or `delta_of` where no one
//! asks for the steps, and their fault.
#![tactic(auto)]

mod adding;
mod changed_rows;
mod edges_at_node;
mod edit;
mod faults;
mod removing;
pub mod samples;
mod staging;
mod working;

pub use faults::StageFault;
pub use staging::{delta_of, stage};
