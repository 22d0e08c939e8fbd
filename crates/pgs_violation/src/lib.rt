//! Why a graph doesn't conform to a schema and why a transaction is rejected.
//!
//! The types are plain; a `Violation` has the order in which violations stand in the list of a graph's violations. What the
//! violations of a graph are, the graph after a transaction and the decision on transactions stand in `specs/`.
//! These definitions compute, and they know no compiled forms, no search plans and no indexes.
#![tactic(auto)]

pub mod laws;
pub mod laws_of_staging;
pub mod laws_of_violations;
mod rejection;
pub mod samples;
mod structural;
mod violation;

pub use rejection::Rejection;
pub use structural::{Cause, Structural};
pub use violation::{Verdict, Violation};
