//! The incremental check: what validating a changed graph from scratch would find first, found where the change is.
//!
//! [`check_types`] finds 25 and 26 among the elements of a delta and the edges at its nodes. [`check`] goes on with each key: the elements
//! that the change affects get their rows in the changed graph, and only these rows, with the owners that the index names for their key
//! values, can violate it. Where nothing does, the rows are what changes of the index.
//! The first violation is that of `verdict` of `pgs_violation`; how it is found from rows stands in `specs/Rows.antt` and
//! `specs/Clashes.antt`.
#![tactic(auto)]

mod changed_rows;
mod checking;
mod clash;
mod key_rows;
mod local_rows;
mod own_row;
mod rule;
mod sharing;
mod untyped;

pub use checking::{CheckFault, check};
pub use untyped::check_types;
