//! The violations of a graph under a schema, found from scratch, over any graph that is read by `GraphRead`.
//!
//! [`violations`] gives the whole list, as it is defined in `pgs_violation`, and [`confirms`] says whether one violation stands in it.
//! `specs/Rows.antt` says how the part of one key comes from the rows of its scope, and `specs/Owners.antt` how elements that share a key
//! value are found by one table from tuples to elements.
#![tactic(auto)]

mod confirming;
mod finding;
mod judging;
mod key_row;
mod key_search;
mod listing;
mod marks;
mod owners;
mod row_violations;
mod untyped;

pub use confirming::confirms;
pub use judging::{Judged, judge};
pub use listing::violations;
