//! The journal of a store in one area: a head, and records behind gates, of which the first closed one ends it.
//!
//! The one rule: a record counts only once its gate is open, and its gate is opened only when the record and the closed
//! gate behind it are on the disk. So a stop at any moment leaves the records from before a call, or one more. The bytes
//! stand in `specs/Format.antt`, what an area is in `specs/Area.antt`, what stops leave in `specs/Stops.antt`.
#![tactic(auto)]

mod area_scan;
mod area_state;
mod format;
mod head;
mod journal;
pub mod laws;
mod records;
pub mod samples;
mod scan_fault;
mod steps;

pub use area_scan::scan;
pub use area_state::AreaState;
pub use format::Format;
pub use head::{Head, LAST_EPOCH, read_head};
pub use journal::Journal;
pub use scan_fault::ScanFault;
