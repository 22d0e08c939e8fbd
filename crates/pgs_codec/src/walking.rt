//! What kind of payload bytes are, told by a walk from left to right that builds no command. A walk over a field ends where reading
//! the field does, and it fails exactly where nothing is read.

mod field;
mod operation;
mod payload;
mod row;
mod snapshot;

pub use payload::{PayloadKind, payload_kind};
