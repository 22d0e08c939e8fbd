//! Commands as bytes: what one record of a journal holds, and the frame that it is appended in.
//!
//! The one rule: each command has exactly one payload, and `decode` is the inverse of `encode`. The payload of a command stands field
//! by field in `specs/Payload.antt`, what has a payload in `specs/Encodable.antt`; `decoded` in `specs/Reading.antt` reads from left
//! to right. `payload_kind` tells what `decode` would find without building it. A layer above encodes, frames and decodes; it never looks
//! into a payload.
#![tactic(auto)]

mod command;
mod decoding;
mod encoding;
mod field;
mod framing;
pub mod laws;
mod operation;
mod reader;
mod row;
mod unread;
mod value;
mod walking;

pub use command::Command;
pub use decoding::decode;
pub use encoding::encode;
pub use framing::{frame, frame_txn};
pub use walking::{PayloadKind, payload_kind};
