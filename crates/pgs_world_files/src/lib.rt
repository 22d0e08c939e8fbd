//! The store's outside as files of the system: areas and feeds in files, and the world over them.
//!
//! A file is opened by an `Opening`, `SystemOpening` for the program: which file, for which access, with which lock. All above the calls of
//! `System` is proved for every system, and each of them is one call of std; what a file holds, and what a stop leaves of it, rests on the system
//! (docs/DECISIONS.md, "The real files").
#![tactic(auto)]

mod access;
mod area_file;
mod area_files;
mod cause;
mod counts;
mod feed_cause;
mod feed_line;
mod feed_opening;
mod file_feed;
mod file_world;
mod found;
mod handle;
mod mode;
mod named_file;
mod opening;
mod store_file;
mod store_head;
mod system;
mod system_file;
mod system_opening;

pub use access::{Access, StoreAccess};
pub use area_file::AreaFile;
pub use area_files::{AreaFiles, file_name};
pub use cause::{FileCause, OpenFault};
pub use counts::Counts;
pub use feed_cause::FeedCause;
pub use file_feed::FileFeed;
pub use file_world::FileWorld;
pub use found::Found;
pub use handle::Handle;
pub use mode::Mode;
pub use named_file::NamedFile;
pub use opening::Opening;
pub use store_file::StoreFile;
pub use system::System;
pub use system_file::SystemFile;
pub use system_opening::SystemOpening;
