//! The outside of the store as traits with a written meaning: a source of bytes, a world of two areas
//! and an output, and feeds. Each counts its faults, and code that is generic over a trait can't raise the count by
//! itself: so "this fault only where its count rose" refuses a body that gives up. A call that doesn't fail
//! leaves the count: so "the count rose only where this fault is answered" refuses a body that forgets a fault.
//! The meanings stand in `specs/`. Beside each trait are forms in memory that fail as listed: honest ones, and a
//! world that tells nothing.
#![tactic(auto)]

mod area;
mod area_limit;
mod boxed_feed;
mod fault;
mod feed;
mod leave;
mod mem_area;
mod mem_contents;
mod mem_feed;
mod mem_source;
mod mem_world;
mod meter;
mod model;
mod quiet_source;
mod silent_world;
mod source;
mod synced;
mod world;

pub use area::Area;
pub use area_limit::{AREA_LIMIT, passes_limit};
pub use fault::{AreaFault, FeedFault, PutFault, SourceFault};
pub use feed::Feed;
pub use leave::Leave;
pub use mem_feed::MemFeed;
pub use mem_source::MemSource;
pub use mem_world::MemWorld;
pub use model::disk_model;
pub use quiet_source::QuietSource;
pub use silent_world::SilentWorld;
pub use source::Source;
pub use synced::{cut_synced, sync_both, write_synced};
pub use world::World;
