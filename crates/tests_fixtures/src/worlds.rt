ghost use Rattle.std.specs.Prelude.{◌≤◌};

use pgs_base::{List, Memory};
use pgs_world::{Leave, MemWorld};
use std::alloc::Global;

/// What a stop may leave of the bytes that aren't synced: each way that is tried.
pub const LEAVINGS: [Leave; 5] = [
    Leave::Old,
    Leave::New,
    Leave::Fill(0),
    Leave::Fill(1),
    Leave::Fill(7),
];

/// A world of empty areas whose output has room for so many bytes and calls, at most 2^32, and whose calls don't fail.
pub fn empty_world(alloc: Global, room: u64) -> Result<MemWorld, Memory>
    requires { room ≤ 4294967296 }
{
    let (a, b, failing) = (List::new(alloc), List::new(alloc), List::new(alloc));
    MemWorld::new(alloc, a, b, room, failing)
}
