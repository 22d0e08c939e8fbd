//! Runs of commands over areas in memory.

use pgs_base::{List, Memory};
use pgs_feed::FeedList;
use pgs_run::{Status, run};
use pgs_world::{MemFeed, MemSource, MemWorld};
use std::alloc::Global;
use tests_fixtures::words_of;

/// The bytes and the calls that a run has room for.
pub const ROOM: u64 = 1_024;

/// Runs the words over an input, read by seven bytes at a time, and a world, with no feed.
pub fn run_over(
    alloc: Global,
    words: &str,
    input: &str,
    world: &mut MemWorld,
) -> Result<Status, Memory> {
    let words = words_of(alloc, words)?;
    let bytes = List::from_slice(alloc, input.as_bytes())?;
    let mut source = MemSource::new(bytes, 7, List::new(alloc));
    let mut feeds: FeedList<MemFeed> = FeedList::new(alloc);
    Ok(run(alloc, &words, &mut source, world, &mut feeds))
}

/// What `recover` puts over two areas, and its status. Want of memory is told as such, and is no status.
pub fn recovered(alloc: Global, a: &[u8], b: &[u8]) -> Result<(Vec<u8>, u8), Memory> {
    let a = List::from_slice(alloc, a)?;
    let b = List::from_slice(alloc, b)?;
    let mut world = MemWorld::new(alloc, a, b, ROOM, List::new(alloc))?;
    let status = run_over(alloc, "recover,s,", "", &mut world)?;
    if status == Status::Memory {
        return Err(Memory);
    }
    let output = Vec::from_slice(alloc, world.output())?;
    Ok((output, status.number()))
}

/// How many lines of an output are whole.
pub fn whole_lines(output: &[u8]) -> usize {
    output.iter().filter(|byte| **byte == b'\n').count()
}
