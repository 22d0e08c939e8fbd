//! Runs of the machine over lines.

use crate::counting::count_lines;
use crate::texts::{halves, number, put_unescaped};
use pgs_base::List;
use pgs_world::{MemSource, MemWorld};
use std::alloc::Global;

// An input that is read by pieces of a size, and the read that fails.
fn source_of(alloc: Global, size: u64, failing: u64, text: &str) -> Option<MemSource> {
    let mut input = String::new(alloc);
    put_unescaped(&mut input, text)?;
    let bytes = List::from_vec(input.into_bytes());
    let reads = List::from_slice(alloc, &[failing]).ok()?;
    Some(MemSource::new(bytes, (size as usize).max(1), reads))
}

// A world of which a put fails.
fn world_of(alloc: Global, failing: u64) -> Option<MemWorld> {
    let puts = List::from_slice(alloc, &[failing]).ok()?;
    MemWorld::new(alloc, List::new(alloc), List::new(alloc), 65_536, puts).ok()
}

// Puts what a run puts, and how it ends.
fn put_run(
    out: &mut String,
    alloc: Global,
    source: &mut MemSource,
    world: &mut MemWorld,
    budget: u64,
) -> Option<()> {
    let end = count_lines(alloc, source, world, budget.min(1_048_576));
    let output = str::from_utf8(world.output()).ok()?;
    write!(out, "{output:?} {end:?}").ok()
}

/// Puts what is put, and how it ends. The call is the size of the reads, the read and the put that fail, from 1, the budget, and the input.
pub fn answer(out: &mut String, alloc: Global, call: &str) -> Option<()> {
    let (size, rest) = halves(call);
    let (read, rest) = halves(rest);
    let (put, rest) = halves(rest);
    let (budget, text) = halves(rest);
    let mut source = source_of(alloc, number(size), number(read), text)?;
    let mut world = world_of(alloc, number(put))?;
    put_run(out, alloc, &mut source, &mut world, number(budget))
}
