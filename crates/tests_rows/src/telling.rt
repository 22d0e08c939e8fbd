//! What is told of a step, as one text: the status, what is put, and what its feeds took.

use crate::lines::{numbers, text};
use crate::running::Areas;
use std::alloc::Global;
use std::io::Write;

// The first number behind a sign, or another where there is none.
fn number_or(alloc: Global, step: &[&str], sign: &str, other: u64) -> Option<u64> {
    Some(numbers(alloc, step, sign)?.at(0).copied().unwrap_or(other))
}

/// How many feeds a step has.
pub fn feed_count(alloc: Global, step: &[&str]) -> Option<u64> {
    number_or(alloc, step, "feeds ", 0)
}

/// The text of a status and an output.
pub fn told(alloc: Global, status: u64, output: &[u8]) -> Option<Vec<u8>> {
    let mut told = Vec::new(alloc);
    write!(told, "status {status}\n").ok()?;
    told.extend_from_slice(output).ok()?;
    Some(told)
}

/// Puts what a feed took last.
pub fn push_feed(told: &mut Vec<u8>, feed: u64, taken: &[u8]) -> Option<()> {
    write!(told, "feed {feed} took\n").ok()?;
    told.extend_from_slice(taken).ok()
}

/// What is to be told of a step. A step of the language may leave its status out, which is 0.
pub fn wanted(alloc: Global, step: &[&str]) -> Option<Vec<u8>> {
    let output = text(alloc, step, ">")?;
    let mut told = told(alloc, number_or(alloc, step, "= ", 0)?, output.as_slice())?;
    for place in 0..feed_count(alloc, step)? {
        let feed = place.saturating_add(1);
        let sign = format!(in alloc; "{feed}").ok()?;
        let taken = text(alloc, step, sign.as_str())?;
        push_feed(&mut told, feed, taken.as_slice())?;
    }
    Some(told)
}

/// Whether areas are as long as a step says, where it does.
pub fn has_lengths(alloc: Global, step: &[&str], areas: &Areas) -> Option<bool> {
    let (a, b) = (areas.a.len() as u64, areas.b.len() as u64);
    let wanted_a = number_or(alloc, step, "length a ", a)?;
    let wanted_b = number_or(alloc, step, "length b ", b)?;
    Some(wanted_a == a && wanted_b == b)
}
