//! Calls on readers, writers and files that stand for real ones, and on the numbers of the standard streams.

use crate::failing::put_syncs;
use crate::flaky::put_reads;
use crate::slow::{put_puts, put_write};
use crate::stopping::{Kept, kept_store_world, kept_world};
use crate::texts::{halves, number};
use pgs_world::{Area, World};
use pgs_world_files::Handle;
use pgs_world_streams::{StandardNumbers, is_above_standard};
use std::alloc::Global;
use std::fs;

// Puts what a file that tells stops answers to writes, of which the last is past its end, to a cut, a sync and a read of one byte; and its
// length and its moment then.
fn put_kept(out: &mut String, alloc: Global) -> Option<()> {
    let mut file = Kept::new(alloc);
    for (moment, at, piece) in [(1, 0, "abc"), (2, 2, "defg"), (3, 7, "h")] {
        let count = Handle::write_once(&mut file, moment, at, piece.as_bytes());
        write!(out, "{:?}, ", count.ok()).ok()?;
    }
    let (cut, synced) = (file.cut_once(4, 4).is_ok(), file.sync_once(5).is_ok());
    let mut byte = [0];
    let read = file.read_once(6, 2, &mut byte).ok();
    let length = file.length_once(7).ok();
    write!(out, "{cut}, {synced}, {read:?}, {byte:?}, {length:?}, ").ok()?;
    write!(out, "{}", Handle::until(&file)).ok()
}

// Puts the lengths of areas of such files.
fn put_kept_worlds(out: &mut String, alloc: Global) -> Option<()> {
    write!(out, "{:?}, ", kept_world(alloc).len(Area::A)).ok()?;
    write!(out, "{:?}", kept_store_world(alloc).len(Area::B)).ok()
}

// Puts whether the input was closed, and whether a file is opened by a number that no standard stream has.
fn put_numbers(out: &mut String, rt: &HostRuntime) -> Option<()> {
    let numbers = StandardNumbers::take(rt);
    let file = fs::open(rt, "/").ok()?;
    let closed = numbers.input_was_closed();
    write!(out, "{closed}, {}", is_above_standard(&file)).ok()
}

/// Puts what a call is answered, by the letter that it begins with.
pub fn answer(out: &mut String, rt: &HostRuntime, call: &str) -> Option<()> {
    let (word, rest) = halves(call);
    match word.as_bytes().first()? {
        b'r' => put_reads(out),
        b'w' => put_write(out, rt.alloc(), number(rest)),
        b'p' => put_puts(out, rt),
        b's' => put_syncs(out, rt.alloc(), rest == "named"),
        b'n' => put_numbers(out, rt),
        b'k' => put_kept(out, rt.alloc()),
        _ => put_kept_worlds(out, rt.alloc()),
    }
}
