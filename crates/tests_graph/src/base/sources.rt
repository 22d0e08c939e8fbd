//! Sources give their bytes in pieces, and areas have a greatest size.

use crate::told::Told;
use pgs_base::{List, Memory};
use pgs_world::{MemSource, QuietSource, Source, passes_limit};
use std::alloc::Global;
use std::test::Fail;

/// What five reads of three bytes answer, and what the buffer holds then.
fn tell_reads<S: Source>(source: &mut S, told: &mut Told) {
    let mut buf = [0; 3];
    for _ in 0..5 {
        match source.read(&mut buf) {
            Ok(count) => told.number("", count as u64),
            Err(_) => told.word("-"),
        }
    }
    told.bytes(" ", &buf);
}

/// Of a source that gives two bytes at most and fails at its second read, and of one that does neither.
fn told(alloc: Global) -> Result<Told, Memory> {
    let mut told = Told::new(alloc);
    let bytes = List::from_slice(alloc, b"abcde")?;
    let fail = List::from_slice(alloc, &[2])?;
    tell_reads(&mut MemSource::new(bytes, 2, fail), &mut told);
    told.word(" ");
    let bytes = List::from_slice(alloc, b"abcde")?;
    tell_reads(&mut QuietSource::new(bytes), &mut told);
    Ok(told)
}

#[test]
fn sources_give_their_bytes_in_pieces(rt: HostRuntime) -> Result<(), Fail> {
    assert_eq!(rt; told(rt.alloc())?.text()?, "2-210 ed0 32000 dec");
    Ok(())
}

/// A place, a count of bytes, and whether they reach past the end of the greatest area, which has 2^40 bytes.
const RANGES: &[(u64, u64, bool)] = &[
    (0, 0, false),
    (0, 1_099_511_627_776, false),
    (0, 1_099_511_627_777, true),
    (1_099_511_627_775, 1, false),
    (1_099_511_627_775, 2, true),
    (1_099_511_627_776, 0, false),
    (1_099_511_627_776, 1, true),
    (u64::MAX, u64::MAX, true),
];

#[test]
fn an_area_has_at_most_2_to_the_40_bytes(rt: HostRuntime) -> Result<(), Fail> {
    for (at, count, want) in RANGES {
        assert_eq!(rt; passes_limit(*at, *count), *want, "{count} bytes from {at}");
    }
    Ok(())
}
