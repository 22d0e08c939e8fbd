//! How many calls it takes to scan an area: one for its length, at most one for its first 17 bytes, two for each record, and one more
//! for the length where a record doesn't fit it. Nothing behind a closed gate, nor of another program's file, asks for more.

use pgs_base::{Bytes, List, Memory};
use pgs_journal::{ScanFault, scan};
use pgs_world::{Area, MemWorld};
use std::alloc::Global;
use std::test::Fail;

/// A store of the first format of a schema, without the gate behind it.
const FIRST: &[u8] =
    b"\x01PGSGRD1\0\0\0\0\0\0\0\x01\x01\0\0\0\0\0\0\0\x1e\x01CREATE GRAPH TYPE g LOOSE {};";

/// The same in the second format.
const SECOND: &[u8] =
    b"\x01PGSGRD2\0\0\0\0\0\0\0\x01\x01\0\0\0\0\0\0\0\x01\0\0\0\0\0\0\0\x1e\x01CREATE GRAPH TYPE g LOOSE {};";

/// The front of an area, the rest of it, and the calls.
type Row = (&'static [u8], &'static [u8], u64);

const CALLS: [Row; 17] = [
    (b"", b"", 1),
    (b"", b"\x01PGSGRD1xxxxxxxx", 1),
    (b"", b"\0PGSGRD1xxxxxxxxxxxxxxxxxxxxxxxxxxxx", 2),
    (b"", b"\x01PGSGRD2xxxxxxxxxxxxxxxxxxxxxxxxxxxx", 2),
    (b"", b"\x01PGSGRD3\0\0\0\0\0\0\0\x01\x01xxxxxxxxxxxx", 2),
    (FIRST, b"\0", 4),
    (FIRST, b"\0\0\0\0\0\0\0\0\x05\x03\0\0\0\0\0", 4),
    (FIRST, b"\x01\0\0\0\0\0\0\0\x05\x03\0\0\0\0\0", 6),
    (
        FIRST,
        b"\x01\0\0\0\0\0\0\0\x05\x01\0\0\0\0\x01\0\0\0\0\0\0\0\x05\x03\0\0\0\0\0",
        6,
    ),
    (FIRST, b"\x01\x7f\0\0\0\0\0\0\0\x03\0\0\0\0\0", 6),
    (FIRST, b"\x01\0\0\0\0\0\0\0\x05", 5),
    (SECOND, b"\0", 4),
    (
        SECOND,
        b"\0\0\0\0\0\0\0\0\x02\0\0\0\0\0\0\0\x05\x03\0\0\0\0\0",
        4,
    ),
    (
        SECOND,
        b"\x01\0\0\0\0\0\0\0\x02\0\0\0\0\0\0\0\x05\x03\0\0\0\0\0",
        6,
    ),
    (
        SECOND,
        b"\x01\0\0\0\0\0\0\0\x03\0\0\0\0\0\0\0\x05\x03\0\0\0\0\0",
        5,
    ),
    (
        SECOND,
        b"\x01\0\0\0\0\0\0\0\x02\x7f\0\0\0\0\0\0\0\x03\0\0\0\0\0",
        6,
    ),
    (SECOND, b"\x01\0\0\0\0\0\0\0\x02\0\0\0\0\0\0\0\x05", 5),
];

/// The area of a row.
fn area_of(alloc: Global, row: &Row) -> Result<Bytes, Memory> {
    let mut bytes = Vec::from_slice(alloc, row.0)?;
    bytes.extend_from_slice(row.1)?;
    Ok(List::from_vec(bytes))
}

/// The least number of calls after which a scan of the area of a row needs no other.
fn calls_of(alloc: Global, row: &Row) -> Result<u64, Memory> {
    for calls in 0..16 {
        let a = area_of(alloc, row)?;
        let mut world = MemWorld::stopping(alloc, a, List::new(alloc), 256, calls)?;
        match scan(alloc, &mut world, Area::A) {
            Ok(_) => return Ok(calls),
            Err(ScanFault::Memory) => return Err(Memory),
            Err(ScanFault::AreaFault) => {}
        }
    }
    Ok(16)
}

#[test]
fn no_more_is_read_than_the_records(rt: HostRuntime) -> Result<(), Fail> {
    for row in &CALLS {
        assert_eq!(rt; calls_of(rt.alloc(), row)?, row.2, "{:?}", row.1);
    }
    Ok(())
}
