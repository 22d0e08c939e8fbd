//! Areas of stores, byte by byte.

/// A store of the schema `CREATE GRAPH TYPE g LOOSE {};`, without commits, of the first format: 56 bytes.
pub const LOADED: &[u8] =
    b"\x01PGSGRD1\0\0\0\0\0\0\0\x01\x01\0\0\0\0\0\0\0\x1e\x01CREATE GRAPH TYPE g LOOSE {};\0";

/// The same with a transaction that adds node 1: 83 bytes.
pub const FIRST: &[u8] =
    b"\x01PGSGRD1\0\0\0\0\0\0\0\x01\x01\0\0\0\0\0\0\0\x1e\x01CREATE GRAPH TYPE g LOOSE {};\x01\0\0\0\0\0\0\0\x12\x03\0\0\0\x01\x01\0\0\0\0\0\0\0\x01\0\0\0\0\0";

/// That of the second format: 99 bytes.
pub const SECOND: &[u8] =
    b"\x01PGSGRD2\0\0\0\0\0\0\0\x01\x01\0\0\0\0\0\0\0\x01\0\0\0\0\0\0\0\x1e\x01CREATE GRAPH TYPE g LOOSE {};\x01\0\0\0\0\0\0\0\x02\0\0\0\0\0\0\0\x12\x03\0\0\0\x01\x01\0\0\0\0\0\0\0\x01\0\0\0\0\0";

/// What an earlier stop may have left in the other area: a closed gate, and behind it a whole store of epoch 5.
pub const GARBAGE: &[u8] =
    b"\0PGSGRD1\0\0\0\0\0\0\0\x05\x01\0\0\0\0\0\0\0\x1e\x01CREATE GRAPH TYPE g LOOSE {};\0";
