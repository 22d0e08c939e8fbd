//! Texts that no run prints: those of other limits than the program's, and the canonical text without a commit number of every operation.

use pgs_answer::{rejection_text, structural_text};
use pgs_base::{Bytes, Limits, Memory};
use pgs_json::{read_txn, write_txn};
use pgs_violation::{Rejection, Structural};
use std::alloc::Global;
use std::test::Fail;

const LIMITS: Limits = Limits {
    ops: 1,
    elements: 7,
};

/// What goes past the limits, and its text.
const PAST: [(Structural, &str); 2] = [
    (
        Structural::TooManyOps { count: 2 },
        "22 2 operations, at most 1",
    ),
    (
        Structural::TooManyElements { count: 8 },
        "24 8 elements, at most 7",
    ),
];

/// A line, and the canonical text of what is read of it; `=` where it is its own, nothing where none is read.
const LINES: &[(&[u8], &str)] = &[
    (b" { \"ops\" :\t[ ]\r\n} ", "{\"ops\":[]}"),
    (b"\n", ""),
    (
        b"{\"ops\":[{\"add_node\":1,\"labels\":[],\"props\":{}},{\"add_edge\":2,\"from\":1,\"labels\":[],\"props\":{},\"to\":1},{\"remove_node\":1},{\"detach_node\":2},{\"remove_edge\":3}]}",
        "=",
    ),
    (
        b"{\"ops\":[{\"key\":\"k\",\"set_node\":1,\"value\":true},{\"key\":\"k\",\"unset_node\":1},{\"label\":\"A\",\"label_node\":1},{\"label\":\"A\",\"unlabel_node\":1}]}",
        "=",
    ),
    (
        b"{\"ops\":[{\"key\":\"k\",\"set_edge\":1,\"value\":false},{\"key\":\"k\",\"unset_edge\":1},{\"label\":\"A\",\"label_edge\":1},{\"label\":\"A\",\"unlabel_edge\":1}]}",
        "=",
    ),
];

fn is(text: Result<Bytes, Memory>, want: &[u8]) -> Result<bool, Memory> {
    let text = text?;
    Ok(text.as_slice() == want)
}

fn has_text(alloc: Global, structural: Structural, want: &str) -> Result<bool, Memory> {
    let text = is(
        structural_text(alloc, &structural, &LIMITS),
        want.as_bytes(),
    )?;
    let rejection = Rejection::Structural(structural);
    let rejected = is(rejection_text(alloc, &rejection, &LIMITS), want.as_bytes())?;
    Ok(text && rejected)
}

fn is_read_so(alloc: Global, line: &[u8], want: &str) -> Result<bool, Memory> {
    let want = if want == "=" { line } else { want.as_bytes() };
    match read_txn(alloc, line) {
        Ok(txn) => is(write_txn(alloc, &txn, None), want),
        Err(_) => Ok(want.is_empty()),
    }
}

// The place of the first row that isn't so, those of lines behind those of limits.
fn first_wrong(alloc: Global) -> Result<Option<usize>, Memory> {
    for (place, (structural, want)) in PAST.iter().enumerate() {
        if !has_text(alloc, *structural, want)? {
            return Ok(Some(place));
        }
    }
    for (place, (line, want)) in LINES.iter().enumerate() {
        if !is_read_so(alloc, line, want)? {
            return Ok(Some(place.saturating_add(PAST.len())));
        }
    }
    Ok(None)
}

#[test]
fn texts_that_no_run_prints(rt: HostRuntime) -> Result<(), Fail> {
    assert_eq!(rt; first_wrong(rt.alloc())?, None);
    Ok(())
}
