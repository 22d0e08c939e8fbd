//! Stores of which a call on an area failed.

use crate::store::scenario::{Call, PROGRAM, answers};
use pgs_base::{List, Memory};
use pgs_world::{Area, MemWorld, World};
use std::alloc::Global;
use std::test::Fail;

/// What a store answers over a world whose calls of this number and the next fail; and 1 where the next one is still to come.
fn answers_past(alloc: Global, failing: u64, calls: &[Call]) -> Result<Vec<u64>, Memory> {
    let (a, b) = (List::new(alloc), List::new(alloc));
    let fail = List::from_slice(alloc, &[failing, failing.saturating_add(1)])?;
    let mut world = MemWorld::new(alloc, a, b, 512, fail)?;
    let mut answers = answers(alloc, PROGRAM, &mut world, calls)?;
    answers.push(u64::from(world.len(Area::A).is_err()))?;
    Ok(answers)
}

/// After one commit a call fails; the store takes no other, and goes on to show its one commit and its one node. The world got no call
/// from then on.
const ANSWERS: &[u64] = &[1, 4_000, 5_000, 5_000, 1, 1, 1];

/// Calls of which the second fails, and the first and the last failing call on the world by which it does.
type Row = (&'static [Call], u64, u64);

const PLAIN: &str = "CREATE GRAPH TYPE g STRICT {(t)};";

const FAILING: [Row; 3] = [
    (
        &[
            Call::Add(&[1]),
            Call::Add(&[2]),
            Call::Add(&[2]),
            Call::Checkpoint,
        ],
        19,
        22,
    ),
    (
        &[
            Call::Add(&[1]),
            Call::Checkpoint,
            Call::Add(&[2]),
            Call::Checkpoint,
        ],
        19,
        28,
    ),
    (
        &[
            Call::Add(&[1]),
            Call::Evolve(PLAIN),
            Call::Evolve(PLAIN),
            Call::Checkpoint,
        ],
        19,
        22,
    ),
];

/// The first of these calls whose failing is answered otherwise.
fn wrong_failing(alloc: Global, row: &Row) -> Result<Option<u64>, Memory> {
    let (calls, first, last) = *row;
    for failing in first..=last {
        if answers_past(alloc, failing, calls)?.as_slice() != ANSWERS {
            return Ok(Some(failing));
        }
    }
    Ok(None)
}

#[test]
fn a_store_needs_to_be_reopened_after_a_call_that_failed(rt: HostRuntime) -> Result<(), Fail> {
    for (place, row) in FAILING.iter().enumerate() {
        assert_eq!(rt; wrong_failing(rt.alloc(), row)?, None, "row {place}");
    }
    Ok(())
}
