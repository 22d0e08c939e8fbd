//! Calls on an open store, one after the other: limits of operations and of elements, which a guard keeps as a store does, and schemas that
//! are taken or refused.

ghost use Rattle.std.specs.Prelude.{◌≡◌, ◌<◌};

use crate::store::scenario::{Call, PROGRAM, SCHEMA, adding, answers, rejected};
use pgs_base::{Limits, Memory, Steps};
use pgs_graph::{GraphRead, Txn};
use pgs_store::{Guard, GuardFault, GuardRefusal};
use std::alloc::Global;
use std::marker::Brand;
use std::sync::ledger::{Blank, Ledger};
use std::test::Fail;
use tests_fixtures::empty_world;

const TIGHT: Limits = Limits {
    ops: 1,
    elements: 1,
};

/// The nodes that three transactions add.
const ADDED: [&[u64]; 3] = [&[1, 2], &[1], &[2]];

/// No type, and so no node.
const NONE: &str = "CREATE GRAPH TYPE g STRICT {};";

/// A node without labels and properties.
const PLAIN: &str = "CREATE GRAPH TYPE g STRICT {(t)};";

const SCHEMAS: &[Call] = &[
    Call::Evolve(NONE),
    Call::Add(&[1]),
    Call::Evolve(SCHEMA),
    Call::Add(&[1]),
    Call::Evolve("CREATE GRAPH TYPE g STRICT"),
    Call::Evolve(NONE),
    Call::Evolve(PLAIN),
    Call::Checkpoint,
    Call::Evolve(SCHEMA),
    Call::Add(&[2]),
];

const ADDING: &[Call] = &[Call::Add(&[1, 2]), Call::Add(&[1]), Call::Add(&[2])];

/// What is answered to these under tight limits, and then the commits and how many elements the graph has.
const TIGHT_ANSWERS: &[u64] = &[22_002, 1, 24_002, 1, 1];

const SCHEMAS_ANSWERS: &[u64] = &[0, 98_000, 0, 1, 11_000, 25_001, 0, 2, 0, 2, 2, 2];

/// Limits, calls on a store, and what it answers.
type Row = (Limits, &'static [Call], &'static [u64]);

const ROWS: [Row; 2] = [
    (TIGHT, ADDING, TIGHT_ANSWERS),
    (PROGRAM, SCHEMAS, SCHEMAS_ANSWERS),
];

fn answers_to(alloc: Global, limits: Limits, calls: &[Call]) -> Result<Vec<u64>, Memory> {
    let mut world = empty_world(alloc, 512)?;
    answers(alloc, limits, &mut world, calls)
}

#[test]
fn an_open_store_keeps_its_limits_and_its_schema(rt: HostRuntime) -> Result<(), Fail> {
    for (limits, calls, wanted) in &ROWS {
        assert_eq!(rt; answers_to(rt.alloc(), *limits, calls)?.as_slice(), *wanted);
    }
    Ok(())
}

/// What a guard answers to a transaction, as a store would.
fn guarded<L: Ledger>(guard: &mut Guard, txn: &Txn, steps: &mut Steps<L>) -> u64 {
    if guard.commits() == u64::MAX {
        return 99_000;
    }
    match guard.apply(txn, steps) {
        Ok(number) => number,
        Err(GuardRefusal::Memory) => 99_000,
        Err(GuardRefusal::Rejected(rejection)) => rejected(&rejection),
    }
}

fn guarded_by<L: Ledger>(alloc: Global, guard: &mut Guard, blank: Blank) -> Result<Vec<u64>, Memory>
    requires name { blank.name ≡ L.name }
    requires parts { blank.parts ≡ L.parts }
    requires some { 0 < blank.parts }
{
    let mut steps: Steps<L> = Steps::begin(blank);
    let mut answers = Vec::new(alloc);
    for ids in ADDED {
        let txn = adding(alloc, ids)?;
        answers.push(guarded(guard, &txn, &mut steps))?;
    }
    answers.push(guard.commits())?;
    answers.push(guard.graph().count())?;
    Ok(answers)
}

/// What a guard answers to the three transactions, and then its commits and how many elements its graph has.
fn guard_answers(alloc: Global) -> Result<Vec<u64>, Memory> {
    match Guard::new(alloc, SCHEMA.as_bytes(), TIGHT) {
        Ok(mut guard) => guarded_by::<Brand>(alloc, &mut guard, Blank::new(1)),
        Err(GuardFault::Memory) => Err(Memory),
        Err(GuardFault::Schema(_)) => Ok(Vec::new(alloc)),
    }
}

#[test]
fn a_guard_keeps_its_limits(rt: HostRuntime) -> Result<(), Fail> {
    assert_eq!(rt; guard_answers(rt.alloc())?.as_slice(), TIGHT_ANSWERS);
    Ok(())
}
