//! Calls that write, stopped after each number of calls on the world, and what each leaving is read back as: the records of a store, its
//! checkpoint beside it, and the calls of a store.

use crate::disk::areas::chosen;
use crate::disk::written::{make_store, write_checkpoint};
use crate::images::{FIRST, GARBAGE, SECOND};
use crate::store::scenario::{Call, PROGRAM, answers, recovered};
use pgs_base::{Bytes, List, Memory};
use pgs_world::{Leave, MemWorld};
use std::alloc::Global;
use std::test::Fail;
use tests_fixtures::LEAVINGS;

/// What is written: a store with one record more, a checkpoint beside this store, or what calls on a store write.
enum Written {
    Record,
    Checkpoint(&'static [u8]),
    Calls(&'static [Call]),
}

impl Written {
    /// The areas from which it starts.
    fn areas(&self) -> (&'static [u8], &'static [u8]) {
        match self {
            Written::Checkpoint(store) => (*store, GARBAGE),
            _ => (b"", b""),
        }
    }

    /// Writes it.
    fn write(&self, alloc: Global, world: &mut MemWorld) -> Result<(), Memory> {
        match self {
            Written::Record => {
                make_store(world);
            }
            Written::Checkpoint(_) => {
                write_checkpoint(world);
            }
            Written::Calls(calls) => {
                answers(alloc, PROGRAM, world, calls)?;
            }
        }
        Ok(())
    }

    /// What is read back of two areas: of what no store writes ten times the epoch and the number of records, 0 for no store, else 90.
    fn read(&self, alloc: Global, a: Bytes, b: Bytes) -> Result<u64, Memory> {
        match self {
            Written::Calls(_) => recovered(alloc, a, b),
            _ => {
                let ((kind, epoch), records) = chosen(alloc, a, b)?;
                let number = epoch.saturating_mul(10).saturating_add(records);
                let is_store = kind == 3 || kind == 4;
                Ok(if kind == 0 {
                    0
                } else if is_store {
                    number
                } else {
                    90
                })
            }
        }
    }

    /// What is read back once the world stopped after so many calls and left its bytes so.
    fn left_after(&self, alloc: Global, calls: u64, how: Leave) -> Result<u64, Memory> {
        let (a, b) = self.areas();
        let a = List::from_slice(alloc, a)?;
        let b = List::from_slice(alloc, b)?;
        let mut world = MemWorld::stopping(alloc, a, b, 512, calls)?;
        self.write(alloc, &mut world)?;
        let (a, b, _) = world.left(alloc, how)?;
        self.read(alloc, a, b)
    }
}

/// From which number of calls on, up to which one, and what is read back with each leaving.
type Row = (u64, u64, [u64; 5]);

/// Ten times the epoch and the number of records: no store, the schema, the transaction behind it.
const RECORD: &[Row] = &[
    (0, 8, [0; 5]),
    (9, 9, [0, 11, 0, 11, 0]),
    (10, 12, [11; 5]),
    (13, 13, [11, 12, 11, 12, 11]),
    (14, 14, [12; 5]),
];

/// The same: the store, and the checkpoint of the next epoch.
const CHECKPOINT: &[Row] = &[
    (0, 7, [12; 5]),
    (8, 8, [12, 22, 12, 22, 12]),
    (9, 9, [22; 5]),
];

/// Ten times the epoch and the number of commits: no store, the store of epoch 1 after no commit and after one, the checkpoint.
const RENEWED: &[Row] = &[
    (0, 12, [30_000; 5]),
    (13, 13, [30_000, 10, 30_000, 10, 30_000]),
    (14, 16, [10; 5]),
    (17, 17, [10, 11, 10, 11, 10]),
    (18, 26, [11; 5]),
    (27, 27, [11, 21, 11, 21, 11]),
    (28, 28, [21; 5]),
];

/// The same, and a million for the one type of the second schema.
const EVOLVED: &[Row] = &[
    (14, 16, [10; 5]),
    (18, 20, [11; 5]),
    (21, 21, [11, 1_000_011, 11, 1_000_011, 11]),
    (22, 24, [1_000_011; 5]),
];

const STOPS: [(Written, &[Row]); 5] = [
    (Written::Record, RECORD),
    (Written::Checkpoint(FIRST), CHECKPOINT),
    (Written::Checkpoint(SECOND), CHECKPOINT),
    (
        Written::Calls(&[Call::Add(&[1]), Call::Checkpoint]),
        RENEWED,
    ),
    (
        Written::Calls(&[
            Call::Add(&[1]),
            Call::Evolve("CREATE GRAPH TYPE g STRICT {(t)};"),
        ]),
        EVOLVED,
    ),
];

/// The first number of calls of a row after which something else is read back.
fn wrong_stop(alloc: Global, written: &Written, row: &Row) -> Result<Option<u64>, Memory> {
    for calls in row.0..=row.1 {
        for (how, state) in LEAVINGS.iter().zip(&row.2) {
            if written.left_after(alloc, calls, *how)? != *state {
                return Ok(Some(calls));
            }
        }
    }
    Ok(None)
}

#[test]
fn each_stop_leaves_the_state_before_or_after(rt: HostRuntime) -> Result<(), Fail> {
    for (place, (written, rows)) in STOPS.iter().enumerate() {
        for row in *rows {
            assert_eq!(rt; wrong_stop(rt.alloc(), written, row)?, None, "{place}");
        }
    }
    Ok(())
}
