//! The lines of the keys in whose scope an element is.

ghost use Rattle.std.specs.Prelude.{◌≡◌, ◌<◌, ◌≤◌, Some, length, map, true};
ghost use Rattle.pgs_run_lines.specs.Calls.{stops_of_world};
ghost use Rattle.pgs_answer.specs.Lines.{key_value_line};
ghost use Rattle.pgs_run_lines.specs.Puts.{Puts};
ghost use Rattle.pgs_store.specs.Explained.{key_values_of};
ghost use Rattle.pgs_run_store.specs.Explaining.{key_lines, key_numbers, keys_lines};

use pgs_answer::{key_scope_line, key_value_line};
use pgs_base::{Elem, Steps, Tuple, TupleSet};
use pgs_command::Status;
use pgs_run_lines::{Stop, put_made};
use pgs_store::Store;
use pgs_world::World;
use std::alloc::Global;
use std::sync::ledger::Ledger;

// Puts the lines of values under the key of a number.
fn put_values<W: World>(
    alloc: Global,
    world: &mut W,
    number: u32,
    values: &[Tuple],
) -> Result<(), Stop<Status>>
    ensures puts { Puts (W.view world.old) (map (key_value_line number) values.now) result (W.view world.new) }
    ensures last { stops_of_world result ≡ true → W.failed world.new }
{
    for tuple in values {
        put_made(world, key_value_line(alloc, number, tuple))?;
    }
    Ok(())
}

// Puts the lines of a key of a number in whose scope an element is, by the element's values under it.
fn put_scope<W: World>(
    alloc: Global,
    world: &mut W,
    number: u32,
    values: &TupleSet,
) -> Result<(), Stop<Status>>
    ensures puts { Puts (W.view world.old) (key_lines number (Some values.now)) result (W.view world.new) }
    ensures last { stops_of_world result ≡ true → W.failed world.new }
{
    put_made(world, key_scope_line(alloc, number))?;
    put_values(alloc, world, number, values.as_slice())
}

// Puts what the store says of an element under the key of a number, from 1.
fn put_key<W: World, L: Ledger>(
    alloc: Global,
    world: &mut W,
    store: &Store,
    number: u32,
    elem: Elem,
    steps: &mut Steps<L>,
) -> Result<(), Stop<Status>>
    requires from_one { 0 < number }
    requires in_range { number ≤ length store.now.guard.schema.guard.keys }
    ensures puts { Puts (W.view world.old)
        (key_lines number (key_values_of store.now.guard.schema store.now.guard.graph number elem)) result (W.view world.new) }
    ensures last { stops_of_world result ≡ true → W.failed world.new }
{
    match store.key_values(number, elem, steps) {
        Some(values) => put_scope(alloc, world, number, values),
        None => Ok(()),
    }
}

/// Puts what the store says of an element under each key.
pub(crate) fn put_keys<W: World, L: Ledger>(
    alloc: Global,
    world: &mut W,
    store: &Store,
    elem: Elem,
    steps: &mut Steps<L>,
) -> Result<(), Stop<Status>>
    ensures puts { Puts (W.view world.old)
        (keys_lines store.now.guard.schema store.now.guard.graph elem (key_numbers store.now.guard.schema)) result (W.view world.new) }
    ensures last { stops_of_world result ≡ true → W.failed world.new }
{
    let count = store.compiled().resolved().guard.keys.len() as u32;
    for place in 0..count {
        put_key(alloc, world, store, place + 1, elem, steps)?;
    }
    Ok(())
}
