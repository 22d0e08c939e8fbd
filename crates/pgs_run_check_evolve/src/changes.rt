//! What is told behind two schemas.

ghost use Rattle.std.specs.Prelude.{◌≡◌, not, true, IfOk};
ghost use Rattle.pgs_run_lines.specs.Calls.{is_of_world, stops_of_world};
ghost use Rattle.pgs_run_contain.specs.Behind.{FollowsBoth};
ghost use Rattle.pgs_run_check_evolve.specs.Spec.{evolve_behind};
ghost use Rattle.pgs_run_check_evolve.specs.Telling.{IsBehind, TellsBehind, TellsOld};
ghost use Rattle.pgs_run_check_evolve.specs.Told.{status_by};

use crate::lines::{KeysOf, push_keys, safe_line, strict_line};
use pgs_base::{Bytes, Memory, Name};
use pgs_command::Status;
use pgs_conform::Compiled;
use pgs_run_contain::put_all_types;
use pgs_run_lines::{Stop, put_pieces};
use pgs_schema_changes::{is_safe, key_changes};
use pgs_syntax::Resolved;
use pgs_world::World;
use std::alloc::Global;

/// The lines behind those of the types, and whether the step is safe.
#[derive(Drop)]
pub(crate) struct Behind {
    pub lines: Vec<Bytes>,
    pub safe: bool,
}

// The lines behind those of the types, by whether each type is contained.
fn lines_behind(
    alloc: Global,
    old: &Resolved,
    new: &Resolved,
    contained: bool,
) -> Result<Behind, Memory>
    ensures { IfOk result (IsBehind old.now new.now contained) }
{
    let changes = key_changes(alloc, old, new)?;
    let safe = is_safe(old, new, &changes, contained);
    let mut lines = Vec::new(alloc);
    if new.guard.strict && !old.guard.strict {
        lines.push(strict_line(alloc)?)?;
    }
    push_keys(alloc, KeysOf::New, changes.kept.as_slice(), &mut lines)?;
    push_keys(alloc, KeysOf::Old, changes.dropped.as_slice(), &mut lines)?;
    if safe {
        lines.push(safe_line(alloc)?)?;
    }
    Ok(Behind { lines, safe })
}

// The status by whether the step is safe.
pub(crate) fn status_by(safe: bool) -> Status
    ensures { result ≡ status_by safe }
{
    if safe {
        Status::Accepted
    } else {
        Status::Refused
    }
}

// Puts the lines behind those of the types.
fn put_behind<W: World>(
    alloc: Global,
    world: &mut W,
    old: &Resolved,
    new: &Resolved,
    contained: bool,
) -> Stop<Status>
    ensures tells { TellsBehind old.now new.now contained (W.view world.old) result (W.view world.new) }
    ensures last { is_of_world result ≡ true → W.failed world.new }
{
    let behind = match lines_behind(alloc, old, new, contained) {
        Ok(behind) => behind,
        Err(_) => return Stop::Memory,
    };
    match put_pieces(world, &behind.lines) {
        Ok(()) => Stop::Ended(status_by(behind.safe)),
        Err(stop) => stop,
    }
}

// Puts the lines of the types of the old guard, where the new one is strict: whether something is outside.
fn put_old<W: World>(
    alloc: Global,
    world: &mut W,
    old: &Compiled,
    new: &Compiled,
    names: &[Name],
) -> Result<bool, Stop<Status>>
    ensures tells { TellsOld new.now.guard.strict old.now new.now names.now result (W.view world.old) (W.view world.new) }
    ensures last { stops_of_world result ≡ true → W.failed world.new }
{
    if new.resolved().guard.strict {
        put_all_types(alloc, world, old, new, names)
    } else {
        Ok(false)
    }
}

/// Puts what a step from one schema to another changes: how the run ends. What is told is strange to the names, which are those of their texts.
pub(crate) fn put_changes<W: World>(
    alloc: Global,
    world: &mut W,
    old: &Compiled,
    new: &Compiled,
    names: &[Name],
) -> Stop<Status>
    ensures follows { FollowsBoth evolve_behind old.now new.now names.now (W.view world.old) result (W.view world.new) }
    ensures last { is_of_world result ≡ true → W.failed world.new }
{
    match put_old(alloc, world, old, new, names) {
        Ok(outside) => put_behind(alloc, world, old.resolved(), new.resolved(), !outside),
        Err(stop) => stop,
    }
}
