//! The lines of the types of the first guard.

ghost use Rattle.std.specs.Prelude.{◌≡◌, ◌∷◌, [], true, Some, IsSome, option_map};
ghost use Rattle.pgs_run_lines.specs.Calls.{is_of_world, stops_of_world};
ghost use Rattle.pgs_contain.specs.Contained.{has_type};
ghost use Rattle.pgs_run_contain.specs.Answers.{shown_name, listed_name};
ghost use Rattle.pgs_run_contain.specs.Running.{Tells, TellsTypes, stop_by};

use crate::answer::answer_line;
use pgs_base::Name;
use pgs_command::Status;
use pgs_conform::Compiled;
use pgs_contain::Containing;
use pgs_run_lines::{Stop, put_made};
use pgs_syntax::{Resolved, TypeNo};
use pgs_world::World;
use std::alloc::Global;

fn shown_name(hidden: bool, name: &Name) -> Option<&Name>
    ensures { option_map (λ name. name.now) result ≡ shown_name hidden name.now }
{
    if hidden { None } else { Some(name) }
}

/// The name of a type that is there and isn't abstract.
pub fn listed_name(resolved: &Resolved, number: TypeNo) -> Option<&Name>
    ensures name { option_map (λ name. name.now) result ≡ listed_name resolved.now number }
    ensures there { IsSome result → has_type resolved.now number ≡ true }
{
    match number {
        TypeNo::Node(place) => match resolved.nodes.at(place as usize) {
            Some(found) => shown_name(found.hidden, &found.name),
            None => None,
        },
        TypeNo::Edge(place) => match resolved.edges.at(place as usize) {
            Some(found) => shown_name(found.hidden, &found.name),
            None => None,
        },
    }
}

// Puts the line of a type that has this name: whether something is outside.
fn put_answer<W: World>(
    alloc: Global,
    world: &mut W,
    first: &Compiled,
    containing: &Containing<'_>,
    number: TypeNo,
    name: &Name,
) -> Result<bool, Stop<Status>>
    requires there { has_type first.now number ≡ true }
    requires named { listed_name first.now number ≡ Some name.now }
    ensures answer { Tells first.now containing.now.second containing.now.avoid (number ∷ []) result (W.view world.old) (W.view world.new) }
    ensures last { stops_of_world result ≡ true → W.failed world.new }
{
    let answer = match containing.outside_of(alloc, first, number) {
        Ok(answer) => answer,
        Err(_) => return Err(Stop::Memory),
    };
    let some = answer.is_some();
    match put_made(world, answer_line(alloc, name, answer)) {
        Ok(()) => Ok(some),
        Err(stop) => Err(stop),
    }
}

// Puts the line of a type, where it isn't abstract: whether something is outside.
fn put_type<W: World>(
    alloc: Global,
    world: &mut W,
    first: &Compiled,
    containing: &Containing<'_>,
    number: TypeNo,
) -> Result<bool, Stop<Status>>
    ensures answer { Tells first.now containing.now.second containing.now.avoid (number ∷ []) result (W.view world.old) (W.view world.new) }
    ensures last { stops_of_world result ≡ true → W.failed world.new }
{
    match listed_name(first.resolved(), number) {
        Some(name) => put_answer(alloc, world, first, containing, number, name),
        None => Ok(false),
    }
}

// Puts the lines of those of these types that aren't abstract, in their order: whether something is outside of one.
fn put_types<W: World>(
    alloc: Global,
    world: &mut W,
    first: &Compiled,
    containing: &Containing<'_>,
    numbers: &[TypeNo],
) -> Result<bool, Stop<Status>>
    ensures answer { Tells first.now containing.now.second containing.now.avoid numbers.now result (W.view world.old) (W.view world.new) }
    ensures last { stops_of_world result ≡ true → W.failed world.new }
{
    let mut some = false;
    for number in numbers {
        match put_type(alloc, world, first, containing, *number) {
            Ok(one) => some |= one,
            Err(stop) => return Err(stop),
        }
    }
    Ok(some)
}

// The end of a run by whether something is outside, or by the stop.
fn stop_by(told: Result<bool, Stop<Status>>) -> Stop<Status>
    ensures { result ≡ stop_by told }
{
    match told {
        Ok(true) => Stop::Ended(Status::Refused),
        Ok(false) => Stop::Ended(Status::Accepted),
        Err(stop) => stop,
    }
}

/// Puts the lines of all types of the first guard that aren't abstract, in their order: whether something is outside of one. What is told is
/// strange to the names. `Memory` where there was none left, `PutFault` where a put failed; each line is put before the next type is judged.
pub fn put_all_types<W: World>(
    alloc: Global,
    world: &mut W,
    first: &Compiled,
    second: &Compiled,
    names: &[Name],
) -> Result<bool, Stop<Status>>
    ensures answer { Tells first.now second.now names.now first.now.guard.types result (W.view world.old) (W.view world.new) }
    ensures last { stops_of_world result ≡ true → W.failed world.new }
{
    let containing = match Containing::new(alloc, second, names) {
        Ok(containing) => containing,
        Err(_) => return Err(Stop::Memory),
    };
    let numbers = first.resolved().guard.types.as_slice();
    put_types(alloc, world, first, &containing, numbers)
}

/// Puts a line for each type of the first guard that isn't abstract, in its order: how the run ends. What is told is strange to the names.
pub(crate) fn put_guard<W: World>(
    alloc: Global,
    world: &mut W,
    first: &Compiled,
    second: &Compiled,
    names: &[Name],
) -> Stop<Status>
    ensures answer { TellsTypes first.now second.now names.now (W.view world.old) result (W.view world.new) }
    ensures last { is_of_world result ≡ true → W.failed world.new }
{
    let told = put_all_types(alloc, world, first, second, names);
    stop_by(told)
}
