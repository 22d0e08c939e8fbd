//! The lines of the types that an element fits.

ghost use Rattle.std.specs.Prelude.{◌≡◌, ◌∷◌, [], option_map, true};
ghost use Rattle.pgs_run_lines.specs.Calls.{stops_of_world};
ghost use Rattle.pgs_run_lines.specs.Puts.{Puts};
ghost use Rattle.pgs_run_store.specs.Explaining.{hidden_and_name, type_lines};

use pgs_answer::type_line;
use pgs_base::Name;
use pgs_command::Status;
use pgs_run_lines::{Stop, put_made};
use pgs_syntax::{Resolved, TypeNo};
use pgs_world::World;
use std::alloc::Global;

// Whether the type of a number is abstract, and its name.
fn hidden_and_name(resolved: &Resolved, type_no: TypeNo) -> Option<(bool, &Name)>
    ensures { option_map (λ own. (own.0, own.1.now)) result ≡ hidden_and_name resolved.now type_no }
{
    match type_no {
        TypeNo::Node(number) => match resolved.nodes.at(number as usize) {
            Some(found) => Some((found.hidden, &found.name)),
            None => None,
        },
        TypeNo::Edge(number) => match resolved.edges.at(number as usize) {
            Some(found) => Some((found.hidden, &found.name)),
            None => None,
        },
    }
}

// Puts the line of a type.
fn put_type<W: World>(
    alloc: Global,
    world: &mut W,
    resolved: &Resolved,
    type_no: TypeNo,
) -> Result<(), Stop<Status>>
    ensures puts { Puts (W.view world.old) (type_lines resolved.now (type_no ∷ [])) result (W.view world.new) }
    ensures last { stops_of_world result ≡ true → W.failed world.new }
{
    match hidden_and_name(resolved, type_no) {
        Some((hidden, name)) => put_made(world, type_line(alloc, hidden, name)),
        None => Ok(()),
    }
}

/// Puts the lines of types, one after another.
pub(crate) fn put_types<W: World>(
    alloc: Global,
    world: &mut W,
    resolved: &Resolved,
    types: &[TypeNo],
) -> Result<(), Stop<Status>>
    ensures puts { Puts (W.view world.old) (type_lines resolved.now types.now) result (W.view world.new) }
    ensures last { stops_of_world result ≡ true → W.failed world.new }
{
    for type_no in types {
        put_type(alloc, world, resolved, *type_no)?;
    }
    Ok(())
}
