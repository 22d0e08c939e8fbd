ghost use Rattle.std.specs.Prelude.{◌≡◌, ◌++◌, map, if◌then◌else◌, IfOk, OnOk};
ghost use Rattle.std.specs.Option.{option_to_list};
ghost use Rattle.pgs_resolve_keys.specs.KeyFaults.{edge_places, node_places};
ghost use Rattle.pgs_resolve_keys.specs.Patterns.{places_of, places_of_path, places_of_step, named_in};
ghost use Rattle.pgs_resolve_keys.specs.Placed.{placed};

use pgs_base::{Copyable, Memory, Name};
use pgs_resolve_declared::Names;
use pgs_syntax::{RawPath, RawPlace, RawStep};
use std::alloc::Global;

/// A place of paths, and whether it is an edge place.
#[derive(Clone, Copy)]
pub struct PlaceRef<'a> {
    pub is_edge: bool,
    pub at: &'a RawPlace,
}

fn push_step<'a>(step: &'a RawStep, places: &mut Vec<PlaceRef<'a>>) -> Result<(), Memory>
    ensures { OnOk result (map placed places.new.items ≡ map placed places.old.items ++ places_of_step step.now) }
{
    places.push(PlaceRef {
        is_edge: true,
        at: &step.edge,
    })?;
    places.push(PlaceRef {
        is_edge: false,
        at: &step.node,
    })?;
    Ok(())
}

fn push_path<'a>(path: &'a RawPath, places: &mut Vec<PlaceRef<'a>>) -> Result<(), Memory>
    ensures { OnOk result (map placed places.new.items ≡ map placed places.old.items ++ places_of_path path.now) }
{
    places.push(PlaceRef {
        is_edge: false,
        at: &path.start,
    })?;
    for step in path.steps.as_slice() {
        push_step(step, places)?;
    }
    Ok(())
}

/// The places of paths, in the order of the text.
pub fn places_of<'a>(alloc: Global, paths: &'a [RawPath]) -> Result<Vec<PlaceRef<'a>>, Memory>
    ensures { IfOk result (λ places. map placed places.items ≡ places_of paths.now) }
{
    let mut places = Vec::new(alloc);
    for path in paths {
        push_path(path, &mut places)?;
    }
    Ok(places)
}

// Puts the name of a place last, where it has one.
fn push_named(alloc: Global, place: &RawPlace, names: &mut Names) -> Result<(), Memory>
    ensures { OnOk result (names.new ≡ names.old ++ option_to_list place.now.var) }
{
    match &place.var {
        Some(name) => names.push(alloc, name.copy(alloc)?),
        None => Ok(()),
    }
}

/// The names of variables in places, in order.
pub fn named_in(alloc: Global, places: &[PlaceRef<'_>]) -> Result<Names, Memory>
    ensures { IfOk result (λ names. names ≡ named_in (map placed places.now)) }
{
    let mut names = Names::new(alloc);
    for place in places {
        push_named(alloc, place.at, &mut names)?;
    }
    Ok(names)
}

/// The edge places among places, and with `is_edge` false the node places.
pub fn of_kind<'a>(
    alloc: Global,
    is_edge: bool,
    places: &[PlaceRef<'a>],
) -> Result<Vec<PlaceRef<'a>>, Memory>
    ensures { IfOk result (λ kept. map placed kept.items ≡ (if is_edge then edge_places (map placed places.now) else node_places (map placed places.now))) }
{
    let mut kept = Vec::new(alloc);
    for place in places {
        if place.is_edge == is_edge {
            kept.push(*place)?;
        }
    }
    Ok(kept)
}
