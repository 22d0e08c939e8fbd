//! A written descriptor, as a walk sees it.

ghost use Rattle.std.specs.Prelude.{◌≡◌, ◌++◌, ◌∷◌, [], List as Items, Bool, true, map, flat_map, Some, IfOk, OnOk};
ghost use Rattle.pgs_syntax.specs.declared.raw.RawPath.{RawPath as Path};
ghost use Rattle.pgs_syntax.specs.declared.raw.RawStep.{RawStep};
ghost use Rattle.pgs_resolve_declared.specs.declared.order.Numbering.{Numbering as Numbers};
ghost use Rattle.pgs_resolve_keys.specs.KeyFaults.{within_of};
ghost use Rattle.pgs_resolve_keys.specs.Patterns.{Variable, x_of, places_of, resolved_key};
ghost use Rattle.pgs_resolve_keys.specs.Placed.{placed};
ghost use Rattle.pgs_resolve_keys.specs.VariableTable.{Holds};
ghost use Rattle.pgs_key_causes.specs.Fronts.{occurrences_by, occurrences_of, directions_of, descriptor_of};

use crate::Occurrence;
use pgs_base::{List, Memory, Name};
use pgs_resolve_keys::{PlaceRef, Variables, places_of};
use pgs_syntax::{Key, RawKey, RawPath, RawStep};
use std::alloc::Global;
use std::marker::Model;

/// A written descriptor: its places, the occurrence of a variable at each, whether each edge place leads to the node place behind it, and
/// which of its variables are edges.
#[derive(Drop)]
pub(crate) struct Written<'a> {
    pub(crate) places: Vec<PlaceRef<'a>>,
    pub(crate) occurrences: Vec<Occurrence>,
    pub(crate) directions: Vec<bool>,
    pub(crate) edge_vars: List<bool>,
}

impl<'a> Model for Written<'a> {
    ghost use Rattle.std.specs.Prelude.{map};
    ghost use Rattle.pgs_resolve_keys.specs.Placed.{placed};
    ghost use Rattle.pgs_key_causes.specs.Fronts.{Descriptor};

    ghost Value = { Descriptor };

    ghost view = { λ written. record {
      places = map placed written.places.items;
      occurrences = written.occurrences.items;
      directions = written.directions.items;
      edge_vars = written.edge_vars;
    } };
}

// The occurrences of variables at places, by the numbers of the variables.
fn occurrences_by(
    alloc: Global,
    variables: &Variables,
    places: &[PlaceRef<'_>],
) -> Result<Vec<Occurrence>, Memory>
    ensures { (held : Items (Variable × Bool)) → Holds held variables.now →
        IfOk result (λ occurrences. occurrences.items ≡ occurrences_by held (map placed places.now)) }
{
    let mut occurrences = Vec::with_capacity(alloc, places.len())?;
    for (number, place) in places.iter().enumerate() {
        occurrences.push(Occurrence {
            var: variables.number(number, place.at),
            is_edge: place.is_edge,
        })?;
    }
    Ok(occurrences)
}

// The occurrences of variables at places of paths, of which x is the first.
fn occurrences_of(
    alloc: Global,
    x: &Name,
    places: &[PlaceRef<'_>],
) -> Result<Vec<Occurrence>, Memory>
    ensures { (paths : Items Path) → map placed places.now ≡ places_of paths →
        IfOk result (λ occurrences. occurrences.items ≡ occurrences_of x.now paths) }
{
    let variables = Variables::of_places(alloc, x, places)?;
    occurrences_by(alloc, &variables, places)
}

fn push_directions(steps: &[RawStep], directions: &mut Vec<bool>) -> Result<(), Memory>
    ensures { OnOk result (directions.new.items ≡ directions.old.items ++ flat_map (λ (step : RawStep). step.forward ∷ true ∷ []) steps.now) }
{
    for step in steps {
        directions.push(step.forward)?;
        directions.push(true)?;
    }
    Ok(())
}

// Whether edge places lead to the node places behind them.
fn directions_of(alloc: Global, paths: &[RawPath]) -> Result<Vec<bool>, Memory>
    ensures { IfOk result (λ directions. directions.items ≡ directions_of paths.now) }
{
    let mut directions = Vec::new(alloc);
    for path in paths {
        directions.push(true)?;
        push_directions(path.steps.as_slice(), &mut directions)?;
    }
    Ok(directions)
}

// The paths of a written descriptor.
fn within_of(key: &RawKey) -> &[RawPath]
    ensures { result.now ≡ within_of key.now }
{
    match &key.within {
        Some(paths) => paths.as_slice(),
        None => &[],
    }
}

impl<'a> Written<'a> {
    /// The written descriptor of a key, whose scope names x first, and which is resolved to another.
    pub(crate) fn new(
        alloc: Global,
        x: &Name,
        key: &'a RawKey,
        resolved: &Key,
    ) -> Result<Written<'a>, Memory>
        requires { x_of key.now ≡ Some x.now }
        ensures { (numbering : Numbers) → resolved.now ≡ resolved_key numbering key.now →
            IfOk result (λ written. written ≡ descriptor_of numbering key.now) }
    {
        let paths = within_of(key);
        let places = places_of(alloc, paths)?;
        let occurrences = occurrences_of(alloc, x, &places)?;
        let directions = directions_of(alloc, paths)?;
        let edge_vars = List::from_slice(alloc, resolved.descriptor.edge_vars.as_slice())?;
        Ok(Written {
            places,
            occurrences,
            directions,
            edge_vars,
        })
    }
}
