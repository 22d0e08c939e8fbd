//! Whether there are pairs that meet demands: the ways to meet the first, each with the demands behind it.

ghost use Rattle.std.specs.Prelude.{◌≡◌, ◌&&◌, ◌||◌, List as Items, true, IfOk, OnOk, MatchBool};
ghost use Rattle.std.specs.List.{list_any};
ghost use Rattle.pgs_base.specs.declared.row.NodeRow.{NodeRow};
ghost use Rattle.pgs_key_standing.specs.Demands.{are_small, are_in, is_in, are_in_three, meets, in_way, in_some_way, CanMeet, CannotMeet};

use crate::Demand;
use crate::places::{have_small, narrowed, narrowed_by_three};
use pgs_base::{List, Memory};
use pgs_conform::{Shape, Triple};
use std::alloc::Global;

// Puts a way last, where there is one.
fn push_way(way: Option<List<Shape>>, ways: &mut Vec<List<Shape>>) -> Result<(), Memory>
    ensures { OnOk result ((ps : Items NodeRow) → in_some_way ways.new.items ps ≡ (in_some_way ways.old.items ps || in_way way ps)) }
{
    let Some(places) = way else {
        return Ok(());
    };
    ways.push(places)?;
    Ok(())
}

// The ways to have a pair in some of shapes at a place.
fn ways_of_one(
    alloc: Global,
    places: &[Shape],
    place: usize,
    shapes: &[Shape],
) -> Result<List<List<Shape>>, Memory>
    ensures { IfOk result (λ ways. (ps : Items NodeRow) → are_small ps ≡ true →
        in_some_way ways ps ≡ (are_in places.now ps && list_any (is_in ps place) shapes.now)) }
{
    let mut ways = Vec::new(alloc);
    for shape in shapes {
        let way = narrowed(alloc, places, place, shape)?;
        push_way(way, &mut ways)?;
    }
    Ok(List::from_vec(ways))
}

// The ways to have three pairs in some of triples of shapes at three places.
fn ways_of_three(
    alloc: Global,
    places: &[Shape],
    at: (usize, usize, usize),
    triples: &[Triple],
) -> Result<List<List<Shape>>, Memory>
    ensures { IfOk result (λ ways. (ps : Items NodeRow) → are_small ps ≡ true →
        in_some_way ways ps ≡ (are_in places.now ps && list_any (are_in_three ps at.0 at.1 at.2) triples.now)) }
{
    let mut ways = Vec::new(alloc);
    for shapes in triples {
        let way = narrowed_by_three(alloc, places, at, shapes)?;
        push_way(way, &mut ways)?;
    }
    Ok(List::from_vec(ways))
}

// The ways to meet a demand.
fn ways_of(alloc: Global, places: &[Shape], demand: &Demand) -> Result<List<List<Shape>>, Memory>
    ensures { IfOk result (λ ways. (ps : Items NodeRow) → are_small ps ≡ true →
        in_some_way ways ps ≡ (are_in places.now ps && meets ps demand.now)) }
{
    match demand {
        Demand::One { place, shapes } => ways_of_one(alloc, places, *place, shapes.as_slice()),
        Demand::Three {
            source,
            middle,
            target,
            triples,
        } => ways_of_three(
            alloc,
            places,
            (*source, *middle, *target),
            triples.as_slice(),
        ),
    }
}

/// Whether there are pairs in the shapes of the places that meet all demands. Its work grows with the product of the numbers of ways
/// to meet each.
pub(crate) fn can_meet(alloc: Global, places: &[Shape], demands: &[Demand]) -> Result<bool, Memory>
    ensures { IfOk result (λ can. MatchBool can (CanMeet places.now demands.now) (CannotMeet places.now demands.now)) }
{
    let [demand, later @ ..] = demands else {
        return have_small(alloc, places);
    };
    let ways = ways_of(alloc, places, demand)?;
    for way in ways.as_slice() {
        let can = can_meet(alloc, way.as_slice(), later)?;
        if can {
            return Ok(true);
        }
    }
    Ok(false)
}
