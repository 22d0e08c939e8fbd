//! The walk over the places of a written descriptor.

ghost use Rattle.std.specs.Prelude.{◌≡◌, ◌==◌, ◌<◌, ◌+◌, List, [], length, if◌then◌else◌, IfOk, OnOk, IfSome};
ghost use Rattle.std.specs.List.{find, list_any};
ghost use Rattle.pgs_key_causes.specs.declared.walk.Visit.{Visit as Visited};
ghost use Rattle.pgs_key_causes.specs.Walk.{var_at, is_edge_at, is_visited, is_reached, with_visit, with_all, numbers, is_start, is_alone, is_next, with_way, with_step, walk};

use pgs_base::Memory;
use std::alloc::Global;

/// A place of a pattern, as an occurrence of its variable: the number of the variable, and whether it is an edge.
#[derive(Clone, Copy)]
pub struct Occurrence {
    pub var: u32,
    pub is_edge: bool,
}

/// A place in a walk, and the place from which the walk comes to it: the place itself where its variable is reached before.
#[derive(Clone, Copy)]
pub struct Visit {
    pub place: usize,
    pub from: usize,
}

/// The number of the variable at a place.
pub(crate) fn var_at(places: &[Occurrence], place: usize) -> u32
    ensures { result ≡ var_at places.now place }
{
    match places.get(place) {
        Some(occurrence) => occurrence.var,
        None => 0,
    }
}

/// The number of the variable at the place behind one.
pub(crate) fn var_behind(places: &[Occurrence], place: usize) -> u32
    ensures { result ≡ var_at places.now (place + 1) }
{
    let _count = places.len();
    match place.checked_add(1) {
        Some(next) => var_at(places, next),
        None => 0,
    }
}

/// Whether a place is an edge place.
pub(crate) fn is_edge_at(places: &[Occurrence], place: usize) -> bool
    ensures { result ≡ is_edge_at places.now place }
{
    match places.get(place) {
        Some(occurrence) => occurrence.is_edge,
        None => false,
    }
}

fn is_visited(visits: &[Visit], place: usize) -> bool
    ensures { result ≡ is_visited visits.now place }
{
    visits.iter().any(|visit| visit.place == place)
}

// Whether a place of a variable is visited.
fn is_visited_var(places: &[Occurrence], visits: &[Visit], var: u32) -> bool
    ensures { result ≡ list_any (λ (visit : Visited). var_at places.now visit.place == var) visits.now }
{
    visits
        .iter()
        .any(|visit| var_at(places, visit.place) == var)
}

fn is_reached(places: &[Occurrence], visits: &[Visit], place: usize) -> bool
    ensures { result ≡ is_reached places.now visits.now place }
{
    let var = var_at(places, place);
    var == 0 || is_visited_var(places, visits, var)
}

fn push_visit(place: usize, from: usize, visits: &mut Vec<Visit>) -> Result<(), Memory>
    ensures { OnOk result (visits.new.items ≡ with_visit visits.old.items place from) }
{
    if !is_visited(visits, place) {
        visits.push(Visit { place, from })?;
    }
    Ok(())
}

fn is_start(places: &[Occurrence], place: usize) -> bool
    ensures { (visits : List Visited) → result ≡ is_start places.now visits place }
{
    !is_edge_at(places, place) && var_at(places, place) == 0
}

fn is_alone(places: &[Occurrence], visits: &[Visit], place: usize) -> bool
    requires { place < length places.now }
    ensures { result ≡ is_alone places.now visits.now place }
{
    !is_edge_at(places, place)
        && !is_edge_at(places, place.saturating_sub(1))
        && !is_edge_at(places, place + 1)
        && is_reached(places, visits, place)
}

// Whether an edge place is one whose step can be next.
fn is_next(places: &[Occurrence], visits: &[Visit], place: usize) -> bool
    requires { place < length places.now }
    ensures { result ≡ is_next places.now visits.now place }
{
    is_edge_at(places, place)
        && !is_visited(visits, place)
        && (is_reached(places, visits, place.saturating_sub(1))
            || is_reached(places, visits, place)
            || is_reached(places, visits, place + 1))
}

// Visits a place from itself, where a test passes.
fn push_if(passes: bool, place: usize, visits: &mut Vec<Visit>) -> Result<(), Memory>
    ensures { OnOk result (visits.new.items ≡ (if passes then with_visit visits.old.items place place else visits.old.items)) }
{
    if passes {
        push_visit(place, place, visits)
    } else {
        Ok(())
    }
}

// Visits x's node places.
fn start(alloc: Global, places: &[Occurrence]) -> Result<Vec<Visit>, Memory>
    ensures { IfOk result (λ visits. visits.items ≡ with_all places.now (is_start places.now) []) }
{
    let mut visits = Vec::new(alloc);
    for place in 0..places.len() {
        push_if(is_start(places, place), place, &mut visits)?;
    }
    Ok(visits)
}

// Visits the paths of one place whose variable is reached.
fn push_alone(places: &[Occurrence], visits: &mut Vec<Visit>) -> Result<(), Memory>
    ensures { OnOk result (visits.new.items ≡ with_all places.now (is_alone places.now) visits.old.items) }
{
    for place in 0..places.len() {
        let alone = is_alone(places, visits, place);
        push_if(alone, place, visits)?;
    }
    Ok(())
}

// Visits a step from a node.
fn push_way(node: usize, edge: usize, further: usize, visits: &mut Vec<Visit>) -> Result<(), Memory>
    ensures { OnOk result (visits.new.items ≡ with_way visits.old.items node edge further) }
{
    push_visit(node, node, visits)?;
    push_visit(edge, node, visits)?;
    push_visit(further, node, visits)
}

// Visits a step, by its edge place.
fn push_step(places: &[Occurrence], edge: usize, visits: &mut Vec<Visit>) -> Result<(), Memory>
    requires { edge < length places.now }
    ensures { OnOk result (visits.new.items ≡ with_step places.now visits.old.items edge) }
{
    let left = edge.saturating_sub(1);
    let right = edge + 1;
    if is_reached(places, visits, left) {
        return push_way(left, edge, right, visits);
    }
    if is_reached(places, visits, right) {
        return push_way(right, edge, left, visits);
    }
    push_visit(edge, edge, visits)?;
    push_visit(left, edge, visits)?;
    push_visit(right, edge, visits)
}

// The first step as written that can be next.
fn next_step(places: &[Occurrence], visits: &[Visit]) -> Option<usize>
    ensures step { result ≡ find (is_next places.now visits.now) (numbers places.now) }
    ensures within { IfSome result (λ edge. edge < length places.now) }
{
    for place in 0..places.len() {
        if is_next(places, visits, place) {
            return Some(place);
        }
    }
    None
}

// Visits a step, by its edge place, and then the paths of one place.
fn push_next(places: &[Occurrence], edge: usize, visits: &mut Vec<Visit>) -> Result<(), Memory>
    requires { edge < length places.now }
    ensures { OnOk result (visits.new.items ≡ with_all places.now (is_alone places.now) (with_step places.now visits.old.items edge)) }
{
    push_step(places, edge, visits)?;
    push_alone(places, visits)
}

/// The walk from x over the places of a pattern, of which x has variable 0.
pub(crate) fn walk(alloc: Global, places: &[Occurrence]) -> Result<Vec<Visit>, Memory>
    ensures { IfOk result (λ visits. visits.items ≡ walk places.now) }
{
    let mut visits = start(alloc, places)?;
    let mut left = places.len();
    while left > 0 {
        match next_step(places, &visits) {
            Some(edge) => push_next(places, edge, &mut visits)?,
            None => return Ok(visits),
        }
        left -= 1;
    }
    Ok(visits)
}
