//! The patterns of the first visits of a walk, and the keys by which it is asked where they end.

ghost use Rattle.std.specs.Prelude.{◌≡◌, ◌==◌, ◌<◌, ◌++◌, ◌∷◌, [], true, map, flat_map, length, slice_index_or, IfOk, OnOk};
ghost use Rattle.std.specs.List.{list_any, list_all, fold, position};
ghost use Rattle.pgs_syntax.specs.Valid.{is_edge_var, is_valid_key};
ghost use Rattle.pgs_syntax.specs.declared.pattern.Expr.TheVariants.{Element};
ghost use Rattle.pgs_key_causes.specs.declared.walk.Visit.{Visit as Visited};
ghost use Rattle.pgs_key_causes.specs.Fronts.{vars_of_visit, with_var, vars_of, new_number, written_atoms, ends_atoms, visit_atoms, visited_pattern, visit_key, visit_front, fronts_of, has_valid_keys};
ghost use Rattle.pgs_key_causes.specs.Walk.{var_at};

use crate::Visit;
use crate::reading::is_forward;
use crate::walk::{is_edge_at, var_at, var_behind};
use crate::written::Written;
use pgs_base::{List, Memory};
use pgs_match::plan_key;
use pgs_pattern_end::Front;
use pgs_resolve_declared::{Numbering, next_number};
use pgs_resolve_keys::{ends, push_place};
use pgs_syntax::{Atom, Expr, Key, Pattern, Qualifiers};
use std::alloc::Global;

fn is_among(vars: &[u32], var: u32) -> bool
    ensures { result ≡ list_any (λ other. other == var) vars.now }
{
    vars.iter().any(|other| *other == var)
}

fn push_var(var: u32, vars: &mut Vec<u32>) -> Result<(), Memory>
    ensures { OnOk result (vars.new.items ≡ with_var vars.old.items var) }
{
    if !is_among(vars, var) {
        vars.push(var)?;
    }
    Ok(())
}

fn place_among(vars: &[u32], var: u32) -> Option<usize>
    ensures { result ≡ position (λ other. other == var) vars.now }
{
    vars.iter().position(|other| *other == var)
}

// The number of a variable among some.
fn new_number(vars: &[u32], var: u32) -> Result<u32, Memory>
    ensures { IfOk result (λ number. number ≡ new_number vars.now var) }
{
    match place_among(vars, var) {
        Some(place) => next_number(place),
        None => Ok(0),
    }
}

/// A part, of the keys of what is up to it and of what is before it.
pub(crate) fn front_of(alloc: Global, upto: &Key, before: &Key) -> Result<Front, Memory>
    requires upto { is_valid_key upto.now ≡ true }
    requires before { is_valid_key before.now ≡ true }
    ensures { IfOk result (λ front. front ≡ record { upto = upto.now; before = before.now }) }
{
    let upto = plan_key(alloc, upto)?;
    let before = plan_key(alloc, before)?;
    Ok(Front { upto, before })
}

impl Written<'_> {
    fn var_at(&self, place: usize) -> u32
        ensures { result ≡ var_at self.now.occurrences place }
    {
        var_at(&self.occurrences, place)
    }

    // Puts the variables of a visit last that aren't there.
    fn push_vars(&self, visit: &Visit, vars: &mut Vec<u32>) -> Result<(), Memory>
        ensures { OnOk result (vars.new.items ≡ fold with_var vars.old.items (vars_of_visit self.now.occurrences visit.now)) }
    {
        let place = visit.place;
        if is_edge_at(&self.occurrences, place) {
            push_var(self.var_at(place), vars)?;
            push_var(self.var_at(place.saturating_sub(1)), vars)?;
            push_var(var_behind(&self.occurrences, place), vars)
        } else {
            push_var(self.var_at(place), vars)
        }
    }

    // The variables of visits.
    fn vars_of(&self, alloc: Global, visits: &[Visit]) -> Result<Vec<u32>, Memory>
        ensures { IfOk result (λ vars. vars.items ≡ vars_of self.now.occurrences visits.now) }
    {
        let mut vars = Vec::new(alloc);
        vars.push(0)?;
        for visit in visits {
            self.push_vars(visit, &mut vars)?;
        }
        Ok(vars)
    }

    // The number of the variable at a place among some.
    fn number_at(&self, vars: &[u32], place: usize) -> Result<u32, Memory>
        ensures { IfOk result (λ number. number ≡ new_number vars.now (var_at self.now.occurrences place)) }
    {
        new_number(vars, self.var_at(place))
    }

    // Puts what is written at a place last.
    fn push_written(
        &self,
        alloc: Global,
        numbering: &Numbering,
        vars: &[u32],
        place: usize,
        atoms: &mut Vec<Atom>,
    ) -> Result<(), Memory>
        ensures { OnOk result (atoms.new.items ≡ atoms.old.items ++ written_atoms numbering.now self.now vars.now place) }
    {
        let number = self.number_at(vars, place)?;
        match self.places.get(place) {
            Some(written) => push_place(
                alloc,
                numbering,
                written.is_edge,
                number,
                &written.at.filter,
                atoms,
            ),
            None => Ok(()),
        }
    }

    // Puts the ends of an edge place last.
    fn push_ends(&self, vars: &[u32], place: usize, atoms: &mut Vec<Atom>) -> Result<(), Memory>
        ensures { OnOk result (atoms.new.items ≡ atoms.old.items ++ ends_atoms self.now vars.now place) }
    {
        if !is_edge_at(&self.occurrences, place) {
            return Ok(());
        }
        let edge = self.number_at(vars, place)?;
        let node = self.number_at(vars, place.saturating_sub(1))?;
        let next = new_number(vars, var_behind(&self.occurrences, place))?;
        atoms.push(ends(is_forward(&self.directions, place), edge, node, next))?;
        Ok(())
    }

    // Puts what a visit asks last.
    fn push_atoms(
        &self,
        alloc: Global,
        numbering: &Numbering,
        vars: &[u32],
        visit: &Visit,
        atoms: &mut Vec<Atom>,
    ) -> Result<(), Memory>
        ensures { OnOk result (atoms.new.items ≡ atoms.old.items ++ visit_atoms numbering.now self.now vars.now visit.now) }
    {
        self.push_written(alloc, numbering, vars, visit.place, atoms)?;
        self.push_ends(vars, visit.place, atoms)
    }

    // What visits ask.
    fn atoms_of(
        &self,
        alloc: Global,
        numbering: &Numbering,
        vars: &[u32],
        visits: &[Visit],
    ) -> Result<Vec<Atom>, Memory>
        ensures { IfOk result (λ atoms. atoms.items ≡ flat_map (visit_atoms numbering.now self.now vars.now) visits.now) }
    {
        let mut atoms = Vec::new(alloc);
        for visit in visits {
            self.push_atoms(alloc, numbering, vars, visit, &mut atoms)?;
        }
        Ok(atoms)
    }

    // Whether a variable of the descriptor is an edge.
    fn is_edge_var(&self, var: u32) -> bool
        ensures { result ≡ is_edge_var self.now.edge_vars var }
    {
        match self.edge_vars.at(var as usize) {
            Some(is_edge) => *is_edge,
            None => false,
        }
    }

    fn kinds_of(&self, alloc: Global, vars: &[u32]) -> Result<Vec<bool>, Memory>
        ensures { IfOk result (λ kinds. kinds.items ≡ map (is_edge_var self.now.edge_vars) vars.now) }
    {
        let mut kinds = Vec::with_capacity(alloc, vars.len())?;
        for var in vars {
            kinds.push(self.is_edge_var(*var))?;
        }
        Ok(kinds)
    }

    // The pattern of visits.
    fn visited_pattern(
        &self,
        alloc: Global,
        numbering: &Numbering,
        visits: &[Visit],
    ) -> Result<Pattern, Memory>
        ensures { IfOk result (λ pattern. pattern ≡ visited_pattern numbering.now self.now visits.now) }
    {
        let vars = self.vars_of(alloc, visits)?;
        let edge_vars = self.kinds_of(alloc, &vars)?;
        let atoms = self.atoms_of(alloc, numbering, &vars, visits)?;
        Ok(Pattern {
            edge_vars: List::from_vec(edge_vars),
            atoms: List::from_vec(atoms),
        })
    }

    // The variable at a place among those of visits, as the one expression of a key.
    fn var_expr(&self, alloc: Global, visits: &[Visit], place: usize) -> Result<List<Expr>, Memory>
        ensures { IfOk result (λ exprs. exprs ≡ Element (new_number (vars_of self.now.occurrences visits.now) (var_at self.now.occurrences place)) ∷ []) }
    {
        let vars = self.vars_of(alloc, visits)?;
        let number = self.number_at(&vars, place)?;
        let mut exprs = Vec::new(alloc);
        exprs.push(Expr::Element(number))?;
        Ok(List::from_vec(exprs))
    }

    // The key of the visit of a number.
    fn visit_key(
        &self,
        alloc: Global,
        numbering: &Numbering,
        qualifiers: Qualifiers,
        visits: &[Visit],
        number: usize,
    ) -> Result<Key, Memory>
        requires { number < length visits.now }
        ensures { (d : Visited) → IfOk result (λ key.
            key ≡ visit_key numbering.now self.now qualifiers visits.now (number, slice_index_or visits.now number d)) }
    {
        let before = &visits[..number];
        let scope = self.visited_pattern(alloc, numbering, &visits[..number + 1])?;
        let descriptor = self.visited_pattern(alloc, numbering, before)?;
        let exprs = self.var_expr(alloc, before, visits[number].from)?;
        Ok(Key {
            qualifiers,
            scope,
            descriptor,
            exprs,
        })
    }

    // The part of the visit of a number.
    fn visit_front(
        &self,
        alloc: Global,
        numbering: &Numbering,
        qualifiers: Qualifiers,
        visits: &[Visit],
        number: usize,
    ) -> Result<Front, Memory>
        requires within { number < length visits.now }
        requires valid { list_all has_valid_keys (fronts_of numbering.now self.now qualifiers visits.now) ≡ true }
        ensures { (d : Visited) → IfOk result (λ front.
            front ≡ visit_front numbering.now self.now qualifiers visits.now (number, slice_index_or visits.now number d)) }
    {
        let key = self.visit_key(alloc, numbering, qualifiers, visits, number)?;
        front_of(alloc, &key, &key)
    }

    /// The parts of visits, each as what is up to it and what is before it. Their keys are valid.
    pub(crate) fn fronts_of(
        &self,
        alloc: Global,
        numbering: &Numbering,
        qualifiers: Qualifiers,
        visits: &[Visit],
    ) -> Result<Vec<Front>, Memory>
        requires { list_all has_valid_keys (fronts_of numbering.now self.now qualifiers visits.now) ≡ true }
        ensures { IfOk result (λ fronts. fronts.items ≡ fronts_of numbering.now self.now qualifiers visits.now) }
    {
        let mut fronts = Vec::with_capacity(alloc, visits.len())?;
        for number in 0..visits.len() {
            fronts.push(self.visit_front(alloc, numbering, qualifiers, visits, number)?)?;
        }
        Ok(fronts)
    }
}
