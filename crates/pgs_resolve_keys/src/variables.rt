ghost use Rattle.std.specs.Prelude.{◌≡◌, ℕ, Bool, List, [], ◌∷◌, false, map, OnOk, IfOk};
ghost use Rattle.std.specs.List.{find};
ghost use Rattle.std.specs.Option.{option_map, option_to_list};
ghost use Rattle.pgs_syntax.specs.declared.raw.RawPath.{RawPath};
ghost use Rattle.pgs_resolve_keys.specs.Patterns.{Variable, called, nameless, variable_at, variables_at, same_variable, is_same, with_variable, number_of, variables_of, places_of};
ghost use Rattle.pgs_resolve_keys.specs.Placed.{placed};
ghost use Rattle.pgs_resolve_keys.specs.VariableTable.{Holds};

use crate::places::PlaceRef;
use pgs_base::{Copyable, Memory, Name};
use pgs_resolve_declared::next_number;
use pgs_syntax::RawPlace;
use std::alloc::Global;
use std::collections::BTreeMap;

/// The variables of a pattern: whether each is an edge, and the numbers of those that have a name, and of the others by
/// their places.
#[derive(Drop)]
pub struct Variables {
    pub edge_vars: Vec<bool>,
    pub named: BTreeMap<Name, u32>,
    pub nameless: BTreeMap<usize, u32>,
}

impl Variables {
    fn new(alloc: Global) -> Variables
        ensures { Holds [] result }
    {
        Variables {
            edge_vars: Vec::new(alloc),
            named: BTreeMap::new(alloc),
            nameless: BTreeMap::new(alloc),
        }
    }

    // Puts the variable of a name last where it isn't there.
    fn add_named(&mut self, alloc: Global, name: &Name, is_edge: bool) -> Result<(), Memory>
        ensures { (variables : List (Variable × Bool)) → Holds variables self.old →
            OnOk result (Holds (with_variable variables (called name.now, is_edge)) self.new) }
    {
        if self.named.contains_key(name) {
            return Ok(());
        }
        let number = next_number(self.edge_vars.len())?;
        self.named.insert(name.copy(alloc)?, number)?;
        self.edge_vars.push(is_edge)?;
        Ok(())
    }

    // Puts the variable of a place without a name last where it isn't there.
    fn add_nameless(&mut self, place: usize, is_edge: bool) -> Result<(), Memory>
        ensures { (variables : List (Variable × Bool)) → Holds variables self.old →
            OnOk result (Holds (with_variable variables (nameless place, is_edge)) self.new) }
    {
        if self.nameless.contains_key(&place) {
            return Ok(());
        }
        let number = next_number(self.edge_vars.len())?;
        self.nameless.insert(place, number)?;
        self.edge_vars.push(is_edge)?;
        Ok(())
    }

    fn add(&mut self, alloc: Global, number: usize, place: &PlaceRef<'_>) -> Result<(), Memory>
        ensures { (variables : List (Variable × Bool)) → Holds variables self.old →
            OnOk result (Holds (with_variable variables (variable_at number place.now.at.now, place.now.is_edge)) self.new) }
    {
        match &place.at.var {
            Some(name) => self.add_named(alloc, name, place.is_edge),
            None => self.add_nameless(number, place.is_edge),
        }
    }

    /// The number of the variable at the place of a number.
    pub fn number(&self, place: usize, at: &RawPlace) -> u32
        ensures { (variables : List (Variable × Bool)) → Holds variables self.now → result ≡ number_of variables (variable_at place at.now) }
    {
        match &at.var {
            Some(name) => self.named.get(name).copied().unwrap_or(0),
            None => self.nameless.get(&place).copied().unwrap_or(0),
        }
    }
}

// Whether the first place of a name is an edge place, where it has one.
fn kind_of(x: &Name, places: &[PlaceRef<'_>]) -> Option<bool>
    ensures { result ≡ option_map (λ (v : Variable × Bool). v.1) (find (is_same (called x.now)) (variables_at 0 (map placed places.now))) }
{
    for place in places {
        if is_named(x, place.at) {
            return Some(place.is_edge);
        }
    }
    None
}

fn is_named(x: &Name, place: &RawPlace) -> bool
    ensures { (number : ℕ) → result ≡ same_variable (called x.now) (variable_at number place.now) }
{
    match &place.var {
        Some(name) => x.cmp(name).is_eq(),
        None => false,
    }
}

// The variable of a name alone, where a place has the name.
fn first_variable(alloc: Global, x: &Name, places: &[PlaceRef<'_>]) -> Result<Variables, Memory>
    ensures { IfOk result (Holds (option_to_list (find (is_same (called x.now)) (variables_at 0 (map placed places.now))))) }
{
    let mut variables = Variables::new(alloc);
    match kind_of(x, places) {
        Some(is_edge) => {
            variables.add_named(alloc, x, is_edge)?;
            Ok(variables)
        }
        None => Ok(variables),
    }
}

impl Variables {
    /// The number of the variable of a name.
    pub fn number_named(&self, name: &Name) -> u32
        ensures { (variables : List (Variable × Bool)) → Holds variables self.now → result ≡ number_of variables (called name.now) }
    {
        self.named.get(name).copied().unwrap_or(0)
    }

    /// The variable of a name alone, a node.
    pub fn of_name(alloc: Global, x: &Name) -> Result<Variables, Memory>
        ensures { IfOk result (Holds ((called x.now, false) ∷ [])) }
    {
        let mut variables = Variables::new(alloc);
        variables.add_named(alloc, x, false)?;
        Ok(variables)
    }

    /// The variables of places, with x, where it is named, before the others.
    pub fn of_places(alloc: Global, x: &Name, places: &[PlaceRef<'_>]) -> Result<Variables, Memory>
        ensures { (paths : List RawPath) → map placed places.now ≡ places_of paths → IfOk result (Holds (variables_of x.now paths)) }
    {
        let mut variables = first_variable(alloc, x, places)?;
        for (number, place) in places.iter().enumerate() {
            variables.add(alloc, number, place)?;
        }
        Ok(variables)
    }
}
