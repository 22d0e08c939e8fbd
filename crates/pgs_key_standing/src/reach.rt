//! What a key reaches: whether its scope can have an element, and an element of the scope a key value.

ghost use Rattle.std.specs.Prelude.{◌≡◌, ◌≤◌, ◌==◌, true, List as Items, length, MatchBool, IfOk};
ghost use Rattle.std.specs.List.{list_all};
ghost use Rattle.pgs_base.specs.declared.row.NodeRow.{NodeRow};
ghost use Rattle.pgs_syntax.specs.Valid.{is_valid_key_of, names_types};
ghost use Rattle.pgs_key_standing.specs.Demands.{are_in};
ghost use Rattle.pgs_key_standing.specs.Placed.{HasPairs, LacksPairs};
ghost use Rattle.pgs_key_standing.specs.Reach.{IsReach, asks_values, HasScope, LacksScope, HasValue, LacksValue, AreReached};

use crate::asked::demands_of;
use crate::joint::{scope_places, value_places};
use crate::literals::{all_agree, literals_facts};
use crate::search::can_meet;
use crate::shapes::any_shape;
use crate::{Placed, Reach};
use pgs_base::Memory;
use pgs_conform::{Compiled, Shape};
use pgs_syntax::{Key, Qualifiers};
use std::alloc::Global;

// Shapes of all pairs, one for each place.
fn any_places(alloc: Global, kinds: &[bool]) -> Result<Vec<Shape>, Memory>
    ensures { IfOk result (λ places. (ps : Items NodeRow) → are_in places.items ps ≡ (length ps == length kinds.now)) }
{
    let mut places = Vec::with_capacity(alloc, kinds.len())?;
    let mut left = kinds;
    while let [_, later @ ..] = left {
        places.push(any_shape(alloc))?;
        left = later;
    }
    Ok(places)
}

// Whether there are pairs as a placed pattern asks, which can stand.
#[tactic(auto, using(crate::proofs::Decided::lacks_where_apart))]
fn has_pairs(alloc: Global, schema: &Compiled, placed: &Placed) -> Result<bool, Memory>
    requires types { list_all (names_types schema.now) placed.now.atoms ≡ true }
    requires few { length placed.now.kinds ≤ 42 }
    ensures { IfOk result (λ has. MatchBool has (HasPairs schema.now placed.now) (LacksPairs schema.now placed.now)) }
{
    let atoms = placed.atoms.as_slice();
    literals_facts(atoms);
    let agreed = all_agree(atoms);
    if !agreed {
        return Ok(false);
    }
    let demands = demands_of(alloc, schema, placed)?;
    let places = any_places(alloc, placed.kinds.as_slice())?;
    can_meet(alloc, places.as_slice(), demands.as_slice())
}

// Whether some graph that can stand has an element in the scope of a key.
fn has_scope(alloc: Global, schema: &Compiled, key: &Key) -> Result<bool, Memory>
    requires { is_valid_key_of schema.now key.now ≡ true }
    ensures { IfOk result (λ has. MatchBool has (HasScope schema.now key.now) (LacksScope schema.now key.now)) }
{
    let placed = scope_places(alloc, key)?;
    has_pairs(alloc, schema, &placed)
}

// Whether some graph that can stand has an element in the scope of a key that has a key value.
fn has_value(alloc: Global, schema: &Compiled, key: &Key) -> Result<bool, Memory>
    requires { is_valid_key_of schema.now key.now ≡ true }
    ensures { IfOk result (λ has. MatchBool has (HasValue schema.now key.now) (LacksValue schema.now key.now)) }
{
    let placed = value_places(alloc, key)?;
    has_pairs(alloc, schema, &placed)
}

// Whether a key asks for a key value of each element of its scope.
fn asks_values(qualifiers: Qualifiers) -> bool
    ensures { result ≡ asks_values qualifiers }
{
    if qualifiers.mandatory {
        return true;
    }
    match qualifiers.count {
        Some((least, _)) => least >= 1,
        None => false,
    }
}

/// What a key of a guard reaches, where it is valid and names types that are there: `Value` exactly where in some graph all of whose
/// elements can stand (keys left out) an element of the key's scope has a key value; else `NeverScope` exactly where in no such graph
/// its scope has an element; else `Forbids` exactly where the key is MANDATORY or counts from 1 on, and `NeverValue` where it isn't.
/// The rule is `IsReach` of `specs/Reach.antt`. Its work grows with the product of the numbers of ways to meet each demand of the
/// pattern. `Memory` where there was none left.
pub fn key_reach(alloc: Global, schema: &Compiled, key: &Key) -> Result<Reach, Memory>
    requires { is_valid_key_of schema.now key.now ≡ true }
    ensures { IfOk result (IsReach schema.now key.now) }
{
    let scope = has_scope(alloc, schema, key)?;
    if !scope {
        return Ok(Reach::NeverScope);
    }
    let value = has_value(alloc, schema, key)?;
    if value {
        return Ok(Reach::Value);
    }
    if asks_values(key.qualifiers) {
        return Ok(Reach::Forbids);
    }
    Ok(Reach::NeverValue)
}

/// What each key of the guard reaches, in the guard's order, as `key_reach` says. `Memory` where there was none left.
pub fn keys_reach(alloc: Global, schema: &Compiled) -> Result<Vec<Reach>, Memory>
    ensures { IfOk result (λ all. AreReached schema.now schema.now.guard.keys all.items) }
{
    let mut all = Vec::new(alloc);
    let mut left = schema.resolved().guard.keys.as_slice();
    while let [key, later @ ..] = left {
        let reach = key_reach(alloc, schema, key)?;
        all.push(reach)?;
        left = later;
    }
    Ok(all)
}
