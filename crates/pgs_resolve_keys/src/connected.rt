ghost use Rattle.std.specs.Prelude.{◌≡◌, ◌==◌, ℕ, ◌<◌, Bool, List as Items, [], ◌∷◌, true, length, map, slice_index, IfOk};
ghost use Rattle.std.specs.List.{list_all, enumerate_from};
ghost use Rattle.pgs_syntax.specs.Valid.{together, groups_after, is_connected};
ghost use Rattle.pgs_resolve_keys.specs.Groups.{AreParents, Keep, has_ends_below};

use pgs_base::Memory;
use pgs_syntax::{Atom, Pattern};
use std::alloc::Global;

// Each variable alone in its group.
fn alone(alloc: Global, edge_vars: &[bool]) -> Result<Vec<usize>, Memory>
    ensures parents { IfOk result (λ parents. AreParents parents.items) }
    ensures groups { IfOk result (λ parents. Keep (map (λ (place : ℕ × Bool). place.0) (enumerate_from 0 edge_vars.now)) parents.items) }
{
    let mut parents = Vec::new(alloc);
    for number in 0..edge_vars.len() {
        parents.push(number)?;
    }
    Ok(parents)
}

// The variable that stands for the group of a variable. The way to it is halved, so that the next one is short.
fn find(parents: &mut [usize], variable: usize) -> usize
    requires within { variable < length parents.old }
    requires parents { AreParents parents.old }
    ensures parents { AreParents parents.new }
    ensures within { result < length parents.new }
    ensures own { slice_index parents.new result ≡ result }
    ensures others { (i : ℕ) → slice_index parents.old i ≡ i → slice_index parents.new i ≡ i }
    ensures groups { (groups : Items ℕ) → Keep groups parents.old → Keep groups parents.new × (slice_index groups result ≡ slice_index groups variable) }
{
    let mut at = variable;
    while parents[at] != at {
        let above = parents[parents[at]];
        parents[at] = above;
        at = above;
    }
    at
}

// Puts the groups of two variables together.
fn unite(parents: &mut [usize], a: usize, b: usize)
    requires a_within { a < length parents.old }
    requires b_within { b < length parents.old }
    requires parents { AreParents parents.old }
    ensures parents { AreParents parents.new }
    ensures groups { (groups : Items ℕ) → Keep groups parents.old → Keep (together a b groups) parents.new }
{
    let one = find(parents, a);
    let other = find(parents, b);
    if one < other {
        parents[other] = one;
    } else {
        parents[one] = other;
    }
}

// Puts an edge together with its ends, where an atom gives them.
fn unite_ends(parents: &mut [usize], atom: &Atom)
    requires within { has_ends_below (length parents.old) atom.now ≡ true }
    requires parents { AreParents parents.old }
    ensures parents { AreParents parents.new }
    ensures groups { (groups : Items ℕ) → Keep groups parents.old → Keep (groups_after groups (atom.now ∷ [])) parents.new }
{
    if let Atom::Ends {
        edge,
        source,
        target,
    } = atom
    {
        unite(parents, *edge as usize, *target as usize);
        unite(parents, *edge as usize, *source as usize);
    }
}

// Puts each edge together with its ends.
fn unite_all(parents: &mut [usize], atoms: &[Atom])
    requires within { list_all (has_ends_below (length parents.old)) atoms.now ≡ true }
    requires parents { AreParents parents.old }
    ensures parents { AreParents parents.new }
    ensures groups { (groups : Items ℕ) → Keep groups parents.old → Keep (groups_after groups atoms.now) parents.new }
{
    for atom in atoms {
        unite_ends(parents, atom);
    }
}

// Whether all variables are in one group: only the first is its own parent.
fn are_one(parents: &[usize]) -> bool
    requires { AreParents parents.now }
    ensures { (groups : Items ℕ) → Keep groups parents.now → result ≡ list_all (λ group. group == slice_index groups 0) groups }
{
    for (number, parent) in parents.iter().enumerate() {
        if *parent == number && number > 0 {
            return false;
        }
    }
    true
}

/// Whether all variables of a pattern are linked by edges to their ends. The ends are among the variables.
pub fn is_connected(alloc: Global, pattern: &Pattern) -> Result<bool, Memory>
    requires { list_all (has_ends_below (length pattern.now.edge_vars)) pattern.now.atoms ≡ true }
    ensures { IfOk result (λ connected. connected ≡ is_connected pattern.now) }
{
    let mut parents = alone(alloc, pattern.edge_vars.as_slice())?;
    unite_all(&mut parents, pattern.atoms.as_slice());
    Ok(are_one(&parents))
}
