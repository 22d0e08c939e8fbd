//! Whether two patterns are one, and whether the types that they name are declared alike.

ghost use Rattle.std.specs.Prelude.{◌≡◌};
ghost use Rattle.std.specs.List.{list_all, zip};
ghost use Rattle.std.specs.Cmp.Lexicographic.{pointwise};
ghost use Rattle.pgs_syntax.specs.Valid.{are_one_kind};
ghost use Rattle.pgs_schema_changes.specs.AsksNoMore.{same_node_name, same_edge_name, same_atom, names_alike, same_pattern, patterns_alike};
ghost use Rattle.pgs_schema_changes.specs.Numbers.{TellsAlike};

use crate::declarations::Declarations;
use crate::same::{same_name, same_value};
use pgs_syntax::{Atom, Pattern, Resolved};

fn same_node_name(old: &Resolved, new: &Resolved, own: u32, number: u32) -> bool
    ensures { result ≡ same_node_name old.now new.now own number }
{
    match (old.nodes.at(own as usize), new.nodes.at(number as usize)) {
        (Some(own), Some(other)) => same_name(&own.name, &other.name),
        _ => false,
    }
}

fn same_edge_name(old: &Resolved, new: &Resolved, own: u32, number: u32) -> bool
    ensures { result ≡ same_edge_name old.now new.now own number }
{
    match (old.edges.at(own as usize), new.edges.at(number as usize)) {
        (Some(own), Some(other)) => same_name(&own.name, &other.name),
        _ => false,
    }
}

fn same_atom(old: &Resolved, new: &Resolved, own: &Atom, atom: &Atom) -> bool
    ensures { result ≡ same_atom old.now new.now own.now atom.now }
{
    match (own, atom) {
        (
            Atom::Ends {
                edge,
                source,
                target,
            },
            Atom::Ends {
                edge: other,
                source: from,
                target: to,
            },
        ) => edge == other && source == from && target == to,
        (
            Atom::HasLabel { var, label },
            Atom::HasLabel {
                var: other,
                label: name,
            },
        ) => var == other && same_name(label, name),
        (Atom::FitsNode { var, number: own }, Atom::FitsNode { var: other, number }) => var == other
            && same_node_name(old, new, *own, *number),
        (Atom::FitsEdge { var, number: own }, Atom::FitsEdge { var: other, number }) => var == other
            && same_edge_name(old, new, *own, *number),
        (
            Atom::Equals { var, key, value },
            Atom::Equals {
                var: other,
                key: name,
                value: wanted,
            },
        ) => var == other && same_name(key, name) && same_value(value, wanted),
        _ => false,
    }
}

fn names_alike(
    old: &Resolved,
    new: &Resolved,
    types: &Declarations,
    own: &Atom,
    atom: &Atom,
) -> bool
    requires { TellsAlike old.now new.now types.now }
    ensures { result ≡ names_alike old.now new.now own.now atom.now }
{
    match (own, atom) {
        (Atom::FitsNode { number: own, .. }, Atom::FitsNode { number, .. }) => {
            types.same_nodes(*own, *number)
        }
        (Atom::FitsEdge { number: own, .. }, Atom::FitsEdge { number, .. }) => {
            types.same_edges(*own, *number)
        }
        _ => true,
    }
}

fn pair_kinds(own: &[bool], kinds: &[bool]) -> bool
    ensures { result ≡ list_all (λ pair. are_one_kind pair.0 pair.1) (zip own.now kinds.now) }
{
    own.iter().zip(kinds).all(|(a, b)| a == b)
}

#[tactic(auto, using(crate::proofs::Pairs::by_pairs))]
fn same_kinds(own: &[bool], kinds: &[bool]) -> bool
    ensures { result ≡ pointwise are_one_kind own.now kinds.now }
{
    own.len() == kinds.len() && pair_kinds(own, kinds)
}

fn pair_atoms(old: &Resolved, new: &Resolved, own: &[Atom], atoms: &[Atom]) -> bool
    ensures { result ≡ list_all (λ pair. same_atom old.now new.now pair.0 pair.1) (zip own.now atoms.now) }
{
    own.iter()
        .zip(atoms)
        .all(|(a, b)| same_atom(old, new, a, b))
}

#[tactic(auto, using(crate::proofs::Pairs::by_pairs))]
fn same_atoms(old: &Resolved, new: &Resolved, own: &[Atom], atoms: &[Atom]) -> bool
    ensures { result ≡ pointwise (same_atom old.now new.now) own.now atoms.now }
{
    own.len() == atoms.len() && pair_atoms(old, new, own, atoms)
}

/// Whether a pattern of the old schema is one of the new schema, types compared by name.
pub(crate) fn same_pattern(old: &Resolved, new: &Resolved, own: &Pattern, pattern: &Pattern) -> bool
    ensures { result ≡ same_pattern old.now new.now own.now pattern.now }
{
    same_kinds(own.edge_vars.as_slice(), pattern.edge_vars.as_slice())
        && same_atoms(old, new, own.atoms.as_slice(), pattern.atoms.as_slice())
}

fn pair_names(
    old: &Resolved,
    new: &Resolved,
    types: &Declarations,
    own: &[Atom],
    atoms: &[Atom],
) -> bool
    requires { TellsAlike old.now new.now types.now }
    ensures { result ≡ list_all (λ pair. names_alike old.now new.now pair.0 pair.1) (zip own.now atoms.now) }
{
    own.iter()
        .zip(atoms)
        .all(|(a, b)| names_alike(old, new, types, a, b))
}

#[tactic(auto, using(crate::proofs::Pairs::by_pairs))]
fn atoms_alike(
    old: &Resolved,
    new: &Resolved,
    types: &Declarations,
    own: &[Atom],
    atoms: &[Atom],
) -> bool
    requires { TellsAlike old.now new.now types.now }
    ensures { result ≡ pointwise (names_alike old.now new.now) own.now atoms.now }
{
    own.len() == atoms.len() && pair_names(old, new, types, own, atoms)
}

/// Whether the types that two patterns name are declared alike.
pub(crate) fn patterns_alike(
    old: &Resolved,
    new: &Resolved,
    types: &Declarations,
    own: &Pattern,
    pattern: &Pattern,
) -> bool
    requires { TellsAlike old.now new.now types.now }
    ensures { result ≡ patterns_alike old.now new.now own.now pattern.now }
{
    atoms_alike(
        old,
        new,
        types,
        own.atoms.as_slice(),
        pattern.atoms.as_slice(),
    )
}
