//! The values that a pattern asks for.

ghost use Rattle.std.specs.Prelude.{◌≡◌, true};
ghost use Rattle.std.specs.List.{list_all};
ghost use Rattle.pgs_base.specs.Pair.{same_name};
ghost use Rattle.pgs_syntax.specs.Matches.{same_value};
ghost use Rattle.pgs_key_standing.specs.Kinds.{agree, all_agree, has_literal};

use pgs_base::{Name, Value};
use pgs_syntax::Atom;

// What each atom meets: the value that it asks for is one. Nothing is done.
fn literal_facts(atom: &Atom)
    ensures { has_literal atom.now ≡ true }
{
    if let Atom::Equals { value, .. } = atom {
        value.facts();
    }
}

/// What all atoms meet: the values that they ask for are such. Nothing is done.
pub(crate) fn literals_facts(atoms: &[Atom])
    ensures { list_all has_literal atoms.now ≡ true }
{
    let [atom, later @ ..] = atoms else {
        return;
    };
    literal_facts(atom);
    literals_facts(later);
}

fn same_name(first: &Name, second: &Name) -> bool
    ensures { result ≡ same_name first.now second.now }
{
    first.cmp(second).is_eq()
}

fn same_value(first: &Value, second: &Value) -> bool
    ensures { result ≡ same_value first.now second.now }
{
    first.cmp(second).is_eq()
}

// Whether two atoms ask for one value at one key of one place, or not for the same.
#[tactic(auto, using(crate::proofs::Agreed::agree_apart, crate::proofs::Agreed::agree_unnamed, crate::proofs::Agreed::agree_values))]
fn agree(first: &Atom, second: &Atom) -> bool
    ensures { result ≡ agree first.now second.now }
{
    let Atom::Equals { var, key, value } = first else {
        return true;
    };
    let Atom::Equals {
        var: other,
        key: name,
        value: wanted,
    } = second
    else {
        return true;
    };
    if *var != *other {
        return true;
    }
    let named = same_name(key, name);
    if !named {
        return true;
    }
    same_value(value, wanted)
}

// Whether an atom agrees with all others.
fn agrees_with_all(atom: &Atom, others: &[Atom]) -> bool
    ensures { result ≡ list_all (agree atom.now) others.now }
{
    let [other, later @ ..] = others else {
        return true;
    };
    if !agree(atom, other) {
        return false;
    }
    agrees_with_all(atom, later)
}

/// Whether the values agree that atoms ask for at one key of one place.
pub(crate) fn all_agree(atoms: &[Atom]) -> bool
    ensures { result ≡ all_agree atoms.now }
{
    let [atom, later @ ..] = atoms else {
        return true;
    };
    if !agrees_with_all(atom, later) {
        return false;
    }
    all_agree(later)
}
