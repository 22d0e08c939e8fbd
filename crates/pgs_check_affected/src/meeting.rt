//! Whether a change can alter anything under a key, as far as the own rows of its elements tell.

ghost use Rattle.std.specs.Prelude.{◌≡◌, false, true};
ghost use Rattle.std.specs.List.{All};
ghost use Rattle.pgs_syntax.specs.Valid.{is_valid_key_of};
ghost use Rattle.pgs_match.specs.Planned.{pattern_of};
ghost use Rattle.pgs_check_affected.specs.Local.{is_edge_alone};
ghost use Rattle.pgs_check_affected.specs.Met.{has_as_end, is_end_var, is_absent_in_one, is_looked_at, is_taken_at, IsApart, PassesNone};

use crate::Known;
use crate::gathering::{Sought, is_edge};
use pgs_conform::Compiled;
use pgs_match::{PlannedKey, Side};
use pgs_syntax::{Atom, Pattern};

// Whether an atom has a variable as an end of its edge.
fn has_as_end(atom: &Atom, var: u32) -> bool
    ensures { result ≡ has_as_end var atom.now }
{
    match atom {
        Atom::Ends { source, target, .. } => *source == var || *target == var,
        _ => false,
    }
}

// Whether a variable is an end of some edge variable.
fn is_end_var(pattern: &Pattern, var: u32) -> bool
    ensures { result ≡ is_end_var pattern.now var }
{
    pattern
        .atoms
        .as_slice()
        .iter()
        .any(|atom| has_as_end(atom, var))
}

// Whether an element is absent from one of the two graphs.
fn is_absent_in_one(known: &Known<'_>) -> bool
    ensures { result ≡ is_absent_in_one known.now }
{
    known.before.is_none() || known.after.is_none()
}

// Whether an element is looked at for a variable. One that is absent from a graph isn't for an end of an edge variable: where it is there, a
// match that binds it binds an edge at it, which is an element of the change too.
fn is_looked_at(pattern: &Pattern, var: u32, known: &Known<'_>) -> bool
    ensures { result ≡ is_looked_at pattern.now var known.now }
{
    !(is_absent_in_one(known) && is_end_var(pattern, var))
}

impl<'a> Sought<'a> {
    // Whether an element is looked at for a variable, and its own row, in one of two graphs, passes what the pattern asks of it.
    fn takes_at(&self, known: &Known<'_>, var: u32) -> bool
        requires { is_valid_key_of self.now.compiled.now self.now.key.now ≡ true }
        ensures { result ≡ is_taken_at self.now.compiled.now (pattern_of self.now.side self.now.key.now) var known.now }
    {
        is_looked_at(self.key.pattern(self.side), var, known)
            && (self.passes(var, known.elem, &known.before)
                || self.passes(var, known.elem, &known.after))
    }

    // Whether some variable of the pattern, from a number on, takes an element.
    fn takes(&self, known: &Known<'_>, first: u32) -> bool
        requires { is_valid_key_of self.now.compiled.now self.now.key.now ≡ true }
        ensures { result ≡ false → PassesNone self.now.compiled.now (pattern_of self.now.side self.now.key.now) first known.now }
    {
        let vars = self.key.pattern(self.side).edge_vars.len();
        for var in first..vars as u32 {
            if self.takes_at(known, var) {
                return true;
            }
        }
        false
    }
}

// Whether some variable of the scope takes an element, or one behind x of the descriptor.
fn is_taken(known: &Known<'_>, compiled: &Compiled, key: &PlannedKey) -> bool
    requires { is_valid_key_of compiled.now key.now ≡ true }
    ensures { result ≡ false → IsApart compiled.now key.now known.now }
{
    let scope = Sought {
        compiled,
        key,
        side: Side::Scope,
    };
    let descriptor = Sought {
        compiled,
        key,
        side: Side::Descriptor,
    };
    scope.takes(known, 0) || descriptor.takes(known, 1)
}

// Whether a pattern is one edge alone.
fn is_edge_alone(pattern: &Pattern) -> bool
    ensures { result ≡ is_edge_alone pattern.now }
{
    pattern.edge_vars.len() == 1 && is_edge(pattern)
}

/// Whether elements of a change can alter anything under a key, as far as their own rows tell. It takes no look-up and no memory.
pub(crate) fn can_meet(known: &[Known<'_>], compiled: &Compiled, key: &PlannedKey) -> bool
    requires { is_valid_key_of compiled.now key.now ≡ true }
    ensures alone { result ≡ false → is_edge_alone key.now.scope ≡ false }
    ensures apart { result ≡ false → All (IsApart compiled.now key.now) known.now }
{
    if is_edge_alone(key.pattern(Side::Scope)) {
        return true;
    }
    for one in known {
        if is_taken(one, compiled, key) {
            return true;
        }
    }
    false
}
