//! Whether a key can see an element change, as far as the element's own rows tell. No test takes a look-up or memory.

ghost use Rattle.std.specs.Prelude.{◌≡◌, true, length};
ghost use Rattle.std.specs.List.{list_any, list_all};
ghost use Rattle.pgs_syntax.specs.Valid.{is_valid_key_of};
ghost use Rattle.pgs_match.specs.Planned.{pattern_of};
ghost use Rattle.pgs_check_affected.specs.Unseen.{row_passes, is_one_outcome, passes_alike, gives_alike, asks_some_type, key_asks_edge_types, look_same, is_left_unseen};

use crate::Known;
use crate::gathering::Sought;
use pgs_conform::{Compiled, Pair, looks_same};
use pgs_match::{PlannedKey, Side};
use pgs_syntax::{Atom, Expr, Pattern};

impl<'a> Sought<'a> {
    // Whether an element's rows in both graphs pass what the pattern asks of a variable, or neither does.
    fn passes_alike_at(&self, known: &Known<'_>, var: u32) -> bool
        requires { is_valid_key_of self.now.compiled.now self.now.key.now ≡ true }
        ensures { result ≡ is_one_outcome
            (row_passes self.now.compiled.now (pattern_of self.now.side self.now.key.now) var known.now.elem known.now.before)
            (row_passes self.now.compiled.now (pattern_of self.now.side self.now.key.now) var known.now.elem known.now.after) }
    {
        let after = self.passes(var, known.elem, &known.after);
        if self.passes(var, known.elem, &known.before) {
            after
        } else {
            !after
        }
    }

    // Whether they pass the same variables.
    fn passes_alike(&self, known: &Known<'_>) -> bool
        requires { is_valid_key_of self.now.compiled.now self.now.key.now ≡ true }
        ensures { result ≡ passes_alike self.now.compiled.now (pattern_of self.now.side self.now.key.now)
            (length (pattern_of self.now.side self.now.key.now).edge_vars) known.now }
    {
        let vars = self.key.pattern(self.side).edge_vars.len();
        for var in 0..vars as u32 {
            if !self.passes_alike_at(known, var) {
                return false;
            }
        }
        true
    }

    // Whether they give an expression the same value, or neither passes its variable.
    fn gives_alike(&self, known: &Known<'_>, expr: &Expr) -> bool
        requires { is_valid_key_of self.now.compiled.now self.now.key.now ≡ true }
        ensures { result ≡ gives_alike self.now.compiled.now (pattern_of self.now.side self.now.key.now) known.now expr.now }
    {
        let Expr::Property { var, key } = expr else {
            return true;
        };
        let passes = self.passes(*var, known.elem, &known.before)
            || self.passes(*var, known.elem, &known.after);
        !passes || known.keeps_value(key)
    }

    // Whether they give all expressions so.
    fn gives_all_alike(&self, known: &Known<'_>, exprs: &[Expr]) -> bool
        requires { is_valid_key_of self.now.compiled.now self.now.key.now ≡ true }
        ensures { result ≡ list_all (gives_alike self.now.compiled.now (pattern_of self.now.side self.now.key.now) known.now) exprs.now }
    {
        for expr in exprs {
            if !self.gives_alike(known, expr) {
                return false;
            }
        }
        true
    }
}

// Whether both rows look the same to types, or are absent.
fn look_same(before: &Option<Pair<'_>>, after: &Option<Pair<'_>>) -> bool
    ensures { result ≡ look_same before.now after.now }
{
    match (before, after) {
        (Some(own), Some(other)) => looks_same(own, other),
        (None, None) => true,
        _ => false,
    }
}

// Whether an atom asks an edge type.
fn asks_some_type(atom: &Atom) -> bool
    ensures { result ≡ asks_some_type atom.now }
{
    matches!(atom, Atom::FitsEdge { .. })
}

// Whether some atom of a pattern does.
fn asks_edge_types(pattern: &Pattern) -> bool
    ensures { result ≡ list_any asks_some_type pattern.now.atoms }
{
    pattern
        .atoms
        .as_slice()
        .iter()
        .any(|atom| asks_some_type(atom))
}

// Whether a key asks edge types.
fn asks_types(key: &PlannedKey) -> bool
    ensures { result ≡ key_asks_edge_types key.now }
{
    asks_edge_types(key.pattern(Side::Scope)) || asks_edge_types(key.pattern(Side::Descriptor))
}

/// Whether the rows of an element tell that a key can't see it change. The rule is `is_left_unseen` in `specs/Unseen.antt`.
pub(crate) fn is_left_unseen(known: &Known<'_>, compiled: &Compiled, key: &PlannedKey) -> bool
    requires { is_valid_key_of compiled.now key.now ≡ true }
    ensures { result ≡ is_left_unseen compiled.now key.now known.now }
{
    let scope = Sought {
        compiled,
        key,
        side: Side::Scope,
    };
    let descriptor = Sought {
        compiled,
        key,
        side: Side::Descriptor,
    };
    known.keeps_ends
        && scope.passes_alike(known)
        && descriptor.passes_alike(known)
        && descriptor.gives_all_alike(known, key.key().exprs.as_slice())
        && (!asks_types(key) || look_same(&known.before, &known.after))
}
