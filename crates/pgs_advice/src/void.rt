ghost use Rattle.std.specs.Prelude.{◌≡◌};
ghost use Rattle.std.specs.List.{list_any, list_all};
ghost use Rattle.pgs_syntax.specs.Valid.{read_var};
ghost use Rattle.pgs_syntax.specs.declared.pattern.Expr.{Expr as Reads};
ghost use Rattle.pgs_advice.specs.Void.{is_end_of_x, is_fixed_by_x, has_end_x, fixes_x, is_identifier, has_void_singleton, has_void_exclusive};

use pgs_syntax::{Atom, Expr, Key, Pattern, Qualifiers};

// Whether an atom says that a variable is an end of x, the variable 0.
fn is_end_of_x(var: u32, atom: &Atom) -> bool
    ensures { result ≡ is_end_of_x var atom.now }
{
    match atom {
        Atom::Ends {
            edge,
            source,
            target,
        } => *edge == 0 && (var == *source || var == *target),
        _ => false,
    }
}

fn some_is_end_of_x(var: u32, atoms: &[Atom]) -> bool
    ensures { result ≡ list_any (is_end_of_x var) atoms.now }
{
    atoms.iter().any(|atom| is_end_of_x(var, atom))
}

// Whether x fixes a variable: it is x, or an end of x.
fn is_fixed_by_x(pattern: &Pattern, var: u32) -> bool
    ensures { result ≡ is_fixed_by_x pattern.now var }
{
    var == 0 || some_is_end_of_x(var, pattern.atoms.as_slice())
}

// Whether an atom says that x is an end of a variable.
fn has_end_x(var: u32, atom: &Atom) -> bool
    ensures { result ≡ has_end_x var atom.now }
{
    match atom {
        Atom::Ends {
            edge,
            source,
            target,
        } => var == *edge && (*source == 0 || *target == 0),
        _ => false,
    }
}

fn some_has_end_x(var: u32, atoms: &[Atom]) -> bool
    ensures { result ≡ list_any (has_end_x var) atoms.now }
{
    atoms.iter().any(|atom| has_end_x(var, atom))
}

// Whether an expression is an element that fixes x: x, or an edge of which x is an end.
fn fixes_x(pattern: &Pattern, expr: &Expr) -> bool
    ensures { result ≡ fixes_x pattern.now expr.now }
{
    match expr {
        Expr::Element(var) => *var == 0 || some_has_end_x(*var, pattern.atoms.as_slice()),
        Expr::Property { .. } => false,
    }
}

fn read_var(expr: &Expr) -> u32
    ensures { result ≡ read_var expr.now }
{
    match expr {
        Expr::Element(var) => *var,
        Expr::Property { var, .. } => *var,
    }
}

// Whether x fixes the variable of each expression.
fn are_fixed_by_x(pattern: &Pattern, exprs: &[Expr]) -> bool
    ensures { result ≡ list_all (λ (expr : Reads). is_fixed_by_x pattern.now (read_var expr)) exprs.now }
{
    exprs
        .iter()
        .all(|expr| is_fixed_by_x(pattern, read_var(expr)))
}

// Whether some expression is an element that fixes x.
fn some_fixes_x(pattern: &Pattern, exprs: &[Expr]) -> bool
    ensures { result ≡ list_any (fixes_x pattern.now) exprs.now }
{
    exprs.iter().any(|expr| fixes_x(pattern, expr))
}

// Whether a key asks the three that IDENTIFIER asks.
fn is_identifier(qualifiers: &Qualifiers) -> bool
    ensures { result ≡ is_identifier qualifiers.now }
{
    qualifiers.mandatory && qualifiers.singleton && qualifiers.exclusive
}

/// Whether no graph breaks a key's SINGLETON, since x fixes the variable of each expression: it is x, or an end of the edge x. It isn't
/// told of a key that asks all that IDENTIFIER asks. What it means is the law `void_singletons`
/// (docs/DEFINITIONS.md, "What a schema says in silence").
pub fn has_void_singleton(key: &Key) -> bool
    ensures { result ≡ has_void_singleton key.now }
{
    key.qualifiers.singleton
        && !is_identifier(&key.qualifiers)
        && are_fixed_by_x(&key.descriptor, key.exprs.as_slice())
}

/// Whether no graph breaks a key's EXCLUSIVE, since an expression is an element that fixes x: x, or an edge of which x is an end. It isn't
/// told of a key that asks all that IDENTIFIER asks. What it means is the law `void_exclusives`
/// (docs/DEFINITIONS.md, "What a schema says in silence").
pub fn has_void_exclusive(key: &Key) -> bool
    ensures { result ≡ has_void_exclusive key.now }
{
    key.qualifiers.exclusive
        && !is_identifier(&key.qualifiers)
        && some_fixes_x(&key.descriptor, key.exprs.as_slice())
}
