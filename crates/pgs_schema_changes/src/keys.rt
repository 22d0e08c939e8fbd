//! Whether a key of the old schema keeps one of the new schema.

ghost use Rattle.std.specs.Prelude.{◌≡◌};
ghost use Rattle.std.specs.List.{list_all, list_any, zip};
ghost use Rattle.std.specs.Cmp.Lexicographic.{pointwise};
ghost use Rattle.pgs_schema_changes.specs.AsksNoMore.{same_expr, same_key, keys_alike, counts_no_more, ask_no_more, keeps, is_kept, is_dropped};
ghost use Rattle.pgs_schema_changes.specs.Numbers.{TellsAlike};

use crate::atoms::{patterns_alike, same_pattern};
use crate::declarations::Declarations;
use crate::same::same_name;
use pgs_syntax::{Expr, Key, Qualifiers, Resolved};

fn same_expr(own: &Expr, expr: &Expr) -> bool
    ensures { result ≡ same_expr own.now expr.now }
{
    match (own, expr) {
        (Expr::Element(var), Expr::Element(other)) => var == other,
        (
            Expr::Property { var, key },
            Expr::Property {
                var: other,
                key: name,
            },
        ) => var == other && same_name(key, name),
        _ => false,
    }
}

fn pair_exprs(own: &[Expr], exprs: &[Expr]) -> bool
    ensures { result ≡ list_all (λ pair. same_expr pair.0 pair.1) (zip own.now exprs.now) }
{
    own.iter().zip(exprs).all(|(a, b)| same_expr(a, b))
}

#[tactic(auto, using(crate::proofs::Pairs::by_pairs))]
fn same_exprs(own: &[Expr], exprs: &[Expr]) -> bool
    ensures { result ≡ pointwise same_expr own.now exprs.now }
{
    own.len() == exprs.len() && pair_exprs(own, exprs)
}

fn same_key(old: &Resolved, new: &Resolved, own: &Key, key: &Key) -> bool
    ensures { result ≡ same_key old.now new.now own.now key.now }
{
    same_pattern(old, new, &own.scope, &key.scope)
        && same_pattern(old, new, &own.descriptor, &key.descriptor)
        && same_exprs(own.exprs.as_slice(), key.exprs.as_slice())
}

fn keys_alike(old: &Resolved, new: &Resolved, types: &Declarations, own: &Key, key: &Key) -> bool
    requires { TellsAlike old.now new.now types.now }
    ensures { result ≡ keys_alike old.now new.now own.now key.now }
{
    patterns_alike(old, new, types, &own.scope, &key.scope)
        && patterns_alike(old, new, types, &own.descriptor, &key.descriptor)
}

fn counts_no_more(own: Option<(u32, u32)>, range: Option<(u32, u32)>) -> bool
    ensures { result ≡ counts_no_more own range }
{
    match (own, range) {
        (_, None) => true,
        (None, Some(_)) => false,
        (Some(own), Some(range)) => range.0 <= own.0 && own.1 <= range.1,
    }
}

fn ask_no_more(own: Qualifiers, new: Qualifiers) -> bool
    ensures { result ≡ ask_no_more own new }
{
    (own.mandatory || !new.mandatory)
        && (own.singleton || !new.singleton)
        && (own.exclusive || !new.exclusive)
        && counts_no_more(own.count, new.count)
}

fn keeps(old: &Resolved, new: &Resolved, types: &Declarations, own: &Key, key: &Key) -> bool
    requires { TellsAlike old.now new.now types.now }
    ensures { result ≡ keeps old.now new.now own.now key.now }
{
    same_key(old, new, own, key)
        && keys_alike(old, new, types, own, key)
        && ask_no_more(own.qualifiers, key.qualifiers)
}

/// Whether some key of the old guard keeps a key of the new guard.
pub(crate) fn is_kept(old: &Resolved, new: &Resolved, types: &Declarations, key: &Key) -> bool
    requires { TellsAlike old.now new.now types.now }
    ensures { result ≡ is_kept old.now new.now key.now }
{
    let keys = old.guard.keys.as_slice();
    keys.iter().any(|own| keeps(old, new, types, own, key))
}

fn is_there(old: &Resolved, new: &Resolved, own: &Key) -> bool
    ensures { result ≡ list_any (same_key old.now new.now own.now) new.now.guard.keys }
{
    let keys = new.guard.keys.as_slice();
    keys.iter().any(|key| same_key(old, new, own, key))
}

/// Whether no key of the new guard is a key of the old guard, whatever it asks.
pub(crate) fn is_dropped(old: &Resolved, new: &Resolved, own: &Key) -> bool
    ensures { result ≡ is_dropped old.now new.now own.now }
{
    !is_there(old, new, own)
}
