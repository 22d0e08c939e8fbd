//! The keys by which it is asked where the expressions of a key end.

ghost use Rattle.std.specs.Prelude.{◌≡◌, ◌<◌, ◌+◌, ◌^◌, ◌∷◌, true, Some, take, IfOk};
ghost use Rattle.pgs_syntax.specs.declared.pattern.Expr.TheVariants.{Element};
ghost use Rattle.pgs_syntax.specs.Valid.{read_var};
ghost use Rattle.std.specs.List.{list_all};
ghost use Rattle.pgs_resolve_keys.specs.Patterns.{x_of, resolved_key};
ghost use Rattle.pgs_key_causes.specs.Fronts.{with_exprs, expr_front, expr_fronts, has_valid_keys};

use crate::fronts::front_of;
use pgs_base::{List, Memory, Name};
use pgs_pattern_end::Front;
use pgs_resolve_declared::Numbering;
use pgs_resolve_keys::resolve_key;
use pgs_syntax::{Expr, Key, RawKey};
use std::alloc::Global;

// A key with its first expressions alone.
fn with_first(key: Key, count: usize) -> Key
    ensures { result ≡ with_exprs key (take count key.exprs) }
{
    let Key {
        qualifiers,
        scope,
        descriptor,
        exprs,
    } = key;
    let mut exprs = exprs.into_vec();
    exprs.truncate(count);
    Key {
        qualifiers,
        scope,
        descriptor,
        exprs: List::from_vec(exprs),
    }
}

// A key with a variable in front of its first expressions.
fn with_var(key: Key, var: u32, count: usize) -> Result<Key, Memory>
    ensures { IfOk result (λ with. with ≡ with_exprs key (Element var ∷ take count key.exprs)) }
{
    let Key {
        qualifiers,
        scope,
        descriptor,
        exprs,
    } = with_first(key, count);
    let mut exprs = exprs.into_vec();
    exprs.insert(0, Expr::Element(var))?;
    Ok(Key {
        qualifiers,
        scope,
        descriptor,
        exprs: List::from_vec(exprs),
    })
}

fn read_var(expr: &Expr) -> u32
    ensures { result ≡ read_var expr.now }
{
    match expr {
        Expr::Element(var) | Expr::Property { var, .. } => *var,
    }
}

/// A written key, which names x first, and the numbers of the types that it names.
#[derive(Clone, Copy)]
pub(crate) struct Resolving<'a> {
    pub(crate) numbering: &'a Numbering,
    pub(crate) x: &'a Name,
    pub(crate) key: &'a RawKey,
}

impl Resolving<'_> {
    /// The key with its names resolved.
    pub(crate) fn key(&self, alloc: Global) -> Result<Key, Memory>
        requires { x_of self.now.key.now ≡ Some self.now.x.now }
        ensures { IfOk result (λ key. key ≡ resolved_key self.now.numbering.now self.now.key.now) }
    {
        resolve_key(alloc, self.numbering, self.x, self.key)
    }

    // An expression as what is up to it and what is before it.
    fn expr_front(&self, alloc: Global, number: usize, expr: &Expr) -> Result<Front, Memory>
        requires x { x_of self.now.key.now ≡ Some self.now.x.now }
        requires low { number + 1 < 2 ^ 64 }
        requires valid { has_valid_keys (expr_front (resolved_key self.now.numbering.now self.now.key.now) (number, expr.now)) ≡ true }
        ensures { IfOk result (λ front. front ≡ expr_front (resolved_key self.now.numbering.now self.now.key.now) (number, expr.now)) }
    {
        let upto = with_first(self.key(alloc)?, number + 1);
        let before = with_var(self.key(alloc)?, read_var(expr), number)?;
        front_of(alloc, &upto, &before)
    }

    /// The expressions of the key, each as what is up to it and what is before it.
    pub(crate) fn expr_fronts(&self, alloc: Global, resolved: &Key) -> Result<Vec<Front>, Memory>
        requires x { x_of self.now.key.now ≡ Some self.now.x.now }
        requires same { resolved.now ≡ resolved_key self.now.numbering.now self.now.key.now }
        requires valid { list_all has_valid_keys (expr_fronts resolved.now) ≡ true }
        ensures { IfOk result (λ fronts. fronts.items ≡ expr_fronts resolved.now) }
    {
        let exprs = resolved.exprs.as_slice();
        let mut fronts = Vec::with_capacity(alloc, exprs.len())?;
        for (number, expr) in exprs.iter().enumerate() {
            fronts.push(self.expr_front(alloc, number, expr)?)?;
        }
        Ok(fronts)
    }
}
