ghost use Rattle.std.specs.Prelude.{◌≡◌, List as Items, Bool, Some, map, IfOk};
ghost use Rattle.std.specs.Option.{option_map_or};
ghost use Rattle.pgs_resolve_keys.specs.Patterns.{Variable, x_of, x_alone, pattern_of, descriptor_variables, resolved_expr, resolved_key};
ghost use Rattle.pgs_resolve_keys.specs.VariableTable.{Holds};

use crate::patterns::pattern_of;
use crate::places::places_of;
use crate::variables::Variables;
use pgs_base::{Copyable, List, Memory, Name};
use pgs_resolve_declared::Numbering;
use pgs_syntax::{Expr, Key, Pattern, RawExpr, RawKey};
use std::alloc::Global;

// The pattern of x alone, of the kind that it has in the scope.
fn x_alone(alloc: Global, scope: &Pattern) -> Result<Pattern, Memory>
    ensures { IfOk result (λ pattern. pattern ≡ x_alone scope.now) }
{
    let mut edge_vars = Vec::new(alloc);
    match scope.edge_vars.as_slice() {
        [] => {}
        [first, ..] => edge_vars.push(*first)?,
    }
    Ok(Pattern {
        edge_vars: List::from_vec(edge_vars),
        atoms: List::new(alloc),
    })
}

// The variables of the descriptor: without WITHIN it is x alone.
fn variables_of_descriptor(alloc: Global, x: &Name, key: &RawKey) -> Result<Variables, Memory>
    ensures { IfOk result (Holds (descriptor_variables x.now key.now)) }
{
    match &key.within {
        Some(paths) => {
            let places = places_of(alloc, paths.as_slice())?;
            Variables::of_places(alloc, x, &places)
        }
        None => Variables::of_name(alloc, x),
    }
}

fn resolve_expr(alloc: Global, variables: &Variables, expr: &RawExpr) -> Result<Expr, Memory>
    ensures { IfOk result (λ resolved. (held : Items (Variable × Bool)) → Holds held variables.now → resolved ≡ resolved_expr held expr.now) }
{
    let var = variables.number_named(&expr.var);
    match &expr.key {
        Some(key) => Ok(Expr::Property {
            var,
            key: key.copy(alloc)?,
        }),
        None => Ok(Expr::Element(var)),
    }
}

fn resolve_exprs(
    alloc: Global,
    variables: &Variables,
    exprs: &[RawExpr],
) -> Result<List<Expr>, Memory>
    ensures { IfOk result (λ resolved. (held : Items (Variable × Bool)) → Holds held variables.now → resolved ≡ map (resolved_expr held) exprs.now) }
{
    let mut resolved = Vec::new(alloc);
    for expr in exprs {
        resolved.push(resolve_expr(alloc, variables, expr)?)?;
    }
    Ok(List::from_vec(resolved))
}

fn resolve_descriptor(
    alloc: Global,
    numbering: &Numbering,
    x: &Name,
    scope: &Pattern,
    key: &RawKey,
) -> Result<Pattern, Memory>
    ensures { IfOk result (λ pattern. pattern ≡ option_map_or (pattern_of numbering.now x.now) key.now.within (x_alone scope.now)) }
{
    match &key.within {
        Some(paths) => pattern_of(alloc, numbering, x, paths.as_slice()),
        None => x_alone(alloc, scope),
    }
}

/// A key with its names resolved, where x is the first variable that its scope names.
pub fn resolve_key(
    alloc: Global,
    numbering: &Numbering,
    x: &Name,
    key: &RawKey,
) -> Result<Key, Memory>
    requires { x_of key.now ≡ Some x.now }
    ensures { IfOk result (λ resolved. resolved ≡ resolved_key numbering.now key.now) }
{
    let scope = pattern_of(alloc, numbering, x, key.scope.as_slice())?;
    let descriptor = resolve_descriptor(alloc, numbering, x, &scope, key)?;
    let variables = variables_of_descriptor(alloc, x, key)?;
    let exprs = resolve_exprs(alloc, &variables, key.exprs.as_slice())?;
    Ok(Key {
        qualifiers: key.qualifiers,
        scope,
        descriptor,
        exprs,
    })
}
