//! Ways that lead from a variable to one other.

ghost use Rattle.std.specs.Prelude.{◌≡◌, ◌&&◌, ◌||◌, ◌==◌, not, length};
ghost use Rattle.std.specs.List.{list_all};
ghost use Rattle.pgs_syntax.specs.Valid.{read_var};
ghost use Rattle.pgs_match.specs.Answers.{is_bound_in};
ghost use Rattle.pgs_match.specs.Frontier.{is_path, end_var, leads_to_one};
ghost use Rattle.pgs_match.specs.Learned.{is_short};

use crate::branches::head;
use crate::learned::is_short;
use crate::plan::read_var;
use crate::{Plan, Step};
use pgs_syntax::Expr;

// Whether each step goes from what the one before it binds, and the first from a variable.
fn is_path(var: u32, ways: &[Step]) -> bool
    ensures { result ≡ is_path var ways.now }
{
    match head(ways) {
        None => true,
        Some((step, rest)) => step.goes_from(var) && is_path(step.bound(), rest),
    }
}

/// The variable at the end of a way.
pub(crate) fn end_var(var: u32, ways: &[Step]) -> u32
    ensures { result ≡ end_var var ways.now }
{
    match head(ways) {
        None => var,
        Some((step, rest)) => end_var(step.bound(), rest),
    }
}

// Whether some step binds a variable.
fn is_bound_in(ways: &[Step], var: u32) -> bool
    ensures { result ≡ is_bound_in ways.now var }
{
    ways.iter().any(|step| step.bound() == var)
}

// Whether expressions take no variables but two.
fn take_two(exprs: &[Expr], var: u32, other: u32) -> bool
    ensures { result ≡ list_all (λ (expr : Expr). read_var expr == var || read_var expr == other) exprs.now }
{
    exprs.iter().all(|expr| {
        let taken = read_var(expr);
        taken == var || taken == other
    })
}

/// Whether a way leads from a variable, which it doesn't come to again, to one other, and expressions take none but these two.
fn leads_to_one(var: u32, ways: &[Step], exprs: &[Expr]) -> bool
    ensures { result ≡ leads_to_one var ways.now exprs.now }
{
    is_path(var, ways) && !is_bound_in(ways, var) && take_two(exprs, var, end_var(var, ways))
}

/// Whether the way of a plan is searched by nodes in order: it leads to one variable, and it isn't so short, with nothing off it, that a
/// search by routes goes over each element once anyway.
pub(crate) fn is_by_nodes(plan: &Plan, var: u32, exprs: &[Expr]) -> bool
    ensures { result ≡ (not (is_short plan.now.on && length plan.now.off == 0) && leads_to_one var plan.now.on exprs.now) }
{
    let on = plan.on.as_slice();
    let is_simple = is_short(on) && plan.off.as_slice().is_empty();
    !is_simple && leads_to_one(var, on, exprs)
}
