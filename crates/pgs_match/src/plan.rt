//! Plans with the steps on the way to some variables, and the others.

ghost use Rattle.std.specs.Prelude.{◌≡◌, ◌<◌, ◌==◌, true, map, length, IfOk};
ghost use Rattle.std.specs.List.{list_any};
ghost use Rattle.pgs_syntax.specs.Valid.{read_var, is_valid_pattern};
ghost use Rattle.pgs_match.specs.Branches.{goes_from};
ghost use Rattle.pgs_match.specs.Planned.{IsSplit};
ghost use Rattle.pgs_match.specs.Routes.{is_on_way, on_way, off_way};

use crate::{Step, plan_from};
use pgs_base::{List, Memory};
use pgs_syntax::{Expr, Pattern};
use std::alloc::Global;

/// The steps of a plan, and apart from one another those on the way to some variables and the others.
pub(crate) struct Plan {
    pub(crate) steps: List<Step>,
    pub(crate) on: List<Step>,
    pub(crate) off: List<Step>,
}

impl Drop for Plan {
    fn drop(self) {
        let Plan {
            steps: _,
            on: _,
            off: _,
        } = self;
    }
}

/// A copy of a plan.
pub(crate) fn copy_plan(alloc: Global, plan: &Plan) -> Result<Plan, Memory>
    ensures { IfOk result (λ copy. copy ≡ plan.now) }
{
    Ok(Plan {
        steps: List::from_slice(alloc, plan.steps.as_slice())?,
        on: List::from_slice(alloc, plan.on.as_slice())?,
        off: List::from_slice(alloc, plan.off.as_slice())?,
    })
}

/// The variable that an expression takes.
pub(crate) fn read_var(expr: &Expr) -> u32
    ensures { result ≡ read_var expr.now }
{
    match expr {
        Expr::Element(var) => *var,
        Expr::Property { var, .. } => *var,
    }
}

// Whether some expression takes a variable.
fn is_taken(exprs: &[Expr], var: u32) -> bool
    ensures { result ≡ list_any (λ (expr : Expr). read_var expr == var) exprs.now }
{
    exprs.iter().any(|expr| read_var(expr) == var)
}

// Whether some step goes from a variable.
pub(crate) fn is_left(ways: &[Step], var: u32) -> bool
    ensures { result ≡ list_any (goes_from var) ways.now }
{
    ways.iter().any(|step| step.goes_from(var))
}

// Whether a step is on the way to what expressions take, where these steps after it are.
fn is_on_way(exprs: &[Expr], ways: &[Step], step: Step) -> bool
    ensures { result ≡ is_on_way (map read_var exprs.now) ways.now step }
{
    let var = step.bound();
    is_taken(exprs, var) || is_left(ways, var)
}

// The steps on the way to what expressions take, and the others.
fn split(alloc: Global, steps: &[Step], exprs: &[Expr]) -> Result<(Vec<Step>, Vec<Step>), Memory>
    ensures { IfOk result (λ parts. (parts.0.items ≡ on_way (map read_var exprs.now) steps.now) × (parts.1.items ≡ off_way (map read_var exprs.now) steps.now)) }
{
    let mut on = Vec::with_capacity(alloc, steps.len())?;
    let mut off = Vec::with_capacity(alloc, steps.len())?;
    for place in (0..steps.len()).rev() {
        let step = steps[place];
        if is_on_way(exprs, on.as_slice(), step) {
            on.insert(0, step)?;
        } else {
            off.insert(0, step)?;
        }
    }
    Ok((on, off))
}

/// A plan of a pattern from a variable, with the steps on the way to what expressions take.
pub(crate) fn plan_to(
    alloc: Global,
    pattern: &Pattern,
    var: u32,
    exprs: &[Expr],
) -> Result<Plan, Memory>
    requires valid { is_valid_pattern pattern.now ≡ true }
    requires in_range { var < length pattern.now.edge_vars }
    ensures { IfOk result (IsSplit (map read_var exprs.now) pattern.now var) }
{
    let steps = plan_from(alloc, pattern, var)?;
    let (on, off) = split(alloc, steps.as_slice(), exprs)?;
    Ok(Plan {
        steps,
        on: List::from_vec(on),
        off: List::from_vec(off),
    })
}
