ghost use Rattle.std.specs.Prelude.{◌≡◌, ◌<◌, true, [], ◌∷◌, length, IfOk};
ghost use Rattle.pgs_syntax.specs.Valid.{is_edge_var, is_valid_pattern, is_valid_key};
ghost use Rattle.pgs_match.specs.Branches.{has_no_cycle};
ghost use Rattle.pgs_match.specs.Planned.{IsSplit, ArePlans, taken, pattern_of};

use crate::Plan;
use crate::copies::copy_key;
use crate::plan::plan_to;
use crate::trees::is_tree;
use pgs_base::{List, Memory};
use pgs_syntax::{Expr, Key, Pattern};
use std::alloc::Global;
use std::marker::Model;

/// One of the two patterns of a key.
#[derive(Clone, Copy, PartialEq, Eq)]
pub enum Side {
    Scope,
    Descriptor,
}

/// A valid key, for each variable of each of its patterns a plan of that pattern from the variable to x, and one of its descriptor from x
/// to what the expressions take. Contracts see the key.
pub struct PlannedKey {
    key: Key,
    scope: List<Plan>,
    descriptor: List<Plan>,
    values: Plan,
}

// Dropped by one function of this crate, so that those above need not prove anew how a planned key is taken apart.
impl Drop for PlannedKey {
    fn drop(self) {
        let PlannedKey {
            key: _,
            scope: _,
            descriptor: _,
            values: _,
        } = self;
    }
}

impl Model for PlannedKey {
    ghost use Rattle.pgs_syntax.specs.declared.key.Key.{Key};
    ghost use Rattle.pgs_match.specs.Planned.{IsPlanned};

    ghost Value = { Key };

    ghost view = { λ planned. planned.key };

    ghost invariant = { λ planned. IsPlanned planned.key planned.scope planned.descriptor planned.values };
}

/// Plans a valid key. The planned key keeps a copy of it.
pub fn plan_key(alloc: Global, key: &Key) -> Result<PlannedKey, Memory>
    requires { is_valid_key key.now ≡ true }
    ensures { IfOk result (λ planned. planned ≡ key.now) }
{
    let scope = plan_pattern(alloc, &key.scope)?;
    let descriptor = plan_pattern(alloc, &key.descriptor)?;
    let values = plan_to(alloc, &key.descriptor, 0, key.exprs.as_slice())?;
    let key = copy_key(alloc, key)?;
    Ok(PlannedKey {
        key,
        scope,
        descriptor,
        values,
    })
}

// A plan from each variable of a pattern to x.
fn plan_pattern(alloc: Global, pattern: &Pattern) -> Result<List<Plan>, Memory>
    requires { is_valid_pattern pattern.now ≡ true }
    ensures { IfOk result (ArePlans pattern.now) }
{
    let to_x = [Expr::Element(0)];
    let mut plans = Vec::with_capacity(alloc, pattern.edge_vars.len())?;
    for var in 0..pattern.edge_vars.len() {
        let plan = plan_to(alloc, pattern, var as u32, &to_x)?;
        plans.push(plan)?;
    }
    Ok(List::from_vec(plans))
}

// The plan from a variable.
fn plan_at<'a>(plans: &'a [Plan], pattern: &Pattern, var: u32) -> &'a Plan
    requires plans { ArePlans pattern.now plans.now }
    requires in_range { var < length pattern.now.edge_vars }
    ensures { IsSplit (0 ∷ []) pattern.now var result.now }
{
    &plans[var as usize]
}

impl PlannedKey {
    /// The key.
    pub fn key(&self) -> &Key
        ensures { result.now ≡ self.now }
    {
        &self.key
    }

    /// A pattern of the key, which is valid.
    pub fn pattern(&self, side: Side) -> &Pattern
        ensures pattern { result.now ≡ pattern_of side self.now }
        ensures valid { is_valid_key self.now ≡ true }
    {
        match side {
            Side::Scope => &self.key.scope,
            Side::Descriptor => &self.key.descriptor,
        }
    }

    /// Whether x is an edge.
    pub(crate) fn is_of_edges(&self) -> bool
        ensures { result ≡ is_edge_var self.now.scope.edge_vars 0 }
    {
        match self.key.scope.edge_vars.at(0) {
            Some(is_edge) => *is_edge,
            None => false,
        }
    }

    /// The plan of a pattern from a variable to x.
    pub(crate) fn plan(&self, side: Side, var: u32) -> &Plan
        requires { var < length (pattern_of side self.now).edge_vars }
        ensures { IsSplit (0 ∷ []) (pattern_of side self.now) var result.now }
    {
        match side {
            Side::Scope => plan_at(self.scope.as_slice(), &self.key.scope, var),
            Side::Descriptor => plan_at(self.descriptor.as_slice(), &self.key.descriptor, var),
        }
    }

    /// Whether the variables of a pattern hang on one another as a tree, by its plan from x: so they do where it has no cycle.
    pub fn is_tree(&self, side: Side) -> bool
        ensures { has_no_cycle (pattern_of side self.now) ≡ true → result ≡ true }
    {
        let atoms = self.pattern(side).atoms.as_slice();
        is_tree(atoms, self.plan(side, 0).steps.as_slice())
    }

    /// The plan of the descriptor from x to what the expressions take.
    pub(crate) fn values(&self) -> &Plan
        ensures { IsSplit (taken self.now) self.now.descriptor 0 result.now }
    {
        &self.values
    }
}
