//! Laws that show that the definitions mean what they should. The functions do nothing; their contracts are the statements.

ghost use Rattle.std.specs.Prelude.{◌≡◌, ◌↔◌, ◌≤◌, true, [], Some, Ok, slice_get};
ghost use Rattle.pgs_base.specs.declared.limits.Limits.{Limits};
ghost use Rattle.pgs_base.specs.Graph.{Graph, element_count, is_graph};
ghost use Rattle.pgs_base.specs.Order.{ascends};
ghost use Rattle.pgs_syntax.specs.declared.resolved.Resolved.{Resolved};
ghost use Rattle.pgs_violation.specs.declared.violation.Violation.{Violation};
ghost use Rattle.pgs_violation.specs.declared.violation.Verdict.TheVariants.{Conforms, Refused};
ghost use Rattle.pgs_violation.specs.Standing.{violation_cmp};
ghost use Rattle.pgs_violation.specs.Staging.{staged};
ghost use Rattle.pgs_violation.specs.Violations.{violations, conforms, verdict};

/// The verdict is the first member of the list of violations, and `Conforms` exactly where the list is empty.
pub fn verdict_is_the_first_violation()
    ensures refused { (resolved : Resolved) (g : Graph) (violation : Violation) →
        (verdict resolved g ≡ Refused violation) ↔ (slice_get (violations resolved g) 0 ≡ Some violation) }
    ensures conforming { (resolved : Resolved) (g : Graph) → (verdict resolved g ≡ Conforms) ↔ (violations resolved g ≡ []) }
    ensures conforms { (resolved : Resolved) (g : Graph) → (conforms resolved g ≡ true) ↔ (violations resolved g ≡ []) }
{}

/// The violations of a graph ascend strictly, in the order of violations.
pub fn violations_go_in_order()
    ensures { (resolved : Resolved) (g : Graph) → is_graph g ≡ true → ascends violation_cmp (violations resolved g) ≡ true }
{}

/// No operations leave a graph as it is, where it is within the limit on elements.
pub fn no_operations_change_nothing()
    ensures { (limits : Limits) (g : Graph) → element_count g ≤ limits.elements → staged limits g (record { ops = [] }) ≡ Ok g }
{}
