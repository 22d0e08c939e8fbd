//! Laws on what each violation in the list of a graph's violations says. The functions do nothing; their contracts are the
//! statements.

ghost use Rattle.std.specs.Prelude.{◌≡◌, ◌↔◌, ℕ, true, List, Contains};
ghost use Rattle.pgs_base.specs.declared.element.NodeId.{NodeId};
ghost use Rattle.pgs_base.specs.declared.element.EdgeId.{EdgeId};
ghost use Rattle.pgs_base.specs.declared.element.Elem.{Elem};
ghost use Rattle.pgs_base.specs.declared.part.Part.{Part};
ghost use Rattle.pgs_base.specs.Graph.{Graph, is_graph};
ghost use Rattle.pgs_syntax.specs.declared.resolved.Resolved.{Resolved};
ghost use Rattle.pgs_syntax.specs.Least.{IsLeast};
ghost use Rattle.pgs_violation.specs.declared.violation.Verdict.TheVariants.{Refused};
ghost use Rattle.pgs_violation.specs.declared.violation.Violation.{Violation};
ghost use Rattle.pgs_violation.specs.declared.violation.Violation.TheVariants.{UntypedNode, UntypedEdge, Mandatory, Singleton, Exclusive, CountOutside};
ghost use Rattle.pgs_violation.specs.Meaning.{IsUntypedNode, IsUntypedEdge, LacksValue, HasTwoLeast, SharesLeast, HasCountOutside};
ghost use Rattle.pgs_violation.specs.Standing.{violation_cmp};
ghost use Rattle.pgs_violation.specs.Violations.{violations, verdict};

/// A 25 stands for exactly the nodes that aren't typed, and a 26 for exactly the edges that aren't, where the guard is strict.
pub fn untyped_elements_are_listed()
    ensures nodes { (resolved : Resolved) (g : Graph) (node : NodeId) →
        Contains (violations resolved g) (UntypedNode node) ↔ IsUntypedNode resolved g node }
    ensures edges { (resolved : Resolved) (g : Graph) (edge : EdgeId) →
        Contains (violations resolved g) (UntypedEdge edge) ↔ IsUntypedEdge resolved g edge }
{}

/// A 27 stands for exactly the elements of a mandatory key's scope that have no key value.
pub fn missing_values_are_listed()
    ensures { (resolved : Resolved) (g : Graph) (number : ℕ) (elem : Elem) →
        Contains (violations resolved g) (Mandatory number elem) ↔ LacksValue resolved g number elem }
{}

/// A 28 stands for exactly the elements of a singleton key's scope that have several key values. It carries the two least:
/// the least, and the least of those after it.
pub fn two_least_values_are_listed()
    ensures { (resolved : Resolved) (g : Graph) (number : ℕ) (elem : Elem) (first second : List Part) →
        Contains (violations resolved g) (Singleton number elem first second) ↔ HasTwoLeast resolved g number elem first second }
{}

/// A 29 stands for exactly the elements of an exclusive key's scope that share a key value with a later element of the scope. It
/// carries the least such element, and the least tuple that the two share.
pub fn least_sharers_are_listed()
    ensures { (resolved : Resolved) (g : Graph) (number : ℕ) (first second : Elem) (tuple : List Part) → is_graph g ≡ true →
        Contains (violations resolved g) (Exclusive number first second tuple) ↔ SharesLeast resolved g number first second tuple }
{}

/// A 39 stands for exactly the elements of the scope of a key that counts that have fewer different key values than the first number,
/// or more than the second. It carries how many they have, and both numbers.
pub fn counts_outside_are_listed()
    ensures { (resolved : Resolved) (g : Graph) (number : ℕ) (elem : Elem) (count least most : ℕ) →
        Contains (violations resolved g) (CountOutside number elem count least most) ↔ HasCountOutside resolved g number elem count least most }
{}

/// The verdict on a graph names the least of its violations.
pub fn the_verdict_names_the_least_violation()
    ensures { (resolved : Resolved) (g : Graph) (violation : Violation) → is_graph g ≡ true →
        (verdict resolved g ≡ Refused violation) ↔ IsLeast violation_cmp (Contains (violations resolved g)) violation }
{}
