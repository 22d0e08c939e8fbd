//! The laws on schemas that ask no more, and on safe steps. The functions do nothing; their contracts are the statements.

ghost use Rattle.std.specs.Prelude.{◌≡◌, true, Bool};
ghost use Rattle.pgs_base.specs.Graph.{Graph, is_graph};
ghost use Rattle.pgs_syntax.specs.declared.resolved.Resolved.{Resolved};
ghost use Rattle.pgs_violation.specs.Violations.{conforms};
ghost use Rattle.pgs_schema_changes.specs.AsksNoMore.{AreTypesContained, AsksNoMore};
ghost use Rattle.pgs_schema_changes.specs.Safe.{is_safe};

/// A graph that conforms to a schema conforms to each schema that asks no more: whose types contain the former's, or that is loose, and
/// whose keys are keys of the former that ask no more, where the types that they name are declared alike.
pub fn what_asks_no_more_is_kept()
    ensures { (old new : Resolved) (g : Graph) → is_graph g ≡ true → AsksNoMore old new → conforms old g ≡ true → conforms new g ≡ true }
{}

/// After a safe step the new schema asks no more than the old one, and each graph that conforms to the old one conforms to it.
pub fn what_is_safe_keeps_graphs()
    ensures asks_no_more { (old new : Resolved) (contained : Bool) → is_safe old new contained ≡ true → (contained ≡ true → AreTypesContained old new) → AsksNoMore old new }
    ensures keeps_graphs { (old new : Resolved) (contained : Bool) → is_safe old new contained ≡ true → (contained ≡ true → AreTypesContained old new)
        → (g : Graph) → is_graph g ≡ true → conforms old g ≡ true → conforms new g ≡ true }
{}
