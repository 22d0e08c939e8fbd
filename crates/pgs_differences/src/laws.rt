//! What differences and nearest types are. The functions do nothing; their contracts are the statements.

ghost use Rattle.std.specs.Prelude.{◌≡◌, ◌≤◌, ◌⊎◌, List as Items, ◌∷◌, true, false, length, Contains};
ghost use Rattle.pgs_base.specs.declared.row.NodeRow.{NodeRow};
ghost use Rattle.pgs_syntax.specs.Join.{is_empty};
ghost use Rattle.pgs_conform.specs.declared.shape.Shape.{Shape};
ghost use Rattle.pgs_conform.specs.Shapes.{in_shape};
ghost use Rattle.pgs_differences.specs.declared.difference.Difference.{Difference as ADifference};
ghost use Rattle.pgs_differences.specs.declared.near_type.NearType.{NearType as ANearType};
ghost use Rattle.pgs_differences.specs.Differences.{IsDifference, differences};
ghost use Rattle.pgs_differences.specs.Nearest.{goes_before, nearest_shape, is_eligible, nearest};

/// A pair and a shape have no difference exactly where the pair is in the shape.
pub fn none_where_it_fits()
    ensures { (shape : Shape) (p : NodeRow) → is_empty (differences shape p) ≡ in_shape shape p }
{}

/// What is told are the differences, and each of them.
pub fn each_difference_is_told()
    ensures told { (shape : Shape) (p : NodeRow) (one : ADifference) → Contains (differences shape p) one → IsDifference shape p one }
    ensures every { (shape : Shape) (p : NodeRow) (one : ADifference) → IsDifference shape p one → Contains (differences shape p) one }
{}

/// The one of a type's shapes that counts is one of them, and none of the others goes before it.
pub fn nearest_shape_is_least()
    ensures among { (nears : Items ANearType) (least : ANearType) → Contains (nearest_shape nears) least → Contains nears least }
    ensures least { (nears : Items ANearType) (least near : ANearType) → Contains (nearest_shape nears) least → Contains nears near →
        Contains (nearest_shape nears) near ⊎ (goes_before near least ≡ false) }
{}

/// At most three types are told, and one where there is a candidate. They are candidates that are eligible, and no eligible one that isn't told goes before one that is.
pub fn none_untold_goes_before()
    ensures few { (nears : Items ANearType) → length (nearest nears) ≤ 3 }
    ensures some { (near : ANearType) (nears : Items ANearType) → is_empty (nearest (near ∷ nears)) ≡ false }
    ensures told { (nears : Items ANearType) (told : ANearType) → Contains (nearest nears) told →
        Contains nears told × (is_eligible nears told ≡ true) }
    ensures before { (nears : Items ANearType) (told near : ANearType) → Contains (nearest nears) told → Contains nears near →
        is_eligible nears near ≡ true → Contains (nearest nears) near ⊎ (goes_before near told ≡ false) }
{}
