//! Laws on what types see. The functions do nothing; their contracts are the statements.

ghost use Rattle.std.specs.Prelude.{◌≡◌, ℕ, true};
ghost use Rattle.pgs_base.specs.declared.row.NodeRow.{NodeRow};
ghost use Rattle.pgs_syntax.specs.declared.resolved.Resolved.{Resolved};
ghost use Rattle.pgs_syntax.specs.Fitting.{fits_node, fits_edge};
ghost use Rattle.pgs_syntax.specs.Join.{PairTriple};
ghost use Rattle.pgs_syntax.specs.Typed.{is_typed_node, is_typed_triple};
ghost use Rattle.pgs_conform.specs.Kinds.{looks_same, triple_looks_same};

/// Pairs that look the same fit the same node types, and triples that do, pair by pair, the same edge types. So one is typed exactly
/// where the other is.
pub fn types_see_no_values()
    ensures nodes { (resolved : Resolved) (p q : NodeRow) → looks_same p q ≡ true → (number : ℕ) →
        fits_node resolved number p ≡ fits_node resolved number q }
    ensures edges { (resolved : Resolved) (t u : PairTriple) → triple_looks_same t u ≡ true → (number : ℕ) →
        fits_edge resolved number t ≡ fits_edge resolved number u }
    ensures typed_nodes { (resolved : Resolved) (p q : NodeRow) → looks_same p q ≡ true →
        is_typed_node resolved p ≡ is_typed_node resolved q }
    ensures typed_edges { (resolved : Resolved) (t u : PairTriple) → triple_looks_same t u ≡ true →
        is_typed_triple resolved t ≡ is_typed_triple resolved u }
{}
