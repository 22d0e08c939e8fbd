//! Laws on joins of several parts, of pairs and of triples. The functions do nothing; their contracts are the statements.

ghost use Rattle.std.specs.Prelude.{◌≡◌, ◌↔◌, ℕ, Bool, true, List, Some, map, IsPermutation};
ghost use Rattle.pgs_base.specs.declared.element.EdgeId.{EdgeId};
ghost use Rattle.pgs_base.specs.declared.element.Elem.{Elem};
ghost use Rattle.pgs_base.specs.declared.row.EdgeRow.{EdgeRow};
ghost use Rattle.pgs_base.specs.declared.row.NodeRow.{NodeRow};
ghost use Rattle.pgs_base.specs.Graph.{Graph, edge_at, is_graph};
ghost use Rattle.pgs_base.specs.Pair.{is_pair};
ghost use Rattle.pgs_syntax.specs.declared.resolved.Resolved.{Resolved};
ghost use Rattle.pgs_syntax.specs.declared.specification.Leaf.{Leaf};
ghost use Rattle.pgs_syntax.specs.declared.specification.Spec.{Spec, And};
ghost use Rattle.pgs_syntax.specs.Fitting.{suits, fits};
ghost use Rattle.pgs_syntax.specs.Join.{PairTriple, of_triples, joined};
ghost use Rattle.pgs_syntax.specs.Matches.{carried};
ghost use Rattle.pgs_syntax.specs.Triples.{is_triple, IsTripleJoinOf, IsTripleJoinOfAll};
ghost use Rattle.pgs_syntax.specs.Typed.{triple_at};

/// Whether a pair or a triple fits `A & B & ..` doesn't depend on the order of the parts, however many there are.
pub fn parts_in_any_order()
    ensures pairs { (resolved : Resolved) (parts others : List (Spec Leaf)) → IsPermutation parts others → (p : NodeRow) →
        fits resolved (And parts) p ≡ fits resolved (And others) p }
    ensures triples { (named : ℕ → PairTriple → Bool) (parts others : List (Spec Leaf)) → IsPermutation parts others → (t : PairTriple) →
        suits of_triples named (And parts) t ≡ suits of_triples named (And others) t }
{}

/// The test of joins of triples in other words: there are two triples, one of which passes the one test and the other the
/// other, so that each pair of the triple is the join of theirs.
pub fn a_join_is_of_two_triples()
    ensures { (first second : PairTriple → Bool) (t : PairTriple) → is_triple t ≡ true →
        (joined of_triples first second t ≡ true) ↔ IsTripleJoinOf first second t }
{}

/// A triple fits `A & B & ..` exactly where there are triples, one for each part and fitting it, whose join it is.
pub fn edge_parts_are_joined()
    ensures { (named : ℕ → PairTriple → Bool) (parts : List (Spec Leaf)) (t : PairTriple) → is_triple t ≡ true →
        (suits of_triples named (And parts) t ≡ true) ↔ IsTripleJoinOfAll (map (suits of_triples named) parts) t }
{}

/// What the elements of a graph carry are pairs, and the triples of its edges are of pairs: so the laws on joins hold of them.
pub fn elements_carry_pairs()
    ensures pairs { (g : Graph) (elem : Elem) (p : NodeRow) → is_graph g ≡ true → carried g elem ≡ Some p → is_pair p ≡ true }
    ensures triples { (g : Graph) (edge : EdgeId) (row : EdgeRow) (t : PairTriple) → is_graph g ≡ true → edge_at g edge ≡ Some row →
        triple_at g row ≡ Some t → is_triple t ≡ true }
{}
