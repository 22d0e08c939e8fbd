//! Laws that show that the definitions mean what they should. The functions do nothing; their contracts are the statements.

ghost use Rattle.std.specs.Prelude.{◌≡◌, ◌↔◌, ℕ, ◌<◌, ◌||◌, Bool, true, false, List, Some, None, length, map, slice_get};
ghost use Rattle.std.specs.List.{list_any, list_all};
ghost use Rattle.std.specs.BTreeMap.{is_at};
ghost use Rattle.pgs_base.specs.declared.element.Elem.{Elem};
ghost use Rattle.pgs_base.specs.declared.part.Part.{Part};
ghost use Rattle.pgs_base.specs.declared.row.NodeRow.{NodeRow};
ghost use Rattle.pgs_base.specs.Graph.{Graph};
ghost use Rattle.pgs_base.specs.Order.{tuple_cmp};
ghost use Rattle.pgs_base.specs.Pair.{value_at, is_pair};
ghost use Rattle.pgs_syntax.specs.declared.element_type.EdgeType.{EdgeType};
ghost use Rattle.pgs_syntax.specs.declared.element_type.NodeType.{NodeType};
ghost use Rattle.pgs_syntax.specs.declared.key.Key.{Key};
ghost use Rattle.pgs_syntax.specs.declared.pattern.Pattern.{Pattern};
ghost use Rattle.pgs_syntax.specs.declared.resolved.Resolved.{Resolved};
ghost use Rattle.pgs_syntax.specs.declared.specification.Leaf.{Leaf};
ghost use Rattle.pgs_syntax.specs.declared.specification.Leaf.TheVariants.{Named};
ghost use Rattle.pgs_syntax.specs.declared.specification.Spec.{Spec, Word, And, Or, Opt};
ghost use Rattle.pgs_syntax.specs.Closed.{is_closed, names_key, is_closed_middle, middle_names_key};
ghost use Rattle.pgs_syntax.specs.Join.{PairTriple, is_empty_pair, of_pairs, of_triples, joined};
ghost use Rattle.pgs_syntax.specs.KeyValues.{starts_at, is_in_scope, tuple_of, key_values};
ghost use Rattle.pgs_syntax.specs.Linked.{IsLinked};
ghost use Rattle.pgs_syntax.specs.Matches.{is_match, matches};
ghost use Rattle.pgs_syntax.specs.Meaning.{IsJoinOf, IsJoinOfAll, IsEdgeOf};
ghost use Rattle.pgs_syntax.specs.Valid.{speaks_of, is_connected, is_valid_pattern, is_valid};
ghost use Rattle.pgs_syntax.specs.Fitting.{suits, fits, fits_node, fits_edge, fits_edge_type};

/// A specification without OPEN in braces admits no key that it doesn't name, also through `&`, `|`, `?` and the types that it
/// names. Nor does a node type or an edge type of such a specification.
pub fn closed_types_admit_no_further_key()
    ensures nodes { (resolved : Resolved) (spec : Spec Leaf) (p : NodeRow) (key : List ℕ) →
        is_closed resolved spec ≡ true → fits resolved spec p ≡ true → names_key resolved spec key ≡ false →
        value_at key p.props ≡ None }
    ensures node_types { (resolved : Resolved) (number : ℕ) (p : NodeRow) (key : List ℕ) →
        is_closed resolved (Word (Named number)) ≡ true → fits_node resolved number p ≡ true →
        names_key resolved (Word (Named number)) key ≡ false → value_at key p.props ≡ None }
    ensures edge_types { (resolved : Resolved) (number : ℕ) (t : PairTriple) (key : List ℕ) →
        is_closed_middle resolved (Word (Named number)) ≡ true → fits_edge resolved number t ≡ true →
        middle_names_key resolved (Word (Named number)) key ≡ false → value_at key t.own.props ≡ None }
{}

/// The test of joins in other words: there are two pairs, one of which passes the one test and the other the other, so
/// that the pair has the labels of both, their properties agree on shared keys, and it has the properties of both.
pub fn a_join_is_of_two_pairs()
    ensures { (first second : NodeRow → Bool) (p : NodeRow) → is_pair p ≡ true →
        (joined of_pairs first second p ≡ true) ↔ IsJoinOf first second p }
{}

/// A pair fits `A & B & ..` exactly where there are pairs, one for each part and fitting it, whose join it is.
pub fn parts_are_joined()
    ensures { (resolved : Resolved) (parts : List (Spec Leaf)) (p : NodeRow) → is_pair p ≡ true →
        (fits resolved (And parts) p ≡ true) ↔ IsJoinOfAll (map (fits resolved) parts) p }
{}

/// A pair fits `A | B | ..` exactly where it fits some part, and `A?` exactly where it is empty or fits the part. So it is with
/// triples.
pub fn parts_are_alternatives()
    ensures unions { (resolved : Resolved) (parts : List (Spec Leaf)) (p : NodeRow) →
        fits resolved (Or parts) p ≡ list_any (λ part. fits resolved part p) parts }
    ensures options { (resolved : Resolved) (part : Spec Leaf) (p : NodeRow) →
        fits resolved (Opt part) p ≡ (is_empty_pair p || fits resolved part p) }
    ensures edge_unions { (named : ℕ → PairTriple → Bool) (parts : List (Spec Leaf)) (t : PairTriple) →
        suits of_triples named (Or parts) t ≡ list_any (λ part. suits of_triples named part t) parts }
    ensures edge_options { (named : ℕ → PairTriple → Bool) (part : Spec Leaf) (t : PairTriple) →
        suits of_triples named (Opt part) t ≡ (of_triples.asks is_empty_pair t || suits of_triples named part t) }
{}

/// The variables of a pattern are in one group exactly where each is linked with variable 0: steps lead from the one to the
/// other, each from an edge to an end of it or back. In a valid pattern any two variables are linked.
pub fn connected_patterns_are_linked()
    ensures groups { (pattern : Pattern) → list_all (speaks_of pattern.edge_vars) pattern.atoms ≡ true →
        (is_connected pattern ≡ true) ↔ ((var : ℕ) → var < length pattern.edge_vars → IsLinked pattern.atoms 0 var) }
    ensures valid { (pattern : Pattern) → is_valid_pattern pattern ≡ true → (first second : ℕ) →
        first < length pattern.edge_vars → second < length pattern.edge_vars → IsLinked pattern.atoms first second }
{}

/// The list of a pattern's matches has exactly the assignments that are a match: one of the list passes a test exactly
/// where some match passes it.
pub fn every_match_is_listed()
    ensures { (resolved : Resolved) (g : Graph) (pattern : Pattern) (test : List Elem → Bool) →
        (list_any test (matches resolved g pattern) ≡ true)
        ↔ ((elems : List Elem) × (is_match resolved g pattern elems ≡ true) × (test elems ≡ true)) }
{}

/// An element is in the scope of a key exactly where some match of the scope gives it to variable 0.
pub fn scope_is_by_matches()
    ensures { (resolved : Resolved) (g : Graph) (key : Key) (elem : Elem) →
        (is_in_scope resolved g key elem ≡ true)
        ↔ ((elems : List Elem) × (is_match resolved g key.scope elems ≡ true) × (starts_at elem elems ≡ true)) }
{}

/// A tuple is a key value of an element exactly where some match of the descriptor gives the element to variable 0 and
/// the expressions give the tuple under it.
pub fn key_values_are_by_matches()
    ensures { (resolved : Resolved) (g : Graph) (key : Key) (elem : Elem) (tuple : List Part) →
        (list_any (is_at (tuple_cmp tuple)) (key_values resolved g key elem) ≡ true)
        ↔ ((elems : List Elem) × (is_match resolved g key.descriptor elems ≡ true) × (starts_at elem elems ≡ true)
        × (tuple_of g key.exprs elems ≡ Some tuple)) }
{}

/// A triple fits an edge type exactly where some triple with its own pair fits the middle, some pairs fit the source and
/// the target, and the pair at each end is the join of these two.
pub fn edges_fit_by_their_ends()
    ensures { (resolved : Resolved) (named : ℕ → PairTriple → Bool) (type : EdgeType Leaf) (t : PairTriple) →
        is_pair t.source ≡ true → is_pair t.target ≡ true →
        (fits_edge_type resolved named type t ≡ true)
        ↔ IsEdgeOf (fits resolved type.source) (fits resolved type.target) (suits of_triples named type.middle) t }
{}

/// In a valid schema the number of a type asks what the type asks: the recursion over lesser numbers loses nothing.
pub fn numbers_mean_their_types()
    ensures nodes { (resolved : Resolved) → is_valid resolved ≡ true → (number : ℕ) (type : NodeType Leaf) →
        slice_get resolved.nodes number ≡ Some type → (p : NodeRow) → fits_node resolved number p ≡ fits resolved type.spec p }
    ensures edges { (resolved : Resolved) → is_valid resolved ≡ true → (number : ℕ) (type : EdgeType Leaf) →
        slice_get resolved.edges number ≡ Some type → (t : PairTriple) →
        fits_edge resolved number t ≡ fits_edge_type resolved (fits_edge resolved) type t }
{}
