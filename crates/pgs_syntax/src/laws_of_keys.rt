//! Laws on the scope of a key and on key values. The functions do nothing; their contracts are the statements.

ghost use Rattle.std.specs.Prelude.{◌≡◌, ◌↔◌, true, List, Some, Contains};
ghost use Rattle.pgs_base.specs.declared.element.Elem.{Elem};
ghost use Rattle.pgs_base.specs.declared.part.Part.{Part};
ghost use Rattle.pgs_base.specs.Graph.{Graph, is_graph};
ghost use Rattle.pgs_base.specs.Order.{ascends, elem_cmp, tuple_cmp};
ghost use Rattle.pgs_syntax.specs.declared.key.Key.{Key};
ghost use Rattle.pgs_syntax.specs.declared.resolved.Resolved.{Resolved};
ghost use Rattle.pgs_syntax.specs.KeyValues.{starts_at, scope_of, tuple_of, key_values};
ghost use Rattle.pgs_syntax.specs.Matches.{is_match};

/// The scope of a key ascends strictly, and so do the key values of an element: each stands once, in order.
pub fn scopes_and_key_values_ascend()
    ensures scope { (resolved : Resolved) (g : Graph) (key : Key) → is_graph g ≡ true →
        ascends elem_cmp (scope_of resolved g key) ≡ true }
    ensures values { (resolved : Resolved) (g : Graph) (key : Key) (elem : Elem) →
        ascends tuple_cmp (key_values resolved g key elem) ≡ true }
{}

/// The scope of a key lists exactly the elements that some match of its scope pattern gives to variable 0. The key values of an
/// element are exactly the tuples that the expressions give under a match of the descriptor that gives it to variable 0.
pub fn scopes_and_key_values_list_what_matches_give()
    ensures scope { (resolved : Resolved) (g : Graph) (key : Key) (elem : Elem) →
        Contains (scope_of resolved g key) elem
        ↔ ((elems : List Elem) × (is_match resolved g key.scope elems ≡ true) × (starts_at elem elems ≡ true)) }
    ensures values { (resolved : Resolved) (g : Graph) (key : Key) (elem : Elem) (tuple : List Part) →
        Contains (key_values resolved g key elem) tuple
        ↔ ((elems : List Elem) × (is_match resolved g key.descriptor elems ≡ true) × (starts_at elem elems ≡ true)
        × (tuple_of g key.exprs elems ≡ Some tuple)) }
{}
