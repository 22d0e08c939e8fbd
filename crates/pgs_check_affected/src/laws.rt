//! Laws on matches in two graphs that agree but for some elements. The functions do nothing; their contracts are the statements.

ghost use Rattle.std.specs.Prelude.{◌≡◌, ◌||◌, true, false, Bool, List};
ghost use Rattle.std.specs.List.{list_any};
ghost use Rattle.pgs_base.specs.declared.element.Elem.{Elem};
ghost use Rattle.pgs_base.specs.Graph.{Graph, is_graph};
ghost use Rattle.pgs_graph.specs.declared.delta.Delta.{Delta};
ghost use Rattle.pgs_graph.specs.Changed.{changed, is_sound};
ghost use Rattle.pgs_syntax.specs.declared.key.Key.{Key};
ghost use Rattle.pgs_syntax.specs.declared.pattern.Expr.{Expr};
ghost use Rattle.pgs_syntax.specs.declared.pattern.Pattern.{Pattern};
ghost use Rattle.pgs_syntax.specs.declared.resolved.Resolved.{Resolved};
ghost use Rattle.pgs_syntax.specs.KeyValues.{is_in_scope, key_values, tuple_of};
ghost use Rattle.pgs_syntax.specs.Matches.{is_match};
ghost use Rattle.pgs_syntax.specs.Valid.{is_valid_pattern, is_valid_key};
ghost use Rattle.pgs_match.specs.declared.planned.Side.{Side};
ghost use Rattle.pgs_match.specs.Planned.{pattern_of};
ghost use Rattle.pgs_check_affected.specs.Changes.{elems_of};
ghost use Rattle.pgs_check_affected.specs.Local.{is_one_of, AgreeBut, has_touched_end, may_differ, binds_touched};
ghost use Rattle.pgs_check_affected.specs.Touched.{touched};
ghost use Rattle.pgs_check_affected.specs.Unseen.{AgreeForKey, IsUnseen, seen_elems};

/// Locality. Let two graphs agree but for touched elements. An assignment that binds none of them, and, in a pattern that is one edge
/// alone, no edge with a touched end, is a match of a valid pattern in both or in neither, and expressions give one tuple under it.
pub fn untouched_assignments_match_alike()
    ensures matches { (resolved : Resolved) (touched : Elem → Bool) (g h : Graph) → AgreeBut touched g h → (pattern : Pattern) →
        is_valid_pattern pattern ≡ true → (elems : List Elem) → list_any (may_differ touched g pattern) elems ≡ false →
        is_match resolved g pattern elems ≡ is_match resolved h pattern elems }
    ensures tuples { (touched : Elem → Bool) (g h : Graph) → AgreeBut touched g h → (exprs : List Expr) (elems : List Elem) →
        list_any touched elems ≡ false → tuple_of g exprs elems ≡ tuple_of h exprs elems }
{}

/// So the place of an element in the scope of a valid key differs only where a match of the scope, in one of the graphs, starts at it
/// and binds a touched element; and its key values only where a match of the descriptor does.
pub fn what_differs_binds_a_touched_element()
    ensures place { (resolved : Resolved) (touched : Elem → Bool) (g h : Graph) → AgreeBut touched g h → (key : Key) →
        is_valid_key key ≡ true → (elem : Elem) →
        (binds_touched resolved touched g key.scope elem || binds_touched resolved touched h key.scope elem) ≡ false →
        is_in_scope resolved g key elem ≡ is_in_scope resolved h key elem }
    ensures values { (resolved : Resolved) (touched : Elem → Bool) (g h : Graph) → AgreeBut touched g h → (key : Key) →
        is_valid_key key ≡ true → (elem : Elem) →
        (binds_touched resolved touched g key.descriptor elem || binds_touched resolved touched h key.descriptor elem) ≡ false →
        key_values resolved g key elem ≡ key_values resolved h key elem }
{}

/// What no key sees. Let two graphs agree for a key but for seen elements. An assignment that binds none of them, and, in a pattern that
/// is one edge alone, no edge with a seen end, is a match of a pattern of a valid key in both or in neither, and its expressions give one
/// tuple under it.
pub fn unseen_assignments_match_alike()
    ensures matches { (resolved : Resolved) (seen : Elem → Bool) (g h : Graph) (key : Key) → is_valid_key key ≡ true →
        AgreeForKey resolved g h seen key → (side : Side) (elems : List Elem) → list_any (may_differ seen g (pattern_of side key)) elems ≡ false →
        is_match resolved g (pattern_of side key) elems ≡ is_match resolved h (pattern_of side key) elems }
    ensures tuples { (resolved : Resolved) (seen : Elem → Bool) (g h : Graph) (key : Key) → is_valid_key key ≡ true →
        AgreeForKey resolved g h seen key → (elems : List Elem) → list_any (may_differ seen g key.descriptor) elems ≡ false →
        is_match resolved g key.descriptor elems ≡ true → tuple_of g key.exprs elems ≡ tuple_of h key.exprs elems }
{}

/// So the place of an element in the scope of such a key differs only where a match of the scope, in one of the graphs, starts at it and
/// binds a seen element; and its key values only where a match of the descriptor does.
pub fn what_differs_binds_a_seen_element()
    ensures place { (resolved : Resolved) (seen : Elem → Bool) (g h : Graph) (key : Key) → AgreeForKey resolved g h seen key →
        is_valid_key key ≡ true → (elem : Elem) →
        (binds_touched resolved seen g key.scope elem || binds_touched resolved seen h key.scope elem) ≡ false →
        is_in_scope resolved g key elem ≡ is_in_scope resolved h key elem }
    ensures values { (resolved : Resolved) (seen : Elem → Bool) (g h : Graph) (key : Key) → AgreeForKey resolved g h seen key →
        is_valid_key key ≡ true → (elem : Elem) →
        (binds_touched resolved seen g key.descriptor elem || binds_touched resolved seen h key.descriptor elem) ≡ false →
        key_values resolved g key elem ≡ key_values resolved h key elem }
{}

/// Where two graphs agree but for touched elements, and each of these that isn't seen is unseen by a key, they agree for the key but for
/// the seen ones. So do those of a change, where the seen ones are those whose own rows don't tell that the key can't see them change.
pub fn graphs_agree_for_a_key_but_for_seen_elements()
    ensures unseen { (resolved : Resolved) (touched seen : Elem → Bool) (g h : Graph) → AgreeBut touched g h → (key : Key) →
        ((elem : Elem) → touched elem ≡ true → seen elem ≡ false → IsUnseen resolved g h key elem) → AgreeForKey resolved g h seen key }
    ensures rows { (resolved : Resolved) (g h : Graph) (elems : List Elem) → AgreeBut (is_one_of elems) g h → (key : Key) →
        AgreeForKey resolved g h (is_one_of (seen_elems resolved g h key elems)) key }
{}

/// The graph that a sound delta makes of another agrees with it but for the delta's elements; and what a change touches are these
/// elements and the edges of either graph at the delta's nodes.
pub fn deltas_touch_their_elements_and_the_edges_at_their_nodes()
    ensures agree { (g : Graph) (delta : Delta) → is_graph g ≡ true → is_sound g delta ≡ true →
        AgreeBut (is_one_of (elems_of delta)) g (changed g delta) }
    ensures touched { (g h : Graph) (elems : List Elem) → AgreeBut (is_one_of elems) g h → (elem : Elem) →
        is_one_of (touched g elems) elem
        ≡ (is_one_of elems elem || (has_touched_end (is_one_of elems) g elem || has_touched_end (is_one_of elems) h elem)) }
{}
