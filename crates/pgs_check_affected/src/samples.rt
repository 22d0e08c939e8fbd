//! Samples of the definitions. The functions do nothing; their contracts are the statements.

ghost use Rattle.std.specs.Prelude.{◌≡◌, true, false, [], ◌∷◌, map, length};
ghost use Rattle.pgs_check_affected.specs.Local.{is_edge_alone, may_differ, is_one_of};
ghost use Rattle.pgs_check_affected.specs.Touched.{touched, is_near};
ghost use Rattle.pgs_check_affected.specs.Samples.{before, after, moved, node, edge, alone, ended};

/// A path of three nodes by edges 1 and 2, of which edge 2 is moved so that it leads from the second to the fourth: the change of edge 2
/// and node 1 touches these and edge 1, which stands at node 1.
pub fn what_a_move_touches()
    ensures { touched before moved ≡ node 1 ∷ edge 2 ∷ edge 1 ∷ [] }
{}

/// Within one edge of node 1 is node 2; within two are node 3, over the old place of edge 2, and node 4, over its new place. The ends of
/// edge 2 are the old and the new ones.
pub fn what_is_near_over_both_graphs()
    ensures within_one { map (is_near before after 1 (node 1)) (map (λ n. record { 0 = n }) (1 ∷ 2 ∷ 3 ∷ 4 ∷ [])) ≡ true ∷ true ∷ false ∷ false ∷ [] }
    ensures within_two { map (is_near before after 2 (node 1)) (map (λ n. record { 0 = n }) (1 ∷ 2 ∷ 3 ∷ 4 ∷ [])) ≡ true ∷ true ∷ true ∷ true ∷ [] }
    ensures ends { map (is_near before after 0 (edge 2)) (map (λ n. record { 0 = n }) (1 ∷ 2 ∷ 3 ∷ 4 ∷ [])) ≡ false ∷ true ∷ true ∷ true ∷ [] }
{}

/// With node 1 touched, edge 1 may differ in a pattern that is one edge alone, and not in one that binds its ends.
pub fn where_an_edge_stands_alone()
    ensures kinds { map is_edge_alone (alone ∷ ended ∷ []) ≡ true ∷ false ∷ [] }
    ensures alone { map (may_differ (is_one_of (node 1 ∷ [])) before alone) (node 1 ∷ edge 1 ∷ edge 2 ∷ []) ≡ true ∷ true ∷ false ∷ [] }
    ensures ended { map (may_differ (is_one_of (node 1 ∷ [])) before ended) (node 1 ∷ edge 1 ∷ edge 2 ∷ []) ≡ true ∷ false ∷ false ∷ [] }
{}
