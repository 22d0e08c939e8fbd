//! What the definitions of listing say of a small graph: `two_ways` of `pgs_violation` has the nodes 1 and 2, edge 1 from 2 to
//! itself, 2 from 1 to 2, and 5 back. The functions do nothing; their contracts are the statements.

ghost use Rattle.std.specs.Prelude.{◌≡◌, true, false, [], ◌∷◌};
ghost use Rattle.pgs_graph.specs.Reads.{degree_of};
ghost use Rattle.pgs_violation.specs.StagingSamples.{two_ways};
ghost use Rattle.pgs_txn.specs.Listing.{lists_only, has_degrees_upto};
ghost use Rattle.pgs_txn.specs.Samples.{detach, remove, join, removing};

/// A delta may list the node that is detached and the edges at it, and neither another edge nor the other node. Where the node is
/// only removed, no edge may be listed. An end of an added edge may not be listed either.
pub fn only_what_is_named_or_detached_is_listed()
    ensures detached { lists_only two_ways (detach 1) (removing (1 ∷ []) (2 ∷ 5 ∷ [])) ≡ true }
    ensures edge_elsewhere { lists_only two_ways (detach 1) (removing (1 ∷ []) (1 ∷ [])) ≡ false }
    ensures other_node { lists_only two_ways (detach 1) (removing (2 ∷ []) []) ≡ false }
    ensures only_removed { lists_only two_ways (remove 1) (removing (1 ∷ []) (2 ∷ [])) ≡ false }
    ensures added { lists_only two_ways (join 7 1 2) (removing [] (7 ∷ [])) ≡ true }
    ensures end_of_added { lists_only two_ways (join 7 1 2) (removing (1 ∷ []) (7 ∷ [])) ≡ false }
{}

/// A loop counts twice in the degree of its node. An edge that is added has none, whatever its ends have.
pub fn degrees_count_loops_twice()
    ensures loops { degree_of two_ways (record { 0 = 2 }) ≡ 4 }
    ensures upto { has_degrees_upto two_ways 4 (detach 2) ≡ true }
    ensures above { has_degrees_upto two_ways 3 (detach 2) ≡ false }
    ensures edges { has_degrees_upto two_ways 0 (join 7 1 2) ≡ true }
{}
