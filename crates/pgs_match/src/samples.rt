//! What is reached in a small graph, which stands in `specs/MatchSamples.antt` of `pgs_syntax`, and which patterns have a cycle. The
//! functions do nothing; their contracts are the statements.

ghost use Rattle.std.specs.Prelude.{◌≡◌, ◌∷◌, [], true, false, codes};
ghost use Rattle.pgs_syntax.specs.KeySamples.{the_node};
ghost use Rattle.pgs_syntax.specs.MatchSamples.{the_edge, one_step, parallel_edges};
ghost use Rattle.pgs_syntax.specs.Samples.{keyed, pattern};
ghost use Rattle.pgs_syntax.specs.declared.pattern.Atom.TheVariants.{Ends};
ghost use Rattle.pgs_match.specs.Branches.{has_no_cycle};
ghost use Rattle.pgs_match.specs.Reached.{reached};

/// Of two parallel edges the source is reached once from the target, and from each edge; nothing is reached from the source.
pub fn parallel_edges_reach_their_source_once()
    ensures target { reached (keyed []) parallel_edges (one_step (codes "r")) 2 (the_node 2) ≡ the_node 1 ∷ [] }
    ensures edge { reached (keyed []) parallel_edges (one_step (codes "r")) 1 (the_edge 2) ≡ the_node 1 ∷ [] }
    ensures source { reached (keyed []) parallel_edges (one_step (codes "r")) 2 (the_node 1) ≡ [] }
{}

/// One step has no cycle, and neither have two branches from one node. An edge from a node to itself has one, two edges between the same
/// nodes and a ring of three.
pub fn a_ring_has_a_cycle_and_branches_have_none()
    ensures step { has_no_cycle (one_step (codes "r")) ≡ true }
    ensures branches { has_no_cycle (pattern (false ∷ true ∷ false ∷ true ∷ false ∷ []) (Ends 1 0 2 ∷ Ends 3 0 4 ∷ [])) ≡ true }
    ensures itself { has_no_cycle (pattern (false ∷ true ∷ []) (Ends 1 0 0 ∷ [])) ≡ false }
    ensures pair { has_no_cycle (pattern (false ∷ true ∷ false ∷ true ∷ []) (Ends 1 0 2 ∷ Ends 3 0 2 ∷ [])) ≡ false }
    ensures ring { has_no_cycle (pattern (false ∷ true ∷ false ∷ true ∷ false ∷ true ∷ []) (Ends 1 0 2 ∷ Ends 3 2 4 ∷ Ends 5 4 0 ∷ [])) ≡ false }
{}
