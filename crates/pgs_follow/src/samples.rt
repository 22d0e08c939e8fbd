//! Small feeds, and what is followed of them: each of these functions does nothing, and its contract is the sample.

ghost use Rattle.std.specs.Prelude.{◌≡◌, [], ◌∷◌, ◌++◌, Some, None, codes};
ghost use Rattle.pgs_graph.specs.declared.operation.Op.TheVariants.{RemoveNode};
ghost use Rattle.pgs_violation.specs.declared.structural.Cause.TheVariants.{NoNode};
ghost use Rattle.pgs_violation.specs.declared.structural.Structural.TheVariants.{BadOp};
ghost use Rattle.pgs_base.specs.Graph.{empty_graph};
ghost use Rattle.pgs_follow.specs.declared.fault.FollowFault.TheVariants.{BadLine, Gap, BadCommit};
ghost use Rattle.pgs_follow.specs.Followed.{followed, rest_of};
ghost use Rattle.pgs_follow.specs.Samples.{few, node, bare, line_of, adds};

/// Commit 1, the same again, commit 2, and commit 4, ahead of its turn.
pub fn a_gap()
    ensures { followed few (adds 1 1 ++ (adds 1 1 ++ (adds 2 2 ++ adds 4 4)))
        ≡ record { graph = record { nodes = bare 1 ∷ bare 2 ∷ []; edges = [] }; commits = 2; lines = 3; fault = Some (Gap 3 4) } }
{}

/// Commits 1 and 2, and then 1 again, with another operation.
pub fn a_repeated_line()
    ensures { followed few (adds 1 1 ++ (adds 2 2 ++ line_of 1 (RemoveNode (node 1))))
        ≡ record { graph = record { nodes = bare 1 ∷ bare 2 ∷ []; edges = [] }; commits = 2; lines = 3; fault = None } }
{}

/// A commit without its line feed.
pub fn an_unfinished_line()
    ensures followed { followed few (codes "{\"commit\":1,\"ops\":[{\"add_node\":1,\"labels\":[],\"props\":{}}]}")
        ≡ record { graph = empty_graph; commits = 0; lines = 0; fault = None } }
    ensures rest { rest_of few (codes "{\"commit\":1,\"ops\":[{\"add_node\":1,\"labels\":[],\"props\":{}}]}") ≡ 58 }
{}

/// A commit that removes a node that isn't there.
pub fn a_transaction_that_cannot_be_done()
    ensures { followed few (line_of 1 (RemoveNode (node 1)))
        ≡ record { graph = empty_graph; commits = 0; lines = 0; fault = Some (BadCommit 1 (BadOp 1 (NoNode (node 1)))) } }
{}

/// An empty line.
pub fn a_line_that_is_no_commit()
    ensures { followed few (10 ∷ []) ≡ record { graph = empty_graph; commits = 0; lines = 0; fault = Some (BadLine 1) } }
{}
