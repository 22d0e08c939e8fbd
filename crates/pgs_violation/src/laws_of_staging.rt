//! A law on staging. The function does nothing; its contract is the statement.

ghost use Rattle.std.specs.Prelude.{◌≡◌, true, Ok};
ghost use Rattle.pgs_base.specs.declared.limits.Limits.{Limits};
ghost use Rattle.pgs_base.specs.Graph.{Graph, is_graph};
ghost use Rattle.pgs_graph.specs.declared.operation.Txn.{Txn};
ghost use Rattle.pgs_graph.specs.Operations.{is_well_formed_txn};
ghost use Rattle.pgs_violation.specs.Staging.{staged};

/// The graph after a well-formed transaction on a graph is a graph. Every `Txn` is well formed (`Txn::facts`).
pub fn the_staged_graph_is_a_graph()
    ensures { (limits : Limits) (g h : Graph) (txn : Txn) → is_well_formed_txn txn ≡ true →
        staged limits g txn ≡ Ok h → is_graph g ≡ true → is_graph h ≡ true }
{}
