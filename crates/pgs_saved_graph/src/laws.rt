//! That a graph that was decided, and its transactions, can be saved. The functions do nothing; their contracts are the statements.

ghost use Rattle.std.specs.Prelude.{◌≡◌, ◌<◌, ◌^◌, true, Ok, IsTrue};
ghost use Rattle.pgs_base.specs.declared.limits.Limits.{Limits};
ghost use Rattle.pgs_base.specs.Graph.{Graph};
ghost use Rattle.pgs_codec.specs.declared.command.Command.TheVariants as commands;
ghost use Rattle.pgs_codec.specs.Encodable.{is_sized};
ghost use Rattle.pgs_graph.specs.declared.operation.Txn.{Txn};
ghost use Rattle.pgs_saved_graph.specs.Small.{has_small_rows};
ghost use Rattle.pgs_violation.specs.Staging.{staged};

/// The rows of a staged graph are small, where those of the graph before are.
pub fn a_staged_graph_has_small_rows()
    ensures { (limits : Limits) (g h : Graph) (txn : Txn) → staged limits g txn ≡ Ok h → has_small_rows g ≡ true →
        has_small_rows h ≡ true }
{}

/// A transaction whose operations can be done has the sizes of a payload.
pub fn a_staged_transaction_has_a_payload()
    ensures { (limits : Limits) (g h : Graph) (txn : Txn) → limits.ops < 2 ^ 32 → staged limits g txn ≡ Ok h →
        IsTrue (is_sized (commands.Txn txn)) }
{}
