//! A law on what a transaction touches. The function does nothing; its contract is the statement.

ghost use Rattle.std.specs.Prelude.{◌≡◌, true, Ok};
ghost use Rattle.pgs_base.specs.declared.element.Elem.{Elem};
ghost use Rattle.pgs_base.specs.declared.limits.Limits.{Limits};
ghost use Rattle.pgs_base.specs.Graph.{Graph, is_graph};
ghost use Rattle.pgs_graph.specs.declared.operation.Txn.{Txn};
ghost use Rattle.pgs_violation.specs.Staging.{staged};
ghost use Rattle.pgs_check_affected.specs.Local.{is_one_of, has_touched_end};
ghost use Rattle.pgs_decide.specs.Touched.{named, touched_by};

/// What a transaction touches of the graph before it holds each edge of the graph after it at a node that an operation names.
pub fn what_is_touched_holds_the_edges_after()
    ensures { (limits : Limits) (g h : Graph) (txn : Txn) → is_graph g ≡ true → staged limits g txn ≡ Ok h → (elem : Elem) →
        has_touched_end (is_one_of (named txn.ops)) h elem ≡ true → is_one_of (touched_by g txn.ops) elem ≡ true }
{}
