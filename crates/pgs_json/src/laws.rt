//! Laws of the definitions. Each of these functions does nothing, and its contract is the law.

ghost use Rattle.std.specs.Prelude.{◌≡◌, ◌≤◌, ◌<◌, ◌^◌, ℕ, length, true, Some, None, Ok};
ghost use Rattle.pgs_base.specs.declared.text_limit.TheConstants.{TEXT_LIMIT};
ghost use Rattle.pgs_graph.specs.declared.operation.Txn.{Txn};
ghost use Rattle.pgs_graph.specs.Operations.{is_well_formed_txn};
ghost use Rattle.pgs_json.specs.Line.{txn_of, read_line};
ghost use Rattle.pgs_json.specs.Canonical.{text_of_txn};
ghost use Rattle.pgs_json.specs.declared.commit.TheConstants.{COMMIT_LIMIT};
ghost use Rattle.pgs_json.specs.Commit.{commit_of, read_commit_line};

/// What is written without a commit number is read again as the same transaction, where it isn't too long for a line. Every
/// `Txn` is well formed, as its `facts` say.
pub fn written_is_read()
    ensures names { (txn : Txn) → is_well_formed_txn txn ≡ true → txn_of (text_of_txn txn None) ≡ Some txn }
    ensures line { (txn : Txn) → is_well_formed_txn txn ≡ true → length (text_of_txn txn None) ≤ TEXT_LIMIT
        → read_line (text_of_txn txn None) ≡ Ok txn }
{}

/// What is written with a commit number of at least 1 is read again as this number and the same transaction, where it isn't too long
/// for a line of a feed.
pub fn written_commit_is_read()
    ensures names { (txn : Txn) (n : ℕ) → is_well_formed_txn txn ≡ true → 0 < n → n < 2 ^ 64
        → commit_of (text_of_txn txn (Some n)) ≡ Some (n, txn) }
    ensures line { (txn : Txn) (n : ℕ) → is_well_formed_txn txn ≡ true → 0 < n → n < 2 ^ 64 → length (text_of_txn txn (Some n)) ≤ COMMIT_LIMIT
        → read_commit_line (text_of_txn txn (Some n)) ≡ Ok (n, txn) }
{}
