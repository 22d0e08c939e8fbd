//! Laws of the definitions. Each of these functions does nothing, and its contract is the law.

ghost use Rattle.std.specs.Prelude.{◌≡◌, ℕ, List, ◌++◌, None, true, is_some};
ghost use Rattle.pgs_base.specs.declared.limits.Limits.{Limits};
ghost use Rattle.pgs_base.specs.Graph.{Graph};
ghost use Rattle.pgs_graph.specs.declared.operation.Txn.{Txn};
ghost use Rattle.pgs_violation.specs.declared.violation.Verdict.{Verdict};
ghost use Rattle.pgs_run_lines.specs.Input.{lines_of};
ghost use Rattle.pgs_follow.specs.Arranged.{IsHistory, AreFeedLines, FollowsFirst};
ghost use Rattle.pgs_follow.specs.Followed.{followed};

/// Once there is a fault, more bytes change nothing.
pub fn a_fault_stays()
    ensures { (limits : Limits) (bytes more : List ℕ) → is_some (followed limits bytes).fault ≡ true
        → followed limits (bytes ++ more) ≡ followed limits bytes }
{}

/// Of all bytes taken, what was followed of them and, without a fault, the unfinished line are all that decides what is followed later:
/// the order, the repeats and the cuts by which they came don't matter.
pub fn the_unfinished_line_tells_the_rest()
    ensures { (limits : Limits) (bytes other more : List ℕ) → followed limits bytes ≡ followed limits other
        → ((followed limits bytes).fault ≡ None → (lines_of bytes).rest ≡ (lines_of other).rest)
        → followed limits (bytes ++ more) ≡ followed limits (other ++ more) }
{}

/// Where transactions were accepted in order, and every ended line of a feed is the line of one of their commits, in whatever order and
/// as often as one likes, the graph is that after as many of them as there were commits. There is then no fault but a gap, or that the
/// unfinished line is too long.
pub fn arranged_lines_lead_to_a_first_graph()
    ensures { (limits : Limits) (verdict : Graph → Verdict) (txns : List Txn) (bytes : List ℕ) → IsHistory limits verdict txns
        → AreFeedLines txns (lines_of bytes).ended → FollowsFirst limits verdict txns bytes }
{}
