//! Laws on the machine of sessions. The functions do nothing; their contracts are the statements.

ghost use Rattle.std.specs.Prelude.{◌≡◌, ◌↔◌, ℕ, true, false, None, is_some, Result};
ghost use Rattle.pgs_base.specs.declared.element.Elem.{Elem};
ghost use Rattle.pgs_base.specs.Graph.{Graph};
ghost use Rattle.pgs_graph.specs.declared.operation.Txn.{Txn};
ghost use Rattle.pgs_violation.specs.declared.rejection.Rejection.{Rejection};
ghost use Rattle.pgs_sessions_machine.specs.declared.event.Event.{Event};
ghost use Rattle.pgs_sessions_machine.specs.declared.event.Event.TheVariants.{Begin, Commit};
ghost use Rattle.pgs_sessions_machine.specs.declared.event.Reply.TheVariants.{AlreadyOpen, NoSession, Stale, TooManySessions};
ghost use Rattle.pgs_sessions_machine.specs.Alone.{RunsAsAlone};
ghost use Rattle.pgs_sessions_machine.specs.Commits.{IsOfCommits};
ghost use Rattle.pgs_sessions_machine.specs.Machine.{State, session_at, number_of, step};
ghost use Rattle.pgs_sessions_machine.specs.Meaning.{is_begin, IsStale, IsFull};

/// However events interleave and transactions are decided, a session whose commit is decided has the replies of running alone at its
/// commit.
pub fn a_session_runs_as_alone()
    ensures { (decision : Graph → Txn → Result Graph Rejection) → RunsAsAlone decision }
{}

/// The latest graph is the one after the operations of the sessions that committed, in the order of their commits: each was accepted on
/// the graph after those before it.
pub fn the_latest_graph_is_of_the_commits()
    ensures { (decision : Graph → Txn → Result Graph Rejection) → IsOfCommits decision }
{}

/// Each refusal comes exactly where it is said to: 42 where the session is open, 45 where it isn't and 1,000 are; 43 of every other event
/// where its session isn't open; 44 where a commit after the session's Begin changed an element that it read or that a staged operation
/// names, with the least such element and the last commit that changed it.
pub fn refusals_come_exactly()
    ensures already_open { (decision : Graph → Txn → Result Graph Rejection) (state : State) (number : ℕ) →
        ((step decision state (Begin number)).reply ≡ AlreadyOpen) ↔ (is_some (session_at state number) ≡ true) }
    ensures too_many { (decision : Graph → Txn → Result Graph Rejection) (state : State) (number : ℕ) →
        ((step decision state (Begin number)).reply ≡ TooManySessions) ↔ IsFull state number }
    ensures no_session { (decision : Graph → Txn → Result Graph Rejection) (state : State) (event : Event) → is_begin event ≡ false →
        ((step decision state event).reply ≡ NoSession) ↔ (session_at state (number_of event) ≡ None) }
    ensures stale { (decision : Graph → Txn → Result Graph Rejection) (state : State) (number : ℕ) (elem : Elem) (commit : ℕ) →
        ((step decision state (Commit number)).reply ≡ Stale elem commit) ↔ IsStale state number elem commit }
{}
