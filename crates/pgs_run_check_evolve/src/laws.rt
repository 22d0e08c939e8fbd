//! The law on what is told safe. The function does nothing; its contract is the statement.

ghost use Rattle.std.specs.Prelude.{◌≡◌, true, ℕ, List, Option};
ghost use Rattle.pgs_base.specs.Graph.{Graph, is_graph};
ghost use Rattle.pgs_syntax.specs.declared.resolved.Resolved.{Resolved};
ghost use Rattle.pgs_violation.specs.Violations.{conforms};
ghost use Rattle.pgs_command.specs.declared.status.Status.{Status};
ghost use Rattle.pgs_command.specs.declared.status.Status.TheVariants.{Accepted};
ghost use Rattle.pgs_run_contain.specs.Answers.{Answer};
ghost use Rattle.pgs_run_contain.specs.Running.{HasAllLines};
ghost use Rattle.pgs_run_check_evolve.specs.Told.{told_changes, AreRightly};

/// Where right answers, of a run that ended with 0 or 1, tell that a step is safe, each graph that conforms to the old schema conforms to
/// the new one.
pub fn what_is_told_safe_keeps_graphs()
    ensures { (old new : Resolved) (names : List (List ℕ)) (choice : Option (List Answer)) (status : Status) → HasAllLines status → AreRightly choice old new names status
        → (told_changes choice old new).status ≡ Accepted → (g : Graph) → is_graph g ≡ true → conforms old g ≡ true → conforms new g ≡ true }
{}
