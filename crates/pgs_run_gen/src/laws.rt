//! What is so of every workload. The functions do nothing; their contracts are the statements.

ghost use Rattle.std.specs.Prelude.{◌≡◌, ◌≤◌, ℕ, Ok};
ghost use Rattle.pgs_gen.specs.Generated.{schema_text};
ghost use Rattle.pgs_violation.specs.Violations.{verdict};
ghost use Rattle.pgs_run_input.specs.Answers.{schema_answer};
ghost use Rattle.pgs_run_input.specs.Session.{standard};
ghost use Rattle.pgs_run_gen.specs.Persons.{persons};
ghost use Rattle.pgs_run_gen.specs.Workload.{accepted_of, decided, rejected_of};

/// The text of a workload's schema is a schema, of persons who know each other.
pub fn a_workload_has_a_schema()
    ensures { schema_answer schema_text ≡ Ok persons }
{}

/// Under it, and within the limits of the program, all transactions of a workload are accepted, one after another.
pub fn a_workload_is_accepted()
    ensures accepted { (start count : ℕ) → count ≤ 500000 → accepted_of (decided standard (verdict persons) start count) ≡ count }
    ensures rejected { (start count : ℕ) → count ≤ 500000 → rejected_of (decided standard (verdict persons) start count) ≡ 0 }
{}
