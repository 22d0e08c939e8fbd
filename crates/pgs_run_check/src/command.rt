/// A command of the program.
#[derive(Clone, Copy)]
pub enum CheckCommand {
    /// `schema`: a schema text; what its guard asks, and what in it does nothing.
    Schema,
    /// `try`: a schema text and transaction lines; each verdict as `try` of the guard has it, and behind a refusal its causes.
    Try,
    /// `evolve`: two schema texts with a line `---` between them; what the step from the first to the second changes, and whether it is safe.
    Evolve,
    /// `evolve NAME`: the same from the schema of a saved store, and what in its graph the new one doesn't allow.
    EvolveStore,
    /// `apply NAME`: transaction lines; each verdict as `apply` of the guard has it, and behind a refusal its causes. Nothing is kept.
    Apply,
}
