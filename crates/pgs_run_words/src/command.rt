use crate::Workload;
use pgs_base::Elem;

/// A command of the program, with what its words say beside names of files.
#[derive(Clone, Copy)]
pub enum Command {
    /// `try`: a schema and lines of transactions, decided one after another; nothing is stored.
    Try,
    /// `validate`: a schema and lines of transactions, judged as a whole; nothing is stored.
    Validate,
    /// `load NAME`: a new store of a schema.
    Load,
    /// `apply NAME FEED*`: lines of transactions, decided on a store.
    Apply,
    /// `recover NAME`: a store as text.
    Recover,
    /// `explain NAME ELEM`: the types and the key values of an element of a store.
    Explain { elem: Elem },
    /// `gen START COUNT`: so many transactions made from a number.
    Gen { workload: Workload },
    /// `checkpoint NAME`: a store written whole into its other area.
    Checkpoint,
    /// `contain`: two schemas; whether each type of the first is contained in the second.
    Contain,
    /// `evolve NAME`: another schema over a store whose graph conforms to it.
    Evolve,
}
