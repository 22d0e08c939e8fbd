/// Why a text has no tokens.
#[derive(Clone, Copy, Debug, PartialEq, Eq)]
pub enum LexFault {
    /// There was no memory for the tokens.
    Memory,
    /// A byte begins no item. `line` is its line, from 1: one more than the line feeds before it.
    Lex { line: u64 },
}
