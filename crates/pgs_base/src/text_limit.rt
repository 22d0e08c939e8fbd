/// The most bytes of a schema text, and of a line of a transaction (docs/GRAMMAR.md, docs/FORMATS.md).
pub const TEXT_LIMIT: usize = 1_048_576;
