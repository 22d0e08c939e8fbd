use pgs_base::{Memory, Name, TEXT_LIMIT};
use pgs_syntax::KeyCause;
use thiserror::Error;

/// Why a text is no schema. docs/FORMATS.md has each number with its text.
#[derive(Debug, Drop, Error)]
pub enum SchemaFault {
    /// 10: a byte on this line, from 1, begins no item.
    #[error("a byte on line {line} begins no item")]
    Lex { line: u64 },
    /// 11: the statement of this number, from 1, is the first that is none.
    #[error("statement {statement} is none")]
    Syntax { statement: u64 },
    /// 12: there is no graph type.
    #[error("there is no graph type")]
    NoGraphType,
    /// 13: two element types, two graph types, or two properties in one pair of braces have this name.
    #[error("a name is declared twice")]
    Duplicate { name: Name },
    /// 14: a listed member isn't a declared element type, or an import isn't a declared graph type.
    #[error("a name is not declared")]
    Unknown { name: Name },
    /// 15: an edge type is named where a node type has to be, or a node type where an edge type has to be.
    #[error("a type of the other kind is named")]
    Kind { name: Name },
    /// 16: the least name on a cycle of element types that name each other, or of imports.
    #[error("types or imports are on a cycle")]
    Cycle { name: Name },
    /// 17: the first type, by its place, that is too wide.
    #[error("a type is too wide")]
    TooWide { name: Name },
    /// 18: the key of this number, from 1 in the order of the script, has a fault.
    #[error("key {key} has a fault")]
    BadKey { key: u64, cause: KeyCause },
    /// 19: the text has over `TEXT_LIMIT` bytes.
    #[error("the text is longer than {TEXT_LIMIT} bytes")]
    TooLong,
}

/// Why a schema text gave no schema.
#[derive(Debug, Drop, Error)]
pub enum SchemaUnread {
    /// There was no memory.
    #[error("there is not enough memory")]
    Memory,
    /// The text is no schema.
    #[error("the text is no schema: {0}")]
    Schema(SchemaFault),
}

impl From<Memory> for SchemaUnread {
    ghost use Rattle.std.specs.Prelude.{◌≡◌};
    ghost use Rattle.pgs_schema.specs.declared.fault.SchemaUnread.TheVariants as faults;

    ghost from_gives = { λ _ e. e ≡ faults.Memory };

    fn from(_: Memory) -> SchemaUnread {
        SchemaUnread::Memory
    }
}
