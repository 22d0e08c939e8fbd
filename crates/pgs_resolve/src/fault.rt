ghost use Rattle.std.specs.Prelude.{◌≡◌};

use pgs_base::{Memory, Name};
use pgs_syntax::KeyCause;

/// Why a script is no schema. The refusals are tested in this order over the whole script, each by its first place in
/// it, and `Cycle` by the least name.
#[derive(Drop)]
pub enum ResolveFault {
    /// There was no memory.
    Memory,
    /// Refusal 12: the script has no graph type.
    NoGraphType,
    /// Refusal 13: two element types, two graph types, or two properties in one pair of braces have this name.
    Duplicate { name: Name },
    /// Refusal 14: a listed member isn't a declared element type, or an import isn't a declared graph type.
    Unknown { name: Name },
    /// Refusal 15: an edge type is named where a node type has to be, or a node type where an edge type has to be.
    Kind { name: Name },
    /// Refusal 16: the least name on a cycle of element types that name each other, or of imports.
    Cycle { name: Name },
    /// Refusal 18: the key of this number, from 1 in the order of the script, has a fault.
    BadKey { key: u64, cause: KeyCause },
}

impl From<Memory> for ResolveFault {
    ghost use Rattle.pgs_resolve.specs.declared.fault.ResolveFault.TheVariants as faults;

    ghost from_gives = { λ _ e. e ≡ faults.Memory };

    fn from(_: Memory) -> ResolveFault {
        ResolveFault::Memory
    }
}
