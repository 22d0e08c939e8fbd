ghost use Rattle.std.specs.Prelude.{◌≡◌};
ghost use Rattle.pgs_shapes.specs.declared.fault.CompileFault.TheVariants as faults;

use pgs_base::{Memory, Name};

/// Why a schema is not compiled.
#[derive(Debug, PartialEq, Eq, Drop)]
pub enum CompileFault {
    /// There was no memory.
    Memory,
    /// Refusal 17: the first type, by its place in the script, that has over 4,096 forms, or up to which the types have over
    /// 4,194,304 parts, count times weight.
    TooWide { name: Name },
}

impl From<Memory> for CompileFault {
    ghost from_gives = { λ _ e. e ≡ faults.Memory };

    fn from(_: Memory) -> CompileFault {
        CompileFault::Memory
    }
}
