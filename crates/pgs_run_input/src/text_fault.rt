use pgs_base::{Bytes, Memory};

/// Why a schema text or a line gives nothing.
#[derive(Drop)]
pub enum TextFault {
    /// It is refused: the text of its refusal.
    Refused(Bytes),
    /// There was no memory.
    Memory,
}

impl From<Memory> for TextFault {
    ghost use Rattle.std.specs.Prelude.{◌≡◌};
    ghost use Rattle.pgs_run_input.specs.declared.text_fault.TextFault.TheVariants as faults;

    ghost from_gives = { λ _ fault. fault ≡ faults.Memory };

    fn from(_: Memory) -> TextFault {
        TextFault::Memory
    }
}
