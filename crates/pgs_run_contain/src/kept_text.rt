ghost use Rattle.std.specs.Prelude.{◌≡◌, []};

use pgs_run_input::SchemaPart;
use std::alloc::Global;
use std::marker::Model;

/// A schema text that was read, as far as it is kept: of one that is too long a front, one byte longer than a text may be.
#[derive(Drop)]
pub struct KeptText {
    part: SchemaPart,
}

impl Model for KeptText {
    ghost use Rattle.std.specs.Prelude.{ℕ, List};

    ghost Value = { List ℕ };

    ghost view = { λ text. text.part.text };
}

impl KeptText {
    /// The text of a part.
    pub(crate) fn of(part: SchemaPart) -> KeptText
        ensures { result ≡ part.text }
    {
        KeptText { part }
    }

    /// No text; takes no memory.
    pub(crate) fn none(alloc: Global) -> KeptText
        ensures { result ≡ [] }
    {
        KeptText::of(SchemaPart::new(alloc))
    }

    /// The bytes that are kept.
    pub fn bytes(&self) -> &[u8]
        ensures { result.now ≡ self.now }
    {
        self.part.text()
    }
}
