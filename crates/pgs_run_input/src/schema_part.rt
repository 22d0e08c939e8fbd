ghost use Rattle.std.specs.Prelude.{◌≡◌, false, true, IfOk, Ok, OnOk};
ghost use Rattle.pgs_run_input.specs.Input.{is_separator};
ghost use Rattle.pgs_run_input.specs.Part.{no_part, with_line};

use crate::is_separator;
use pgs_base::{Memory, TEXT_LIMIT};
use pgs_run_lines::LineBuffer;
use std::alloc::Global;
use std::marker::Model;

/// The schema text so far: its lines, with a line feed between each two. Of a text that is too long it keeps a front, one byte longer
/// than a text may be.
#[derive(Drop)]
pub struct SchemaPart {
    text: LineBuffer,
    /// Whether there was a line.
    begun: bool,
}

impl Model for SchemaPart {
    ghost use Rattle.std.specs.Prelude.{◌≡◌};
    ghost use Rattle.pgs_base.specs.declared.text_limit.TheConstants.{TEXT_LIMIT};
    ghost use Rattle.pgs_run_input.specs.Part.{Part};

    ghost Value = { Part };

    ghost view = { λ part. record { text = part.text.bytes; begun = part.begun } };

    ghost invariant = { λ part. part.text.limit ≡ TEXT_LIMIT };
}

impl SchemaPart {
    /// Before the first line; takes no memory.
    pub fn new(alloc: Global) -> SchemaPart
        ensures { result ≡ no_part }
    {
        SchemaPart {
            text: LineBuffer::new(alloc, TEXT_LIMIT),
            begun: false,
        }
    }

    /// Puts a line at the end. After `Memory` the part isn't used any more.
    #[tactic(auto, unfolding(crate::specs::Part::with_line))]
    pub fn push_line(&mut self, line: &[u8]) -> Result<(), Memory>
        ensures { OnOk result (self.new ≡ with_line self.old line.now) }
    {
        if self.begun {
            self.text.push_all(b"\n")?;
            self.text.push_all(line)?;
            return Ok(());
        }
        self.begun = true;
        self.text.push_all(line)?;
        Ok(())
    }

    /// Takes a line: whether it ends the part, and else it is put at the end. After `Memory` the part isn't used any more.
    pub fn take_line(&mut self, line: &[u8]) -> Result<bool, Memory>
        ensures ends { IfOk result (λ ended. ended ≡ is_separator line.now) }
        ensures ended { result ≡ Ok true → self.new ≡ self.old }
        ensures goes_on { result ≡ Ok false → self.new ≡ with_line self.old line.now }
    {
        if is_separator(line) {
            return Ok(true);
        }
        self.push_line(line)?;
        Ok(false)
    }

    /// The front of the text.
    pub fn text(&self) -> &[u8]
        ensures { result.now ≡ self.now.text }
    {
        self.text.as_slice()
    }
}
