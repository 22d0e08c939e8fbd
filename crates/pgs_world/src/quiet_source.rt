ghost use Rattle.std.specs.Prelude.{◌≡◌, length, take, drop, min, Some, IfOk};

use crate::mem_source::copy_front;
use crate::{Source, SourceFault};
use pgs_base::Bytes;
use std::marker::Model;

/// A source in memory that tells its bytes and never fails.
#[derive(Drop)]
pub struct QuietSource {
    bytes: Bytes,
    at: usize,
}

impl Model for QuietSource {
    ghost use Rattle.std.specs.Prelude.{List as Items, ℕ, ◌≤◌, length, drop};

    ghost Value = { Items ℕ };

    ghost view = { λ s. drop s.at s.bytes };

    ghost invariant = { λ s. s.at ≤ length s.bytes };
}

impl QuietSource {
    /// Gives these bytes, each read as many as fit.
    pub fn new(bytes: Bytes) -> QuietSource
        ensures { ⟦<QuietSource as Source>⟧.left result ≡ Some bytes }
    {
        QuietSource { bytes, at: 0 }
    }
}

impl Source for QuietSource {
    ghost use Rattle.std.specs.Prelude.{Some};

    ghost left = { λ s. Some s };

    ghost faults = { λ _. 0 };

    /// Gives as much as is left and fits.
    fn read(&mut self, buf: &mut [u8]) -> Result<usize, SourceFault>
        ensures gives { result ≡ Ok (min (length self.old) (length buf.old)) }
        ensures bytes { IfOk result (λ count. take count buf.new ≡ take count self.old) }
        ensures after { self.new ≡ drop (length buf.old) self.old }
    {
        let count = copy_front(&self.bytes.as_slice()[self.at..], buf.len(), buf);
        self.at += count;
        Ok(count)
    }
}
