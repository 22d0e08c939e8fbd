ghost use Rattle.std.specs.Prelude.{◌≡◌, ◌<◌, ◌≤◌, ◌++◌, is_err, length, take, drop, min, Some, IfOk, OnOk, OnErr};
ghost use Rattle.pgs_world.specs.Count.{RoseByOne};
ghost use Rattle.pgs_world.specs.MemSource.{fails_next, gives_next, after_read};
ghost use Rattle.pgs_world.specs.Source.{Takes, IsAtEnd};

use crate::{Source, SourceFault};
use pgs_base::{Bytes, List};
use std::marker::Model;

/// A source in memory: it tells its bytes, and fails exactly at the reads that are listed.
#[derive(Drop)]
pub struct MemSource {
    bytes: Bytes,
    at: usize,
    piece: usize,
    fail: List<u64>,
    calls: u64,
    faults: u64,
}

impl Model for MemSource {
    ghost use Rattle.std.specs.Prelude.{◌≤◌, length, drop};
    ghost use Rattle.pgs_world.specs.MemSource.{Reading};

    ghost Value = { Reading };

    ghost view = { λ s. record { left = drop s.at s.bytes; piece = s.piece; fail = s.fail; calls = s.calls; faults = s.faults } };

    ghost invariant = { λ s. (s.at ≤ length s.bytes) × (1 ≤ s.piece) };
}

impl MemSource {
    /// Gives these bytes, at most `piece` a read, and fails at the listed reads, counted from 1.
    pub fn new(bytes: Bytes, piece: usize, fail: List<u64>) -> MemSource
        requires { 1 ≤ piece }
        ensures left { ⟦<MemSource as Source>⟧.left result ≡ Some bytes }
        ensures faults { ⟦<MemSource as Source>⟧.faults result ≡ 0 }
        ensures reading { result ≡ record { left = bytes; piece = piece; fail = fail; calls = 0; faults = 0 } }
    {
        MemSource {
            bytes,
            at: 0,
            piece,
            fail,
            calls: 0,
            faults: 0,
        }
    }
}

impl Source for MemSource {
    ghost use Rattle.std.specs.Prelude.{Some};

    ghost left = { λ s. Some s.left };

    ghost faults = { λ s. s.faults };

    /// Fails exactly at the listed reads. Else it gives as much as is left and fits, at most the piece.
    fn read(&mut self, buf: &mut [u8]) -> Result<usize, SourceFault>
        ensures fails { is_err result ≡ fails_next self.old }
        ensures gives { IfOk result (λ count. count ≡ gives_next self.old (length buf.old)) }
        ensures bytes { IfOk result (λ count. take count buf.new ≡ take count self.old.left) }
        ensures after { self.new ≡ after_read self.old (length buf.old) }

        // What every source says.
        ensures within { IfOk result (λ count. count ≤ length buf.new) }
        ensures taken { IfOk result (λ count. Takes (Some self.old.left) (Some self.new.left) (take count buf.new)) }
        ensures end { 0 < length buf.old → result ≡ Ok 0 → IsAtEnd (Some self.old.left) }
        ensures kept { OnErr result (Some self.new.left ≡ Some self.old.left) }
        ensures cause { OnErr result (RoseByOne self.old.faults self.new.faults) }
        ensures no_cause { OnOk result (self.new.faults ≡ self.old.faults) }
        ensures faults_stay { self.old.faults ≤ self.new.faults }
    {
        self.calls = self.calls.saturating_add(1);
        if self.fail.as_slice().contains(&self.calls) {
            self.faults = self.faults.saturating_add(1);
            return Err(SourceFault);
        }
        let count = copy_front(&self.bytes.as_slice()[self.at..], self.piece, buf);
        self.at += count;
        Ok(count)
    }
}

/// Copies as much of the front of `left` as fits, at most `most` bytes, and says how many.
pub(crate) fn copy_front(left: &[u8], most: usize, buf: &mut [u8]) -> usize
    ensures count { result ≡ min (min (length left.now) (length buf.old)) most }
    ensures bytes { take result buf.new ≡ take result left.now }
    ensures split { left.now ≡ take result buf.new ++ drop result left.now }
{
    let count = left.len().min(buf.len()).min(most);
    buf[..count].copy_from_slice(&left[..count]);
    count
}
