ghost use Rattle.std.specs.Prelude.{◌≡◌, ◌<◌, ◌≤◌, List, ℕ, length, take, Option, Ok, IfOk, OnOk, OnErr, ⊤};
ghost use Rattle.std.specs.Result.{result_ok};
ghost use Rattle.pgs_world.specs.Count.{RoseByOne};
ghost use Rattle.pgs_world.specs.Source.{Takes, IsAtEnd};

use crate::SourceFault;

/// Bytes that come in reads.
pub trait Source {
    /// The bytes that are left, where the source tells them.
    ghost left: { Self → Option (List ℕ) };

    /// How often a read failed.
    ghost faults: { Self → ℕ };

    /// A read that was made: how many bytes it asked for, and how many it gave, or that it failed. Code that is generic over sources can't
    /// make such a fact up, so what a contract says by it is said of the reads themselves, whatever a source takes it to be.
    ghost read_made: { Self → ℕ → Option ℕ → Self → Type 0 } = { λ _ _ _ _. ⊤ };

    /// Takes the next bytes into the front of the buffer, and says how many. 0 for a buffer that isn't
    /// empty is the end of the input. After `SourceFault` the bytes left are as they were, and the
    /// count of faults rose by one; else that count is as it was.
    fn read(&mut self, buf: &mut [u8]) -> Result<usize, SourceFault>
        ensures within { IfOk result (λ count. count ≤ length buf.new) }
        ensures taken { IfOk result (λ count. Takes (left self.old) (left self.new) (take count buf.new)) }
        ensures end { 0 < length buf.old → result ≡ Ok 0 → IsAtEnd (left self.old) }
        ensures kept { OnErr result (left self.new ≡ left self.old) }
        ensures cause { OnErr result (RoseByOne (faults self.old) (faults self.new)) }
        ensures no_cause { OnOk result (faults self.new ≡ faults self.old) }
        ensures faults_stay { faults self.old ≤ faults self.new }
        ensures made { read_made self.old (length buf.old) (result_ok result) self.new };
}
