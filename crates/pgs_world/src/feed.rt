ghost use Rattle.std.specs.Prelude.{◌≡◌, ℕ, ◌≤◌, Bool, List, Option, option_map, is_err, OnOk, OnErr, ⊤};
ghost use Rattle.pgs_world.specs.Count.{RoseByOne};
ghost use Rattle.pgs_world.specs.World.{Adds, AddsFront};

use crate::FeedFault;

/// A way out for lines, apart from the output. A put that fails raised the feed's count of faults by one.
///
/// What a contract says of the bytes holds where the feed tells them (docs/DEFINITIONS.md).
pub trait Feed: Drop {
    /// The bytes taken so far, where the feed tells them.
    ghost taken: { Self → Option (List ℕ) };

    /// How many puts failed.
    ghost faults: { Self → ℕ };

    /// A put that was made: its piece, and whether it failed. Code that is generic over feeds can't make such a fact up, so what a contract
    /// says by it is said of the puts themselves, whatever a feed takes it to be.
    ghost put_made: { Self → List ℕ → (fails : Bool) → Self → Type 0 } = { λ _ _ _ _. ⊤ };

    /// Takes the whole piece after what it has. After `FeedFault` some front of the piece was taken, and the count of faults rose
    /// by one; it stays after `Ok`.
    fn put(&mut self, piece: &[u8]) -> Result<(), FeedFault>
        ensures whole { OnOk result (Adds (taken self.old) (taken self.new) piece.now) }
        ensures front { OnErr result (AddsFront (taken self.old) (taken self.new) piece.now) }
        ensures cause { OnErr result (RoseByOne (faults self.old) (faults self.new)) }
        ensures no_cause { OnOk result (faults self.new ≡ faults self.old) }
        ensures faults_stay { faults self.old ≤ faults self.new }
        ensures made { put_made self.old piece.now (is_err result) self.new };

    /// The bytes taken so far, where the feed tells them, else `None`.
    fn shown(&self) -> Option<&[u8]>
        ensures { option_map (λ bytes. bytes.now) result ≡ taken self.now };
}
