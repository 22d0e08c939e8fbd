ghost use Rattle.std.specs.Prelude.{◌≡◌, ℕ, List, [], Bool, Result, ⊤, IsTrue, false, is_ok};
ghost use Rattle.std.specs.Io.{ReadsAtMost, WritesAtMost};
ghost use Rattle.std.specs.declared.io.Error.{Error};
ghost use Rattle.pgs_world_files.specs.NamedLaws.{HasNamedStops, IsNamedOver};
ghost use Rattle.pgs_world_streams.specs.Past.{Past, no_past};

use std::io;

/// An open file and its name. Each call is one of the system's, and its answer a fact that other code can't make up.
///
/// Each call is handed the moment at which it begins, as those of a `Handle` are. A file that tells its bytes says by a law (`over`) what
/// each answer says of them, and one that tells what a stop may leave of it says by another (`stops`) what each says of that: there a write
/// of the one byte that stands at its place leaves nothing new.
pub trait NamedFile: Drop {
    /// Whether it tells the bytes that it holds.
    ghost tells: { Bool } = { false };

    /// The bytes that it holds, where it tells them.
    ghost contents: { Self → List ℕ } = { λ _. [] };

    /// Whether it tells what a stop may leave of it.
    ghost tells_stops: { Bool } = { false };

    /// What a stop may leave of it, and may have left, where it tells.
    ghost past: { Self → Past } = { λ _. no_past };

    /// What a question for the length answered, which began at a moment.
    ghost length_gives: { ℕ → Self → Result ℕ Error → Self → Type 0 } = { λ _ _ _ _. ⊤ };

    /// What one read from a place on, which began at a moment, put into its buffer, and answered.
    ghost read_gives: { ℕ → Self → ℕ → List ℕ → Result ℕ Error → Self → Type 0 } = { λ _ _ _ _ _ _. ⊤ };

    /// What one write of some bytes from a place on answered, which began at a moment.
    ghost write_gives: { ℕ → Self → ℕ → List ℕ → Result ℕ Error → Self → Type 0 } = { λ _ _ _ _ _ _. ⊤ };

    /// Whether a cut to a length succeeded, which began at a moment.
    ghost cut_gives: { ℕ → Self → ℕ → Bool → Self → Type 0 } = { λ _ _ _ _ _. ⊤ };

    /// Whether a sync succeeded, which began at a moment.
    ghost sync_gives: { ℕ → Self → Bool → Self → Type 0 } = { λ _ _ _ _. ⊤ };

    /// Whether the file of the name was found to be this one, and as long as asked, by a question that began at a moment.
    ghost name_gives: { ℕ → Self → ℕ → Bool → Self → Type 0 } = { λ _ _ _ _ _. ⊤ };

    /// What opening it for writing too left, which began at a moment.
    ghost reopen_gives: { ℕ → Self → Self → Type 0 } = { λ _ _ _. ⊤ };

    /// A moment behind all its calls; 0 where it keeps none.
    fn until(&self) -> u64
        ensures { result ≡ (past self.now).until };

    /// The length, in bytes.
    fn ask_length(&mut self, moment: u64) -> io::Result<u64>
        ensures gives { length_gives moment self.old result self.new };

    /// Reads into the front of the buffer what stands from a place on, and says how many bytes; 0 at the end.
    fn read_from(&mut self, moment: u64, at: u64, buf: &mut [u8]) -> io::Result<usize>
        ensures bound { ReadsAtMost result buf.new }
        ensures gives { read_gives moment self.old at buf.new result self.new };

    /// Writes a front of the bytes from a place on, and says how many it took.
    fn write_from(&mut self, moment: u64, at: u64, bytes: &[u8]) -> io::Result<usize>
        ensures bound { WritesAtMost result bytes.now }
        ensures gives { write_gives moment self.old at bytes.now result self.new };

    /// Makes the file as long as asked.
    fn cut_to(&mut self, moment: u64, len: u64) -> io::Result<()>
        ensures gives { cut_gives moment self.old len (is_ok result) self.new };

    /// Waits until what was written stands on the disk.
    fn sync_bytes(&mut self, moment: u64) -> io::Result<()>
        ensures gives { sync_gives moment self.old (is_ok result) self.new };

    /// An error where the file of the name is another one, or none, or has not as many bytes.
    fn check_name(&mut self, moment: u64, len: u64) -> io::Result<()>
        ensures gives { name_gives moment self.old len (is_ok result) self.new };

    /// Makes a file that is open for reading alone open for writing too, where that may be.
    fn open_to_write(&mut self, moment: u64)
        ensures gives { reopen_gives moment self.old self.new };

    /// Where it tells its bytes, each answer is one about them.
    ghost over: { IsTrue tells → (moment : ℕ) → IsNamedOver contents (length_gives moment) (read_gives moment) (write_gives moment) (cut_gives moment) (sync_gives moment) (name_gives moment) (reopen_gives moment) };

    /// Where it tells what a stop may leave, each answer is one about that.
    ghost stops: { IsTrue tells_stops → HasNamedStops contents past length_gives read_gives write_gives cut_gives sync_gives name_gives reopen_gives };
}
