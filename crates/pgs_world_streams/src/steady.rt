ghost use Rattle.std.specs.Prelude.{◌≡◌, ℕ, List, Bool, Result, IsTrue, true, false, ⊤, is_ok, refl};
ghost use Rattle.std.specs.Io.{ReadsAtMost, WritesAtMost};
ghost use Rattle.std.specs.Io.KnownBytes.{Keeps, ReadConsumes, WriteAppends};
ghost use Rattle.std.specs.Option.{is_some, option_map};
ghost use Rattle.std.specs.declared.io.Error.{Error};
ghost use Rattle.pgs_world_streams.specs.Past.{Past, no_past};
ghost use Rattle.pgs_world_streams.specs.Written.{HasWriterStops};

use std::alloc::Global;
use std::fs::File;
use std::io::{self, Read, Stdin, Stdout, Write};

/// A reader that always tells the bytes that are left, or never does, and whose each answer is a fact.
pub trait SteadyRead: Read {
    /// Whether it tells the bytes that are left.
    ghost tells: { Bool } = { false };

    /// What one read put into its buffer, and answered.
    ghost read_gives: { Self → List ℕ → Result ℕ Error → Self → Type 0 } = { λ _ _ _ _. ⊤ };

    /// One read.
    fn read_once(&mut self, buf: &mut [u8]) -> io::Result<usize>
        ensures bound { ReadsAtMost result buf.new }
        ensures bytes { ReadConsumes (Self.remaining self.old) (Self.remaining self.new) result buf.new }
        ensures gives { read_gives self.old buf.new result self.new };

    /// It tells them always, or never.
    ghost steady: { (reader : Self) → is_some (Self.remaining reader) ≡ tells };
}

/// A writer that always tells the bytes that it holds, or never does, and whose each answer is a fact.
///
/// Each call is handed the moment at which it begins, by the count of the world that it is a part of. A writer that tells what a stop may
/// leave of its bytes says by a law (`stops`) what each answer says of that; it keeps the moments, so that what a stop leaves of other
/// parts of the world goes together with it.
pub trait SteadyWrite: Write {
    /// Whether it tells the bytes that it holds.
    ghost tells: { Bool } = { false };

    /// Whether it tells what a stop may leave of them.
    ghost tells_stops: { Bool } = { false };

    /// What a stop may leave of them, and may have left, where it tells.
    ghost past: { Self → Past } = { λ _. no_past };

    /// What one write of some bytes answered, which began at a moment.
    ghost write_gives: { ℕ → Self → List ℕ → Result ℕ Error → Self → Type 0 } = { λ _ _ _ _ _. ⊤ };

    /// Whether a flush succeeded, which began at a moment.
    ghost flush_gives: { ℕ → Self → Bool → Self → Type 0 } = { λ _ _ _ _. ⊤ };

    /// A moment behind all its calls; 0 where it keeps none.
    fn until(&self) -> u64
        ensures { result ≡ (past self.now).until };

    /// The bytes that it holds, where it tells them, else `None`.
    fn shown(&self) -> Option<&[u8]>
        ensures { option_map (λ bytes. bytes.now) result ≡ Self.contents self.now };

    /// One write.
    fn write_once(&mut self, moment: u64, bytes: &[u8]) -> io::Result<usize>
        ensures bound { WritesAtMost result bytes.now }
        ensures bytes { WriteAppends (Self.contents self.old) (Self.contents self.new) result bytes.now }
        ensures gives { write_gives moment self.old bytes.now result self.new };

    /// One flush.
    fn flush_once(&mut self, moment: u64) -> io::Result<()>
        ensures bytes { Keeps (Self.contents self.old) (Self.contents self.new) }
        ensures gives { flush_gives moment self.old (is_ok result) self.new };

    /// It tells them always, or never.
    ghost steady: { (writer : Self) → is_some (Self.contents writer) ≡ tells };

    /// Where it tells what a stop may leave, each answer is one about that.
    ghost stops: { IsTrue tells_stops → HasWriterStops Self.contents past write_gives flush_gives };
}

impl SteadyRead for Stdin {
    ghost steady = { λ _. refl };

    fn read_once(&mut self, buf: &mut [u8]) -> io::Result<usize> {
        self.read(buf)
    }
}

impl SteadyRead for &[u8] {
    ghost tells = { true };

    ghost steady = { λ _. refl };

    fn read_once(&mut self, buf: &mut [u8]) -> io::Result<usize> {
        self.read(buf)
    }
}

impl SteadyWrite for Stdout {
    ghost use Rattle.pgs_world_streams.specs.Past.{tells_no_stops};

    ghost steady = { λ _. refl };

    ghost stops = { tells_no_stops };

    fn until(&self) -> u64 {
        0
    }

    fn shown(&self) -> Option<&[u8]> {
        None
    }

    fn write_once(&mut self, _moment: u64, bytes: &[u8]) -> io::Result<usize> {
        self.write(bytes)
    }

    fn flush_once(&mut self, _moment: u64) -> io::Result<()> {
        self.flush()
    }
}

impl SteadyWrite for File {
    ghost use Rattle.pgs_world_streams.specs.Past.{tells_no_stops};

    ghost steady = { λ _. refl };

    ghost stops = { tells_no_stops };

    fn until(&self) -> u64 {
        0
    }

    fn shown(&self) -> Option<&[u8]> {
        None
    }

    fn write_once(&mut self, _moment: u64, bytes: &[u8]) -> io::Result<usize> {
        self.write(bytes)
    }

    fn flush_once(&mut self, _moment: u64) -> io::Result<()> {
        self.flush()
    }
}

impl SteadyWrite for Vec<u8> {
    ghost tells = { true };

    ghost use Rattle.pgs_world_streams.specs.Past.{tells_no_stops};

    ghost steady = { λ _. refl };

    ghost stops = { tells_no_stops };

    fn until(&self) -> u64 {
        0
    }

    fn shown(&self) -> Option<&[u8]> {
        Some(self.as_slice())
    }

    fn write_once(&mut self, _moment: u64, bytes: &[u8]) -> io::Result<usize> {
        self.write(bytes)
    }

    fn flush_once(&mut self, _moment: u64) -> io::Result<()> {
        self.flush()
    }
}
