ghost use Rattle.std.specs.Prelude.{◌≡◌, ◌<◌, ◌≤◌, length, take, Ok, IfOk, OnOk, OnErr};
ghost use Rattle.std.specs.Result.{result_ok};
ghost use Rattle.std.specs.Io.KnownBytes.{ReadConsumes};
ghost use Rattle.pgs_world.specs.Count.{RoseByOne, raised};
ghost use Rattle.pgs_world.specs.Source.{Takes, IsAtEnd};
ghost use Rattle.pgs_world_streams.specs.Given.{ReadMade, ReadsOnce};

use crate::{Cause, SteadyRead};
use pgs_world::{Source, SourceFault};

/// A reader as a source. It tells of the bytes that are left what the reader tells, counts its faults, and keeps the cause of the last.
#[derive(Drop)]
pub struct StdinSource<R: SteadyRead> {
    reader: R,
    faults: u64,
    cause: Option<Cause>,
}

impl<R: SteadyRead> StdinSource<R> {
    /// The reader as a source without a fault.
    pub fn new(reader: R) -> StdinSource<R>
        ensures reader { result.reader ≡ reader }
        ensures left { ⟦<StdinSource<R> as Source>⟧.left result ≡ R.remaining reader }
        ensures faults { ⟦<StdinSource<R> as Source>⟧.faults result ≡ 0 }
    {
        StdinSource {
            reader,
            faults: 0,
            cause: None,
        }
    }

    /// Why the last fault came, if there was one.
    pub fn cause(&self) -> Option<Cause> {
        self.cause
    }
}

impl<R: SteadyRead> Source for StdinSource<R> {
    ghost left = { λ source. R.remaining source.reader };

    ghost faults = { λ source. source.faults };

    ghost read_made = { λ old asked answer new. ReadMade R.read_gives old.reader asked answer new.reader };

    /// One read of the reader, or a counted fault. A read that was interrupted is a fault too.
    #[tactic(auto, using(crate::proofs::Knowing::takes_known, crate::proofs::Knowing::kept_known, crate::proofs::Knowing::end_known))]
    fn read(&mut self, buf: &mut [u8]) -> Result<usize, SourceFault>
        ensures read { ReadConsumes (R.remaining self.old.reader) (R.remaining self.new.reader) result buf.new }
        ensures once { ReadsOnce R.read_gives self.old.reader buf.new result self.new.reader }
        ensures raised { OnErr result (self.new.faults ≡ raised self.old.faults) }
        ensures made { ReadMade R.read_gives self.old.reader (length buf.old) (result_ok result) self.new.reader }

        // What every source says.
        ensures within { IfOk result (λ count. count ≤ length buf.new) }
        ensures taken { IfOk result (λ count. Takes (R.remaining self.old.reader) (R.remaining self.new.reader) (take count buf.new)) }
        ensures end { 0 < length buf.old → result ≡ Ok 0 → IsAtEnd (R.remaining self.old.reader) }
        ensures kept { OnErr result (R.remaining self.new.reader ≡ R.remaining self.old.reader) }
        ensures cause { OnErr result (RoseByOne self.old.faults self.new.faults) }
        ensures no_cause { OnOk result (self.new.faults ≡ self.old.faults) }
        ensures faults_stay { self.old.faults ≤ self.new.faults }
    {
        match self.reader.read_once(buf) {
            Ok(count) => Ok(count),
            Err(error) => {
                self.faults = self.faults.saturating_add(1);
                self.cause = Some(Cause::of(&error));
                Err(SourceFault)
            }
        }
    }
}
