ghost use Rattle.std.specs.Prelude.{◌≡◌, IfOk, ◌&&◌};
ghost use Rattle.pgguard.specs.Program.{IsRunOf};
ghost use Rattle.pgs_program.specs.Outside.{seed_of};

use crate::opening::{Opened, open};
use pgs_base::{Memory, Words};
use pgs_program::Ended;
use pgs_run::{Status, run};
use pgs_world::{Feed, Source, World};
use pgs_world_files::{FileFeed, FileWorld, Handle, Opening};
use pgs_world_streams::{StdinSource, SteadyRead, SteadyWrite};
use std::alloc::Global;
use std::collections::hash_map::RandomState;
use std::io;

/// How a run ended, and what it went over.
#[derive(Drop)]
pub struct Ran<R: SteadyRead, W: SteadyWrite, H: Handle, L: SteadyWrite + Drop> {
    pub status: Status,
    pub opened: Opened<R, W, H, L>,
}

impl<R: SteadyRead, W: SteadyWrite, H: Handle, L: SteadyWrite + Drop> Ran<R, W, H, L> {
    /// How it ended, and why its faults came.
    pub fn ended(&self) -> Ended
        ensures { result.status ≡ self.now.status }
    {
        self.opened.outside.ended(self.status)
    }
}

/// Runs words over a reader, a writer and the files that they name: the program but for the system's handles. `Memory` where there was
/// none to open them; nothing is put then.
pub fn run_program<O: Opening, R: SteadyRead + Drop, W: SteadyWrite + Drop>(
    alloc: Global,
    words: &Words,
    system: &mut O,
    reader: R,
    writer: W,
    drawn: io::Result<RandomState>,
) -> Result<Ran<R, W, O::Area, O::Line>, Memory>
    ensures { IfOk result (IsRunOf O.area_gives O.feed_gives
        (record {
          remaining = R.remaining;
          told = record {
            tells_output = W.tells;
            written = W.contents;
            tells_bytes = O.Area.tells;
            bytes = O.Area.contents;
            tells_stops = W.tells_stops && O.Area.tells_stops;
            output_past = W.past;
            file_past = O.Area.past;
          };
          read_made = ⟦<StdinSource<R> as Source>⟧.read_made;
          failed = ⟦<FileWorld<W, O::Area> as World>⟧.failed;
        })
        (record { taken = ⟦<FileFeed<O::Line> as Feed>⟧.taken; put_made = ⟦<FileFeed<O::Line> as Feed>⟧.put_made })
        words.now reader writer (seed_of drawn)) }
{
    let mut opened = open(system, alloc, words, reader, writer, drawn)?;
    let status = run(
        alloc,
        words,
        &mut opened.outside.source,
        &mut opened.outside.world,
        &mut opened.feeds,
    );
    Ok(Ran { status, opened })
}
