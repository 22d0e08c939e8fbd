ghost use Rattle.std.specs.Prelude.{◌&&◌};
ghost use Rattle.pgs_run_follow.specs.Spec.{spec_for};
ghost use Rattle.pgs_program.specs.Outside.{HasNoFiles};
ghost use Rattle.pgs_program.specs.Program.{IsRunOf};
ghost use Rattle.pgs_base.specs.declared.seed.Seed.TheVariants.{Fixed};

use pgs_base::{Seed, Words};
use pgs_program::{Outside, Ran};
use pgs_run_follow::run_follow;
use pgs_world::{Source, World};
use pgs_world_files::{FileWorld, Handle};
use pgs_world_streams::{StdinSource, SteadyRead, SteadyWrite};
use std::alloc::Global;

/// Runs words over a reader and a writer: the program but for the system's handles. No file is opened.
pub fn run_program<R: SteadyRead + Drop, W: SteadyWrite + Drop, H: Handle>(
    alloc: Global,
    words: &Words,
    reader: R,
    writer: W,
) -> Ran<R, W, H>
    ensures { IsRunOf (spec_for words.now) HasNoFiles
        (record {
          remaining = R.remaining;
          told = record {
            tells_output = W.tells;
            written = W.contents;
            tells_bytes = H.tells;
            bytes = H.contents;
            tells_stops = W.tells_stops && H.tells_stops;
            output_past = W.past;
            file_past = H.past;
          };
          read_made = ⟦<StdinSource<R> as Source>⟧.read_made;
          failed = ⟦<FileWorld<W, H> as World>⟧.failed;
        })
        reader writer Fixed result }
{
    let mut outside = Outside::without_files(reader, writer, Seed::Fixed);
    let ended = run_follow(alloc, words, &mut outside.source, &mut outside.world);
    Ran {
        status: ended.status(),
        outside,
    }
}
