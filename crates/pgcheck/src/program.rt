ghost use Rattle.std.specs.Prelude.{IfOk, ◌&&◌};
ghost use Rattle.pgcheck.specs.Program.{IsRunOfWords};
ghost use Rattle.pgs_program.specs.Outside.{seed_of};

use pgs_base::{Memory, Words};
use pgs_program::{Outside, Ran, areas_of, seed_of};
use pgs_run_check::{run_check, store_of};
use pgs_world::{Source, World};
use pgs_world_files::{FileWorld, Opening, StoreAccess};
use pgs_world_streams::{StdinSource, SteadyRead, SteadyWrite};
use std::alloc::Global;
use std::collections::hash_map::RandomState;
use std::io;

/// Runs words over a reader, a writer and the store that they name, which is opened to be read: the program but for the system's handles.
/// `Memory` where there was none to open it; nothing is put then.
pub fn run_program<O: Opening, R: SteadyRead + Drop, W: SteadyWrite + Drop>(
    alloc: Global,
    words: &Words,
    system: &mut O,
    reader: R,
    writer: W,
    drawn: io::Result<RandomState>,
) -> Result<Ran<R, W, O::Area>, Memory>
    ensures { IfOk result (IsRunOfWords O.area_gives
        (record {
          remaining = R.remaining;
          told = record {
            tells_output = W.tells;
            written = W.contents;
            tells_bytes = O.Area.tells;
            bytes = O.Area.contents;
            tells_stops = W.tells_stops && O.Area.tells_stops;
            output_past = W.past;
            file_past = O.Area.past;
          };
          read_made = ⟦<StdinSource<R> as Source>⟧.read_made;
          failed = ⟦<FileWorld<W, O::Area> as World>⟧.failed;
        })
        words.now reader writer (seed_of drawn)) }
{
    let areas = areas_of(system, alloc, store_of(words), StoreAccess::Read)?;
    let mut outside = Outside::new(areas, reader, writer, seed_of(drawn));
    let status = run_check(alloc, words, &mut outside.source, &mut outside.world);
    Ok(Ran { status, outside })
}
