//! The program: it makes the words and calls `pgs_run_sessions::run_sessions` over standard input and output.
//!
//! What stands here is `run_program`, which is all but the system's handles and says all that is promised, over every reader and writer.
//! What a terminal or a pipe holds is told by no clause.
#![tactic(auto)]

mod program;

use pgs_base::Words;
use pgs_program::{Ended, Program, Ran, start};
use pgs_world::{Source, World};
use pgs_world_files::{FileWorld, Handle, StoreFile, SystemFile};
use pgs_world_streams::{StdinSource, SteadyWrite};
use program::run_program;
use std::collections::hash_map::RandomState;
use std::env;
use std::io::{Read, Stdin, Stdout, Write};
use std::process::ExitCode;

// Its world has no area, so no file is opened.
type Over<'a> = Ran<Stdin, Stdout, StoreFile<SystemFile<'a, HostRuntime>>>;

struct Sessions;

impl Program<HostRuntime> for Sessions {
    ghost use Rattle.std.specs.Prelude.{◌&&◌};
    ghost use Rattle.pgs_base.specs.declared.seed.Seed.{Seed};
    ghost use Rattle.pgs_program.specs.Outside.{HasNoFiles};
    ghost use Rattle.pgs_program.specs.Program.{EndsRunOf};
    ghost use Rattle.pgs_run_sessions.specs.Spec.{spec_for};

    ghost runs = { λ words status. (seed : Seed) × EndsRunOf (spec_for words) HasNoFiles
        (record {
          remaining = ⟦<Stdin as Read>⟧.remaining;
          told = record {
            tells_output = ⟦<Stdout as SteadyWrite>⟧.tells;
            written = ⟦<Stdout as Write>⟧.contents;
            tells_bytes = ⟦<StoreFile<SystemFile<'static, HostRuntime>> as Handle>⟧.tells;
            bytes = ⟦<StoreFile<SystemFile<'static, HostRuntime>> as Handle>⟧.contents;
            tells_stops = ⟦<Stdout as SteadyWrite>⟧.tells_stops && ⟦<StoreFile<SystemFile<'static, HostRuntime>> as Handle>⟧.tells_stops;
            output_past = ⟦<Stdout as SteadyWrite>⟧.past;
            file_past = ⟦<StoreFile<SystemFile<'static, HostRuntime>> as Handle>⟧.past;
          };
          read_made = ⟦<StdinSource<Stdin> as Source>⟧.read_made;
          failed = ⟦<FileWorld<Stdout, StoreFile<SystemFile<'static, HostRuntime>>> as World>⟧.failed;
        })
        seed status };

    const NAME: &'static str = "pgsession";

    const USAGE: &'static str = "usage:
  pgsession run < INPUT    answers the events of many sessions behind a schema and a line ---; stores nothing
docs/GUIDE.md teaches it, docs/FORMATS.md has every printed text
";

    fn run(rt: &HostRuntime, words: &Words) -> Ended {
        let drawn = RandomState::new(rt);
        let ran: Over<'_> = run_program(rt.alloc(), words, rt.stdin(), rt.stdout(), drawn);
        ran.ended()
    }
}

fn main(rt: HostRuntime) -> ExitCode {
    start::<Sessions, HostRuntime>(&rt, env::args(&rt))
}
