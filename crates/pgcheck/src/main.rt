//! The program: it makes the words, opens the store that they name to be read, and calls `pgs_run_check::run_check` over standard input and
//! output.
//!
//! What stands here is `run_program`, which is all but the system's handles: it runs words over a reader, a writer and what an opening gives,
//! and says all that is promised, over every one of them. What a terminal, a pipe or a file holds is told by no clause.
#![tactic(auto)]

mod program;

use pgs_base::{Memory, Words};
use pgs_program::{Ended, Program, start};
use pgs_world::{Source, World};
use pgs_world_files::{FileWorld, Handle, Opening, StoreFile, SystemFile, SystemOpening};
use pgs_world_streams::{StdinSource, SteadyWrite};
use program::run_program;
use std::collections::hash_map::RandomState;
use std::env;
use std::io::{Read, Stdin, Stdout, Write};
use std::process::ExitCode;

struct Checker;

impl Program<HostRuntime> for Checker {
    ghost use Rattle.std.specs.Prelude.{◌&&◌};
    ghost use Rattle.pgcheck.specs.Program.{EndsAs};

    ghost runs = { λ words status. EndsAs ⟦<SystemOpening<'static, HostRuntime> as Opening>⟧.area_gives
        (record {
          remaining = ⟦<Stdin as Read>⟧.remaining;
          told = record {
            tells_output = ⟦<Stdout as SteadyWrite>⟧.tells;
            written = ⟦<Stdout as Write>⟧.contents;
            tells_bytes = ⟦<StoreFile<SystemFile<'static, HostRuntime>> as Handle>⟧.tells;
            bytes = ⟦<StoreFile<SystemFile<'static, HostRuntime>> as Handle>⟧.contents;
            tells_stops = ⟦<Stdout as SteadyWrite>⟧.tells_stops && ⟦<StoreFile<SystemFile<'static, HostRuntime>> as Handle>⟧.tells_stops;
            output_past = ⟦<Stdout as SteadyWrite>⟧.past;
            file_past = ⟦<StoreFile<SystemFile<'static, HostRuntime>> as Handle>⟧.past;
          };
          read_made = ⟦<StdinSource<Stdin> as Source>⟧.read_made;
          failed = ⟦<FileWorld<Stdout, StoreFile<SystemFile<'static, HostRuntime>>> as World>⟧.failed;
        })
        words status };

    const NAME: &'static str = "pgcheck";

    const USAGE: &'static str = "usage:
  pgcheck schema < TEXT           reads a schema text to its end, and prints what its guard asks and what in it does nothing
  pgcheck try < INPUT             decides lines of transactions behind a schema and a line ---, and explains each refusal; stores nothing
  pgcheck evolve < SCHEMAS        reads two schema texts, a line --- between them, and prints what the second one changes, and whether it is safe
  pgcheck evolve NAME < SCHEMA    prints what a schema changes for the store NAME, and what in its graph it doesn't allow; changes nothing
  pgcheck apply NAME < LINES      decides lines on the store NAME, and explains each refusal; changes nothing
docs/GUIDE.md teaches it, docs/FORMATS.md has every printed text
";

    fn run(rt: &HostRuntime, words: &Words) -> Ended {
        let mut system = SystemOpening::new(rt, rt.alloc());
        let drawn = RandomState::new(rt);
        match run_program(
            rt.alloc(),
            words,
            &mut system,
            rt.stdin(),
            rt.stdout(),
            drawn,
        ) {
            Ok(ran) => ran.ended(),
            Err(Memory) => Ended::unbegun(),
        }
    }
}

fn main(rt: HostRuntime) -> ExitCode {
    start::<Checker, HostRuntime>(&rt, env::args(&rt))
}
