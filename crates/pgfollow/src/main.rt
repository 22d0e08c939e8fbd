//! The program: it makes the words, and calls `pgs_run_follow::run_follow` over standard input and output. It opens no file.
//!
//! What stands here is `run_program`, which is all but the system's handles: it runs words over a reader and a writer, and says all that is
//! promised, over every one of them. What a terminal, a pipe or a file holds is told by no clause.
#![tactic(auto)]

mod program;

use pgs_base::Words;
use pgs_program::{Ended, Program, Ran, start};
use pgs_world::{Source, World};
use pgs_world_files::{FileWorld, Handle, StoreFile, SystemFile};
use pgs_world_streams::{StdinSource, SteadyWrite};
use program::run_program;
use std::env;
use std::io::{Read, Stdin, Stdout, Write};
use std::process::ExitCode;

// Its world has no area, so no file is opened.
type Over<'a> = Ran<Stdin, Stdout, StoreFile<SystemFile<'a, HostRuntime>>>;

struct Follower;

impl Program<HostRuntime> for Follower {
    ghost use Rattle.std.specs.Prelude.{◌&&◌};
    ghost use Rattle.pgs_base.specs.declared.seed.Seed.TheVariants.{Fixed};
    ghost use Rattle.pgs_program.specs.Outside.{HasNoFiles};
    ghost use Rattle.pgs_program.specs.Program.{EndsRunOf};
    ghost use Rattle.pgs_run_follow.specs.Spec.{spec_for};

    ghost runs = { λ words status. EndsRunOf (spec_for words) HasNoFiles
        (record {
          remaining = ⟦<Stdin as Read>⟧.remaining;
          told = record {
            tells_output = ⟦<Stdout as SteadyWrite>⟧.tells;
            written = ⟦<Stdout as Write>⟧.contents;
            tells_bytes = ⟦<StoreFile<SystemFile<'static, HostRuntime>> as Handle>⟧.tells;
            bytes = ⟦<StoreFile<SystemFile<'static, HostRuntime>> as Handle>⟧.contents;
            tells_stops = ⟦<Stdout as SteadyWrite>⟧.tells_stops && ⟦<StoreFile<SystemFile<'static, HostRuntime>> as Handle>⟧.tells_stops;
            output_past = ⟦<Stdout as SteadyWrite>⟧.past;
            file_past = ⟦<StoreFile<SystemFile<'static, HostRuntime>> as Handle>⟧.past;
          };
          read_made = ⟦<StdinSource<Stdin> as Source>⟧.read_made;
          failed = ⟦<FileWorld<Stdout, StoreFile<SystemFile<'static, HostRuntime>>> as World>⟧.failed;
        })
        Fixed status };

    const NAME: &'static str = "pgfollow";

    const USAGE: &'static str = "usage:
  pgfollow follow < FEED    reads a feed to its end, and prints how far it was followed and the graph of its commits
docs/GUIDE.md teaches it, docs/FORMATS.md has every printed text
";

    fn run(rt: &HostRuntime, words: &Words) -> Ended {
        let ran: Over<'_> = run_program(rt.alloc(), words, rt.stdin(), rt.stdout());
        ran.ended()
    }
}

fn main(rt: HostRuntime) -> ExitCode {
    start::<Follower, HostRuntime>(&rt, env::args(&rt))
}
