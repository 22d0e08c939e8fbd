//! The program: it makes the words, opens the files that they name, and calls `pgs_run::run` over standard input and output.
//!
//! What stands here is `run_program`, which is all but the system's handles: it opens what the words name and runs them, and says of both
//! all that is promised, over every reader, writer and opening. What a terminal, a pipe or a file holds is told by no clause.
#![tactic(auto)]

mod opening;
mod program;

use pgs_base::{Memory, Words};
use pgs_program::{Ended, Program, start, tell_lost_feeds};
use pgs_world::{Feed, Source, World};
use pgs_world_files::{FileFeed, FileWorld, Handle, Opening, StoreFile, SystemFile, SystemOpening};
use pgs_world_streams::{StdinSource, SteadyWrite};
use program::run_program;
use std::collections::hash_map::RandomState;
use std::env;
use std::fs::File;
use std::io::{Read, Stdin, Stdout, Write};
use std::process::ExitCode;

// The place of the first word FEED, behind `apply` and NAME.
const FIRST_FEED: usize = 2;

struct Guard;

impl Program<HostRuntime> for Guard {
    ghost use Rattle.std.specs.Prelude.{◌&&◌};
    ghost use Rattle.pgguard.specs.Program.{EndsAs};

    ghost runs = { λ words status. EndsAs ⟦<SystemOpening<'static, HostRuntime> as Opening>⟧.area_gives ⟦<SystemOpening<'static, HostRuntime> as Opening>⟧.feed_gives
        (record {
          remaining = ⟦<Stdin as Read>⟧.remaining;
          told = record {
            tells_output = ⟦<Stdout as SteadyWrite>⟧.tells;
            written = ⟦<Stdout as Write>⟧.contents;
            tells_bytes = ⟦<StoreFile<SystemFile<'static, HostRuntime>> as Handle>⟧.tells;
            bytes = ⟦<StoreFile<SystemFile<'static, HostRuntime>> as Handle>⟧.contents;
            tells_stops = ⟦<Stdout as SteadyWrite>⟧.tells_stops && ⟦<StoreFile<SystemFile<'static, HostRuntime>> as Handle>⟧.tells_stops;
            output_past = ⟦<Stdout as SteadyWrite>⟧.past;
            file_past = ⟦<StoreFile<SystemFile<'static, HostRuntime>> as Handle>⟧.past;
          };
          read_made = ⟦<StdinSource<Stdin> as Source>⟧.read_made;
          failed = ⟦<FileWorld<Stdout, StoreFile<SystemFile<'static, HostRuntime>>> as World>⟧.failed;
        })
        (record { taken = ⟦<FileFeed<File> as Feed>⟧.taken; put_made = ⟦<FileFeed<File> as Feed>⟧.put_made })
        words status };

    const NAME: &'static str = "pgguard";

    // A line for each command with its words.
    const USAGE: &'static str = "usage:
  pgguard try < INPUT                    decides lines of transactions behind a schema and a line ---; stores nothing
  pgguard validate < INPUT               lists the violations of the graph that the lines make; stores nothing
  pgguard load NAME < SCHEMA             makes the store NAME, in the files NAME.a and NAME.b
  pgguard apply NAME [FEED..] < LINES    decides lines on the store, and puts each commit into the files FEED
  pgguard recover NAME                   prints the store as a schema, a line ---, and lines
  pgguard explain NAME ELEM              prints types and key values of an element, n1 or e1
  pgguard gen START COUNT                decides so many transactions that are made from a number
  pgguard checkpoint NAME                writes the store whole into its other file
  pgguard evolve NAME < SCHEMA           puts the store under another schema, where its graph conforms to it
  pgguard contain < SCHEMAS              tells whether each type of a schema is contained in a second one, behind a line ---
docs/GUIDE.md teaches all of them, docs/FORMATS.md has every printed text
";

    fn run(rt: &HostRuntime, words: &Words) -> Ended {
        let mut system = SystemOpening::new(rt, rt.alloc());
        let drawn = RandomState::new(rt);
        match run_program(
            rt.alloc(),
            words,
            &mut system,
            rt.stdin(),
            rt.stdout(),
            drawn,
        ) {
            Ok(ran) => {
                tell_lost_feeds(rt, Self::NAME, words, FIRST_FEED, &ran.opened.feeds);
                ran.ended()
            }
            Err(Memory) => Ended::unbegun(),
        }
    }
}

fn main(rt: HostRuntime) -> ExitCode {
    start::<Guard, HostRuntime>(&rt, env::args(&rt))
}
