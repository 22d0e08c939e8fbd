ghost use Rattle.std.specs.Prelude.{◌≡◌, ℕ, List};
ghost use Rattle.pgs_command.specs.declared.status.Status.{Status};
ghost use Rattle.pgs_program.specs.Exit.{ExitsAs, ExitsAsRun};

use crate::ending::tell_ending;
use crate::{Ended, exit_code};
use pgs_base::{Memory, Words};
use pgs_world_streams::{StandardNumbers, program_words};
use std::env::Args;
use std::fs::File;
use std::io;
use std::process::ExitCode;
use std::rt::Files;

/// A program over the system's handles: its name, how it is used, and what it does with its words.
pub trait Program<R> {
    /// What is promised of a run of words that ended with a status.
    ghost runs: { List (List ℕ) → Status → Type 0 };

    const NAME: &'static str;

    const USAGE: &'static str;

    /// Runs words over the standard streams.
    fn run(rt: &R, words: &Words) -> Ended
        ensures { runs words.now result.status };
}

// Runs words, tells why they ended so, and gives the exit code.
fn run_and_tell<P: Program<R>, R: Eprint>(
    rt: &R,
    words: &Words,
    numbers: &StandardNumbers,
) -> ExitCode
    ensures { ExitsAsRun P.runs words.now result }
{
    let ended = P::run(rt, words);
    tell_ending(rt, P::NAME, P::USAGE, words, ended, numbers);
    exit_code(ended.status)
}

/// Runs a program with the arguments that it was started with, tells on standard error why it ended so, and gives its exit code: the
/// number of the status of a run of the words behind the program's name, or 8 where there was no memory for these.
pub fn start<P: Program<R>, R: Files<File = File> + Eprint + AllocGlobal>(
    rt: &R,
    arguments: io::Result<Args>,
) -> ExitCode
    ensures { ExitsAs P.runs arguments result }
{
    // Before anything is opened: no file gets the number of a stream.
    let numbers = StandardNumbers::take(rt);
    match program_words(rt.alloc(), arguments) {
        Ok(words) => run_and_tell::<P, R>(rt, &words, &numbers),
        Err(Memory) => {
            let no_words = Words::new(rt.alloc());
            let ended = Ended::unbegun();
            tell_ending(rt, P::NAME, P::USAGE, &no_words, ended, &numbers);
            exit_code(ended.status)
        }
    }
}
