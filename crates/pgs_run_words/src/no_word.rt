ghost use Rattle.std.specs.Prelude.{◌≡◌, IfOk, map, true};
ghost use Rattle.clap.specs.Words.{app_of};
ghost use Rattle.pgs_run_words.specs.Further.{are_plain, no_word, is_none};

use crate::asking::bare_command;
use clap::Command;
use clap::error::ErrorKind;
use pgs_base::Memory;
use std::alloc::Global;

// A command without further words.
fn no_word_command<'a>(alloc: Global) -> Command<'a>
    ensures { app_of result ≡ no_word }
{
    bare_command(alloc, "none")
}

/// Whether there is no further word.
pub fn read_no_word<'a>(alloc: Global, words: &'a [&'a str]) -> Result<bool, Memory>
    requires { are_plain (map (λ w. w.now) words.now) ≡ true }
    ensures { IfOk result (λ r. r ≡ is_none (map (λ w. w.now) words.entry.now)) }
{
    let command = no_word_command(alloc);
    match command.try_get_matches_from(words) {
        Ok(_) => Ok(true),
        Err(error) => match error.kind() {
            ErrorKind::OutOfMemory => Err(Memory),
            _ => Ok(false),
        },
    }
}
