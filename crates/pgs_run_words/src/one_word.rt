ghost use Rattle.std.specs.Prelude.{◌≡◌, IfOk, map, option_map, true};
ghost use Rattle.clap.specs.Words.{app_of};
ghost use Rattle.pgs_run_words.specs.Further.{are_plain, one_word, one_of};

use crate::asking::{bare_command, required_word};
use clap::Command;
use clap::error::ErrorKind;
use pgs_base::Memory;
use std::alloc::{AllocError, Global};

// A command with one further word.
fn one_word_command<'a>(alloc: Global) -> Result<Command<'a>, AllocError>
    ensures { IfOk result (λ c. app_of c ≡ one_word) }
{
    bare_command(alloc, "one").arg(required_word(alloc, "NAME"))
}

/// The one further word. `None` exactly where there isn't one.
pub fn read_one_word<'a>(alloc: Global, words: &'a [&'a str]) -> Result<Option<&'a str>, Memory>
    requires { are_plain (map (λ w. w.now) words.now) ≡ true }
    ensures { IfOk result (λ r. option_map (λ s. s.now) r ≡ one_of (map (λ w. w.now) words.entry.now)) }
{
    let command = one_word_command(alloc)?;
    match command.try_get_matches_from(words) {
        Ok(matches) => Ok(matches.get_str("NAME")),
        Err(error) => match error.kind() {
            ErrorKind::OutOfMemory => Err(Memory),
            _ => Ok(None),
        },
    }
}
