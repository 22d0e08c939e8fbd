ghost use Rattle.std.specs.Prelude.{◌≡◌, IfOk, map, option_map, true};
ghost use Rattle.clap.specs.Words.{app_of, found_of, rows_of};
ghost use Rattle.pgs_run_words.specs.Further.{are_plain, two_words, two_found, two_of};

use crate::asking::{bare_command, required_word};
use clap::error::ErrorKind;
use clap::{ArgMatches, Command};
use pgs_base::Memory;
use std::alloc::{AllocError, Global};

// A command with two further words.
fn two_words_command<'a>(alloc: Global) -> Result<Command<'a>, AllocError>
    ensures { IfOk result (λ c. app_of c ≡ two_words) }
{
    let one = bare_command(alloc, "two").arg(required_word(alloc, "FIRST"))?;
    one.arg(required_word(alloc, "SECOND"))
}

/// The two further words. `None` exactly where there aren't two.
pub fn read_two_words<'a>(
    alloc: Global,
    words: &'a [&'a str],
) -> Result<Option<(&'a str, &'a str)>, Memory>
    requires { are_plain (map (λ w. w.now) words.now) ≡ true }
    ensures { IfOk result (λ r. option_map (λ p. (p.0.now, p.1.now)) r
        ≡ two_of (map (λ w. w.now) words.entry.now)) }
{
    let command = two_words_command(alloc)?;
    match command.try_get_matches_from(words) {
        Ok(matches) => Ok(words_in(&matches)),
        Err(error) => match error.kind() {
            ErrorKind::OutOfMemory => Err(Memory),
            _ => Ok(None),
        },
    }
}

// The two values that clap found.
fn words_in<'a>(matches: &ArgMatches<'a>) -> Option<(&'a str, &'a str)>
    ensures { option_map (λ p. (p.0.now, p.1.now)) result ≡ two_found (rows_of (found_of matches.now)) }
{
    let Some(first) = matches.get_str("FIRST") else {
        return None;
    };
    let Some(second) = matches.get_str("SECOND") else {
        return None;
    };
    Some((first, second))
}
