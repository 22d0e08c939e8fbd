ghost use Rattle.std.specs.Prelude.{◌≡◌, IfOk, map, option_map, true};
ghost use Rattle.clap.specs.Words.{app_of, found_of, rows_of};
ghost use Rattle.pgs_run_words.specs.Further.{are_plain, name_and_feeds, name_and_feeds_found, name_and_feeds_of};

use crate::asking::{bare_command, required_word};
use clap::error::ErrorKind;
use clap::{Arg, ArgAction, ArgMatches, Command};
use pgs_base::Memory;
use std::alloc::{AllocError, Global};

/// The name of a store and those of feeds.
#[derive(Drop)]
pub struct NameAndFeeds<'a> {
    pub name: &'a str,
    pub feeds: Vec<&'a str>,
}

// A command with one further word or more.
fn name_and_feeds_command<'a>(alloc: Global) -> Result<Command<'a>, AllocError>
    ensures { IfOk result (λ c. app_of c ≡ name_and_feeds) }
{
    let feeds = Arg::new(alloc, "FEED").action(ArgAction::Append);
    let named = bare_command(alloc, "feeds").arg(required_word(alloc, "NAME"))?;
    named.arg(feeds)
}

/// The first of the further words as a name, and the others as feeds. `None` exactly where there is no word.
pub fn read_name_and_feeds<'a>(
    alloc: Global,
    words: &'a [&'a str],
) -> Result<Option<NameAndFeeds<'a>>, Memory>
    requires { are_plain (map (λ w. w.now) words.now) ≡ true }
    ensures { IfOk result (λ r. option_map (λ a. (a.name.now, map (λ f. f.now) a.feeds.items)) r
        ≡ name_and_feeds_of (map (λ w. w.now) words.entry.now)) }
{
    let command = name_and_feeds_command(alloc)?;
    match command.try_get_matches_from(words) {
        Ok(matches) => found_in(alloc, &matches),
        Err(error) => match error.kind() {
            ErrorKind::OutOfMemory => Err(Memory),
            _ => Ok(None),
        },
    }
}

// The name and the feeds that clap found.
fn found_in<'a>(alloc: Global, matches: &ArgMatches<'a>) -> Result<Option<NameAndFeeds<'a>>, Memory>
    ensures { IfOk result (λ r. option_map (λ a. (a.name.now, map (λ f. f.now) a.feeds.items)) r
        ≡ name_and_feeds_found (rows_of (found_of matches.now))) }
{
    let Some(name) = matches.get_str("NAME") else {
        return Ok(None);
    };
    let feeds = match matches.get_strs("FEED") {
        Some(found) => found.to_vec(alloc)?,
        None => Vec::new(alloc),
    };
    Ok(Some(NameAndFeeds { name, feeds }))
}
