ghost use Rattle.std.specs.Prelude.{◌≡◌, IfOk, map, option_map};
ghost use Rattle.pgs_run_words.specs.Words.{command_of, feeds_in, feeds_of, has_feeds, has_store, store_in, store_of};

use crate::reading::words_from;
use crate::{Command, command_of};
use pgs_base::{List, Memory, Words};
use std::alloc::Global;

/// What the words of a command line say: a command, none where they are refused, and the names of its store and of its feeds.
#[derive(Drop)]
pub struct CommandLine<'a> {
    pub command: Option<Command>,
    pub store: Option<&'a str>,
    pub feeds: List<&'a str>,
}

// Whether a command has the name of a store.
fn has_store(command: &Command) -> bool
    ensures { result ≡ has_store command.now }
{
    match command {
        Command::Try | Command::Validate | Command::Gen { .. } | Command::Contain => false,
        Command::Load | Command::Apply | Command::Recover => true,
        Command::Explain { .. } | Command::Checkpoint | Command::Evolve => true,
    }
}

fn has_feeds(command: &Command) -> bool
    ensures { result ≡ has_feeds command.now }
{
    matches!(command, Command::Apply)
}

// The word NAME, where the command has one.
fn store_in<'a>(command: &Option<Command>, words: &'a Words) -> Option<&'a str>
    ensures { option_map (λ s. s.now) result ≡ store_in command.now words.entry.now }
{
    match command {
        Some(command) if has_store(command) => words.at(1),
        _ => None,
    }
}

// The words FEED, where the command has them.
fn feeds_in<'a>(
    alloc: Global,
    command: &Option<Command>,
    words: &'a Words,
) -> Result<List<&'a str>, Memory>
    ensures { IfOk result (λ r. map (λ s. s.now) r ≡ feeds_in command.now words.entry.now) }
{
    match command {
        Some(command) if has_feeds(command) => { Ok(List::from_vec(words_from(alloc, words, 2)?)) }
        _ => Ok(List::new(alloc)),
    }
}

impl<'a> CommandLine<'a> {
    /// Reads words once.
    pub fn read(alloc: Global, words: &'a Words) -> Result<CommandLine<'a>, Memory>
        ensures command { IfOk result (λ line. line.command ≡ command_of words.entry.now) }
        ensures store { IfOk result (λ line. option_map (λ s. s.now) line.store ≡ store_of words.entry.now) }
        ensures feeds { IfOk result (λ line. map (λ s. s.now) line.feeds ≡ feeds_of words.entry.now) }
    {
        let command = command_of(alloc, words)?;
        let store = store_in(&command, words);
        let feeds = feeds_in(alloc, &command, words)?;
        Ok(CommandLine {
            command,
            store,
            feeds,
        })
    }
}

/// The word NAME, exactly where the words are those of a command that has one.
pub fn store_name<'a>(alloc: Global, words: &'a Words) -> Result<Option<&'a str>, Memory>
    ensures { IfOk result (λ r. option_map (λ s. s.now) r ≡ store_of words.entry.now) }
{
    let command = command_of(alloc, words)?;
    Ok(store_in(&command, words))
}

/// The words FEED of `apply`, in order; none where the words are those of no command, or of another one.
pub fn feed_names<'a>(alloc: Global, words: &'a Words) -> Result<List<&'a str>, Memory>
    ensures { IfOk result (λ r. map (λ s. s.now) r ≡ feeds_of words.entry.now) }
{
    let command = command_of(alloc, words)?;
    feeds_in(alloc, &command, words)
}
