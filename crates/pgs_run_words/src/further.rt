ghost use Rattle.std.specs.Prelude.{◌≡◌, IfOk, map, option_map, option_and_then, true};
ghost use Rattle.pgs_run_words.specs.Further.{are_plain};
ghost use Rattle.pgs_run_words.specs.Words.{elem_of, number_of, workload_of, alone, with_name, with_feeds, with_element, with_counts, command_in};
ghost use Rattle.pgs_run_words.specs.declared.command.Command.TheVariants.{Explain, Gen};

use crate::command_word::CommandWord;
use crate::elements::element;
use crate::name_and_feeds::read_name_and_feeds;
use crate::no_word::read_no_word;
use crate::numbers::number;
use crate::one_word::read_one_word;
use crate::two_words::read_two_words;
use crate::{Command, Workload};
use pgs_base::Memory;
use std::alloc::Global;

// A command that has no further words.
fn alone<'a>(
    alloc: Global,
    command: Command,
    words: &'a [&'a str],
) -> Result<Option<Command>, Memory>
    requires { are_plain (map (λ w. w.now) words.now) ≡ true }
    ensures { IfOk result (λ r. r ≡ alone command (map (λ w. w.now) words.entry.now)) }
{
    if read_no_word(alloc, words)? {
        Ok(Some(command))
    } else {
        Ok(None)
    }
}

// A command that has the name of a store.
fn with_name<'a>(
    alloc: Global,
    command: Command,
    words: &'a [&'a str],
) -> Result<Option<Command>, Memory>
    requires { are_plain (map (λ w. w.now) words.now) ≡ true }
    ensures { IfOk result (λ r. r ≡ with_name command (map (λ w. w.now) words.entry.now)) }
{
    match read_one_word(alloc, words)? {
        Some(_) => Ok(Some(command)),
        None => Ok(None),
    }
}

// A command that has the name of a store, and feeds.
fn with_feeds<'a>(
    alloc: Global,
    command: Command,
    words: &'a [&'a str],
) -> Result<Option<Command>, Memory>
    requires { are_plain (map (λ w. w.now) words.now) ≡ true }
    ensures { IfOk result (λ r. r ≡ with_feeds command (map (λ w. w.now) words.entry.now)) }
{
    match read_name_and_feeds(alloc, words)? {
        Some(_) => Ok(Some(command)),
        None => Ok(None),
    }
}

fn with_element<'a>(alloc: Global, words: &'a [&'a str]) -> Result<Option<Command>, Memory>
    requires { are_plain (map (λ w. w.now) words.now) ≡ true }
    ensures { IfOk result (λ r. r ≡ with_element (map (λ w. w.now) words.entry.now)) }
{
    match read_two_words(alloc, words)? {
        Some((_, elem)) => Ok(explain(elem)),
        None => Ok(None),
    }
}

fn explain(elem: &str) -> Option<Command>
    ensures { result ≡ option_map Explain (elem_of elem.now) }
{
    match element(elem.as_bytes()) {
        Some(elem) => Some(Command::Explain { elem }),
        None => None,
    }
}

fn with_counts<'a>(alloc: Global, words: &'a [&'a str]) -> Result<Option<Command>, Memory>
    requires { are_plain (map (λ w. w.now) words.now) ≡ true }
    ensures { IfOk result (λ r. r ≡ with_counts (map (λ w. w.now) words.entry.now)) }
{
    match read_two_words(alloc, words)? {
        Some((start, count)) => Ok(generate(start, count)),
        None => Ok(None),
    }
}

fn workload(start: &str, transactions: &str) -> Option<Workload>
    ensures { result ≡ workload_of start.now transactions.now }
{
    let start = number(start.as_bytes())?;
    let count = number(transactions.as_bytes())?;
    Workload::new(start, count)
}

fn generate(start: &str, transactions: &str) -> Option<Command>
    ensures { result ≡ option_map Gen (workload_of start.now transactions.now) }
{
    match workload(start, transactions) {
        Some(workload) => Some(Command::Gen { workload }),
        None => None,
    }
}

/// The command of a first word and its further words. `None` exactly where these aren't the command's.
pub fn command_in<'a>(
    alloc: Global,
    word: CommandWord,
    further: &'a [&'a str],
) -> Result<Option<Command>, Memory>
    requires { are_plain (map (λ w. w.now) further.now) ≡ true }
    ensures { IfOk result (λ r. r ≡ command_in word (map (λ w. w.now) further.entry.now)) }
{
    match word {
        CommandWord::Try => alone(alloc, Command::Try, further),
        CommandWord::Validate => alone(alloc, Command::Validate, further),
        CommandWord::Load => with_name(alloc, Command::Load, further),
        CommandWord::Apply => with_feeds(alloc, Command::Apply, further),
        CommandWord::Recover => with_name(alloc, Command::Recover, further),
        CommandWord::Explain => with_element(alloc, further),
        CommandWord::Gen => with_counts(alloc, further),
        CommandWord::Checkpoint => with_name(alloc, Command::Checkpoint, further),
        CommandWord::Contain => alone(alloc, Command::Contain, further),
        CommandWord::Evolve => with_name(alloc, Command::Evolve, further),
    }
}
