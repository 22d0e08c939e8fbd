//! What words are read as, and which are refused. That they are read while there is memory no contract says, and the calls of `words.calls`
//! show it.

use pgs_base::{Elem, Words};
use pgs_run_words::{Command, command_of, feed_names, store_name};
use std::alloc::Global;

fn words_of(alloc: Global, line: &str) -> Option<Words> {
    let mut words = Words::new(alloc);
    for word in line.split_terminator(',') {
        words.push(word).ok()?;
    }
    Some(words)
}

fn word_of(command: &Command) -> &'static str {
    match command {
        Command::Try => "try",
        Command::Validate => "validate",
        Command::Load => "load",
        Command::Apply => "apply",
        Command::Recover => "recover",
        Command::Checkpoint => "checkpoint",
        Command::Evolve => "evolve",
        Command::Contain => "contain",
        Command::Explain { .. } => "explain",
        Command::Gen { .. } => "gen",
    }
}

// Puts a command, and what it goes over.
fn put_command(out: &mut String, command: &Command) -> Option<()> {
    out.push_str(word_of(command)).ok()?;
    let (sign, first, second) = match command {
        Command::Explain { elem } => match elem {
            Elem::Node(id) => (" n", id.0, None),
            Elem::Edge(id) => (" e", id.0, None),
        },
        Command::Gen { workload } => (" ", workload.start(), Some(workload.count())),
        _ => return Some(()),
    };
    write!(out, "{sign}{first}").ok()?;
    match second {
        Some(count) => write!(out, " {count}").ok(),
        None => Some(()),
    }
}

/// Puts what words with a comma behind each are read as, with the name of a store and the number of feeds.
pub fn answer(out: &mut String, alloc: Global, line: &str) -> Option<()> {
    let words = words_of(alloc, line)?;
    match command_of(alloc, &words).ok()? {
        Some(command) => put_command(out, &command)?,
        None => out.push_str("refused").ok()?,
    }
    let store = store_name(alloc, &words).ok()?.unwrap_or("nothing");
    let feeds = feed_names(alloc, &words).ok()?.len();
    write!(out, " in {store} with {feeds}").ok()
}
