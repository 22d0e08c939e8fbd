ghost use Rattle.std.specs.Prelude.{◌≡◌, IfOk, map, drop, true};
ghost use Rattle.pgs_run_words.specs.Words.{command_of, command_of_plain};
ghost use Rattle.pgs_run_words.specs.Further.{are_plain};

use crate::Command;
use crate::command_word::command_word;
use crate::further::command_in;
use crate::plain::are_plain;
use pgs_base::{Memory, Words};
use std::alloc::Global;

/// The words from a place on, as slices, in order.
pub fn words_from<'a>(alloc: Global, words: &'a Words, from: usize) -> Result<Vec<&'a str>, Memory>
    ensures { IfOk result (λ r. map (λ w. w.now) r.items ≡ drop from words.entry.now) }
{
    let mut slices = Vec::new(alloc);
    for place in from..words.len() {
        if let Some(word) = words.at(place) {
            slices.push(word)?;
        }
    }
    Ok(slices)
}

// The command of words none of which is empty or begins with `-`.
fn command_of_plain<'a>(alloc: Global, words: &'a [&'a str]) -> Result<Option<Command>, Memory>
    requires { are_plain (map (λ w. w.now) words.now) ≡ true }
    ensures { IfOk result (λ r. r ≡ command_of_plain (map (λ w. w.now) words.entry.now)) }
{
    match words {
        [] => Ok(None),
        [first, further @ ..] => match command_word(first) {
            Some(word) => command_in(alloc, word, further),
            None => Ok(None),
        },
    }
}

#[tactic(auto, unfolding(crate::specs::Words::command_of))]
fn command_of_slices<'a>(alloc: Global, words: &'a [&'a str]) -> Result<Option<Command>, Memory>
    ensures { IfOk result (λ r. r ≡ command_of (map (λ w. w.now) words.entry.now)) }
{
    if are_plain(words) {
        command_of_plain(alloc, words)
    } else {
        Ok(None)
    }
}

/// The command that the words name. `None` exactly where they are refused.
pub fn command_of(alloc: Global, words: &Words) -> Result<Option<Command>, Memory>
    ensures { IfOk result (λ r. r ≡ command_of words.now) }
{
    let slices = words_from(alloc, words, 0)?;
    command_of_slices(alloc, slices.as_slice())
}
