ghost use Rattle.std.specs.Prelude.{◌≡◌, option_and_then};
ghost use Rattle.pgs_run_input.specs.TextFaults.{Gives};
ghost use Rattle.pgs_run_words.specs.Words.{number_of};
ghost use Rattle.pgs_run_sessions.specs.Events.{event_or, plain_event, elem_behind, reading, staged, event_of, event_in, event_answer};
ghost use Rattle.pgs_run_sessions.specs.LineWords.{word_of, behind_word};

use crate::line_words::{behind_word, without_return, word_of};
use pgs_answer::{line_too_long_text, no_event_text};
use pgs_base::TEXT_LIMIT;
use pgs_run_input::{TextFault, txn_of};
use pgs_run_words::{element, number};
use pgs_sessions_machine::Event;
use std::alloc::Global;

// An event, or refusal 46 where there is none.
fn event_or(alloc: Global, event: Option<Event>) -> Result<Event, TextFault>
    ensures { Gives (event_or event) result }
{
    match event {
        Some(event) => Ok(event),
        None => {
            let text = no_event_text(alloc)?;
            Err(TextFault::Refused(text))
        }
    }
}

fn plain_event(word: &[u8], rest: &[u8]) -> Option<Event>
    ensures { result ≡ option_and_then (plain_event word.now) (number_of rest.now) }
{
    let session = number(rest)?;
    if word == b"begin".as_slice() {
        return Some(Event::Begin(session));
    }
    if word == b"commit".as_slice() {
        return Some(Event::Commit(session));
    }
    if word == b"abort".as_slice() {
        return Some(Event::Abort(session));
    }
    None
}

fn read_event(rest: &[u8]) -> Option<Event>
    ensures { result ≡ reading (number_of (word_of rest.now)) (elem_behind (behind_word rest.now)) }
{
    let session = number(word_of(rest))?;
    let elem = element(behind_word(rest)?)?;
    Some(Event::Read { session, elem })
}

fn staged_event(alloc: Global, rest: &[u8]) -> Result<Event, TextFault>
    ensures { Gives (staged (number_of (word_of rest.now)) (behind_word rest.now)) result }
{
    let Some(session) = number(word_of(rest)) else {
        return event_or(alloc, None);
    };
    let Some(json) = behind_word(rest) else {
        return event_or(alloc, None);
    };
    let txn = txn_of(alloc, json)?;
    Ok(Event::Stage { session, txn })
}

// The event of a word and what stands behind the space after it.
#[tactic(auto, unfolding(crate::specs::Events::event_of))]
fn event_behind(alloc: Global, word: &[u8], rest: &[u8]) -> Result<Event, TextFault>
    ensures { Gives (event_of word.now rest.now) result }
{
    if word == b"stage".as_slice() {
        return staged_event(alloc, rest);
    }
    if word == b"read".as_slice() {
        return event_or(alloc, read_event(rest));
    }
    event_or(alloc, plain_event(word, rest))
}

fn event_in(alloc: Global, line: &[u8]) -> Result<Event, TextFault>
    ensures { Gives (event_in line.now) result }
{
    match behind_word(line) {
        Some(rest) => event_behind(alloc, word_of(line), rest),
        None => event_or(alloc, None),
    }
}

/// The event of a line, given without its line feed, or the text of its refusal: 21 where it is longer than `TEXT_LIMIT` bytes without the
/// carriage return at its end, then 46 where it is no event, then 20 where the JSON part of a stage is no transaction. `Memory` where
/// there was none.
#[tactic(auto, unfolding(crate::specs::Events::event_answer))]
pub fn event_of(alloc: Global, line: &[u8]) -> Result<Event, TextFault>
    ensures { Gives (event_answer line.now) result }
{
    let line = without_return(line);
    if line.len() > TEXT_LIMIT {
        let text = line_too_long_text(alloc)?;
        return Err(TextFault::Refused(text));
    }
    event_in(alloc, line)
}
