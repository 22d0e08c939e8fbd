ghost use Rattle.std.specs.Prelude.{◌≡◌, None, option_map, if◌then◌else◌};
ghost use Rattle.pgs_run_check.specs.Words.{command_of, lone_words, store_of, store_words};
ghost use Rattle.pgs_run_words.specs.Further.{is_plain};
ghost use Rattle.pgs_run_words.specs.Words.{found_in};

use crate::CheckCommand;
use pgs_base::Words;
use pgs_run_words::{found_in, is_plain};

/// The commands of one word.
const LONE_WORDS: &[(&str, CheckCommand)] = &[
    ("schema", CheckCommand::Schema),
    ("try", CheckCommand::Try),
    ("evolve", CheckCommand::Evolve),
];

/// The commands of a word and the name of a store.
const STORE_WORDS: &[(&str, CheckCommand)] = &[
    ("evolve", CheckCommand::EvolveStore),
    ("apply", CheckCommand::Apply),
];

// The command of one word.
#[tactic(auto, unfolding(crate::specs::Words::lone_words))]
fn lone_command(word: &str) -> Option<CheckCommand>
    ensures { result ≡ found_in lone_words word.now }
{
    found_in(LONE_WORDS, word)
}

// The command of a word and the name of a store.
#[tactic(auto, unfolding(crate::specs::Words::store_words))]
fn store_command(word: &str, name: &str) -> Option<CheckCommand>
    ensures { result ≡ (if is_plain name.now then found_in store_words word.now else None) }
{
    if is_plain(name) {
        found_in(STORE_WORDS, word)
    } else {
        None
    }
}

/// The command that the words name. `None` exactly where they are refused (specs/Words.antt).
pub fn command_of(words: &Words) -> Option<CheckCommand>
    ensures { result ≡ command_of words.now }
{
    match (words.at(0), words.at(1), words.len()) {
        (Some(word), None, _) => lone_command(word),
        (Some(word), Some(name), 2) => store_command(word, name),
        _ => None,
    }
}

/// The word NAME, exactly where the words are those of a command that has one.
pub fn store_of(words: &Words) -> Option<&str>
    ensures { option_map (λ s. s.now) result ≡ store_of words.entry.now }
{
    match command_of(words) {
        Some(_) => words.at(1),
        None => None,
    }
}
