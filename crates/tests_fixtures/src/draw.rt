use crate::Numbers;
use pgs_base::Memory;
use std::alloc::Global;

/// Draws words, and writes them one after another. Where memory ran out a word is missing, and the text isn't whole.
#[derive(Drop)]
pub struct Draw {
    numbers: Numbers,
    text: String,
    is_whole: bool,
}

impl Draw {
    /// Draws that begin at a number.
    pub fn new(alloc: Global, state: u64) -> Draw {
        Draw {
            numbers: Numbers::new(state),
            text: String::new(alloc),
            is_whole: true,
        }
    }

    /// A number below the end, or 0 where the end is 0.
    pub fn below(&mut self, end: u64) -> u64 {
        self.numbers.below(end)
    }

    /// Writes a word.
    pub fn put(&mut self, word: &str) {
        if self.text.push_str(word).is_err() {
            self.is_whole = false;
        }
    }

    /// Writes the word at a place.
    pub fn put_at(&mut self, words: &[&'static str], place: u64) {
        if let Some(word) = words.get(place as usize) {
            self.put(word);
        }
    }

    /// Writes one of the words.
    pub fn put_one(&mut self, words: &[&'static str]) {
        let place = self.below(words.len() as u64);
        self.put_at(words, place);
    }

    /// The text.
    pub fn text(&self) -> Result<&str, Memory> {
        if self.is_whole {
            Ok(self.text.as_str())
        } else {
            Err(Memory)
        }
    }
}
