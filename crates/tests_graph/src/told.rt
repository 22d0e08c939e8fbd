//! Texts that are written piece by piece.

use pgs_base::Memory;
use std::alloc::Global;

/// A text that grows. Where memory ran out a piece is missing, and the text isn't whole.
#[derive(Drop)]
pub struct Told {
    alloc: Global,
    text: String,
    is_whole: bool,
}

impl Told {
    pub fn new(alloc: Global) -> Told {
        Told {
            alloc,
            text: String::new(alloc),
            is_whole: true,
        }
    }

    pub fn word(&mut self, word: &str) {
        if self.text.push_str(word).is_err() {
            self.is_whole = false;
        }
    }

    pub fn letter(&mut self, letter: char) {
        if self.text.push(letter).is_err() {
            self.is_whole = false;
        }
    }

    /// A number, behind a word.
    pub fn number(&mut self, before: &str, number: u64) {
        match format!(in self.alloc; "{before}{number}") {
            Ok(word) => self.word(word.as_str()),
            Err(_) => self.is_whole = false,
        }
    }

    /// A number that may be below 0, behind a word.
    pub fn signed(&mut self, before: &str, number: i64) {
        match format!(in self.alloc; "{before}{number}") {
            Ok(word) => self.word(word.as_str()),
            Err(_) => self.is_whole = false,
        }
    }

    /// `y` for a truth.
    pub fn truth(&mut self, truth: bool) {
        self.letter(if truth { 'y' } else { 'n' });
    }

    /// Bytes of a text, or numbers below 10 as digits.
    pub fn bytes(&mut self, before: &str, bytes: &[u8]) {
        self.word(before);
        for byte in bytes {
            let byte = if *byte < 10 { b'0' + *byte } else { *byte };
            self.letter(char::from(byte));
        }
    }

    pub fn text(&self) -> Result<&str, Memory> {
        if self.is_whole {
            Ok(self.text.as_str())
        } else {
            Err(Memory)
        }
    }
}
