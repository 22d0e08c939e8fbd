ghost use Rattle.std.specs.Prelude.{◌≡◌, ◌<◌, ◌++◌, [], IfOk, OnOk, OnErr, decimal};
ghost use Rattle.std.specs.Fmt.{signed_decimal};
ghost use Rattle.pgs_base_text.specs.Text.{two_digits, day_text, truth_text, elem_text};

use itoa::Buffer;
use pgs_base::{Bytes, Day, Elem, List, Memory};
use std::alloc::Global;
use std::marker::Model;

/// Bytes of a text that is being written. After `Memory` a buffer may hold a front of what was pushed; a text is then given up.
#[derive(Drop)]
pub struct TextBuffer {
    bytes: Vec<u8>,
}

impl Model for TextBuffer {
    ghost use Rattle.std.specs.Prelude.{List as Items, ℕ};

    ghost Value = { Items ℕ };

    ghost view = { λ text. text.bytes.items };
}

impl TextBuffer {
    /// No bytes yet, and room for so many.
    pub fn with_room(alloc: Global, room: usize) -> Result<TextBuffer, Memory>
        ensures { IfOk result (λ text. text ≡ []) }
    {
        Ok(TextBuffer {
            bytes: Vec::with_capacity(alloc, room)?,
        })
    }

    /// Puts bytes last.
    pub fn push(&mut self, bytes: &[u8]) -> Result<(), Memory>
        ensures ok { OnOk result (self.new ≡ self.old ++ bytes.now) }
        ensures err { OnErr result (self.new ≡ self.old) }
    {
        self.bytes.extend_from_slice(bytes)?;
        Ok(())
    }

    /// Puts a number last, as a plain decimal.
    pub fn push_number(&mut self, number: u64) -> Result<(), Memory>
        ensures { OnOk result (self.new ≡ self.old ++ decimal number) }
    {
        let mut digits = Buffer::new();
        self.push(digits.format(number).as_bytes())
    }

    /// Puts a signed number last, as a plain decimal.
    pub fn push_signed(&mut self, number: i64) -> Result<(), Memory>
        ensures { OnOk result (self.new ≡ self.old ++ signed_decimal number) }
    {
        let mut digits = Buffer::new();
        self.push(digits.format(number).as_bytes())
    }

    /// Puts `true` or `false` last.
    pub fn push_truth(&mut self, truth: bool) -> Result<(), Memory>
        ensures { OnOk result (self.new ≡ self.old ++ truth_text truth) }
    {
        if truth {
            self.push(b"true")
        } else {
            self.push(b"false")
        }
    }

    fn push_two_digits(&mut self, number: u8) -> Result<(), Memory>
        requires { number < 100 }
        ensures { OnOk result (self.new ≡ self.old ++ two_digits number) }
    {
        self.push(&[b'0' + number / 10, b'0' + number % 10])
    }

    /// Puts a day last, as `2024-02-29`.
    pub fn push_day(&mut self, day: Day) -> Result<(), Memory>
        ensures { OnOk result (self.new ≡ self.old ++ day_text day) }
    {
        self.push_two_digits((day.year() / 100) as u8)?;
        self.push_two_digits((day.year() % 100) as u8)?;
        self.push(b"-")?;
        self.push_two_digits(day.month())?;
        self.push(b"-")?;
        self.push_two_digits(day.day())
    }

    /// Puts an element last, as `n1` or `e1`.
    pub fn push_elem(&mut self, elem: Elem) -> Result<(), Memory>
        ensures { OnOk result (self.new ≡ self.old ++ elem_text elem) }
    {
        match elem {
            Elem::Node(id) => {
                self.push(b"n")?;
                self.push_number(id.0)
            }
            Elem::Edge(id) => {
                self.push(b"e")?;
                self.push_number(id.0)
            }
        }
    }

    /// The bytes.
    pub fn into_bytes(self) -> Bytes
        ensures { result ≡ self }
    {
        List::from_vec(self.bytes)
    }
}
