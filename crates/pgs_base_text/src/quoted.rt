ghost use Rattle.std.specs.Prelude.{◌≡◌, ◌<◌, ◌++◌, flat_map, OnOk};
ghost use Rattle.std.specs.Char.{digit_char};
ghost use Rattle.std.specs.List.{list_all};
ghost use Rattle.pgs_base_text.specs.Text.{is_plain, escaped, quoted};

use crate::TextBuffer;
use pgs_base::Memory;

// How many bytes of a string are looked at together, since most are written as they are.
const RUN: usize = 64;

// Whether a byte is written as it is. Without branches, so that many are tested at once.
fn is_plain(byte: u8) -> bool
    ensures { result ≡ is_plain byte }
{
    (byte >= 32) & (byte != b'"') & (byte != b'\\')
}

fn are_plain(bytes: &[u8]) -> bool
    ensures { result ≡ list_all is_plain bytes.now }
{
    let mut plain = true;
    for byte in bytes {
        plain &= is_plain(*byte);
    }
    plain
}

// A digit of a number below 16, in lower case.
fn hex_digit(number: u8) -> u8
    requires { number < 16 }
    ensures { result ≡ digit_char number }
{
    if number < 10 {
        b'0' + number
    } else {
        b'a' + (number - 10)
    }
}

impl TextBuffer {
    // Puts a byte of a string last.
    fn push_escaped(&mut self, byte: u8) -> Result<(), Memory>
        ensures { OnOk result (self.new ≡ self.old ++ escaped byte) }
    {
        match byte {
            b'"' => self.push(b"\\\""),
            b'\\' => self.push(b"\\\\"),
            8 => self.push(b"\\b"),
            b'\t' => self.push(b"\\t"),
            b'\n' => self.push(b"\\n"),
            12 => self.push(b"\\f"),
            b'\r' => self.push(b"\\r"),
            0..32 => self.push(&[
                b'\\',
                b'u',
                b'0',
                b'0',
                hex_digit(byte / 16),
                hex_digit(byte % 16),
            ]),
            _ => self.push(&[byte]),
        }
    }

    fn push_each_escaped(&mut self, text: &[u8]) -> Result<(), Memory>
        ensures { OnOk result (self.new ≡ self.old ++ flat_map escaped text.now) }
    {
        for byte in text {
            self.push_escaped(*byte)?;
        }
        Ok(())
    }

    // Puts a few bytes of a string last: as they are where none of them is escaped.
    #[tactic(auto, using(crate::proofs::Plain::plain_bytes))]
    fn push_run(&mut self, run: &[u8]) -> Result<(), Memory>
        ensures { OnOk result (self.new ≡ self.old ++ flat_map escaped run.now) }
    {
        if are_plain(run) {
            self.push(run)
        } else {
            self.push_each_escaped(run)
        }
    }

    fn push_runs(&mut self, text: &[u8]) -> Result<(), Memory>
        ensures { OnOk result (self.new ≡ self.old ++ flat_map escaped text.now) }
    {
        let mut rest = text;
        while rest.len() > RUN {
            let (run, others) = rest.split_at(RUN);
            self.push_run(run)?;
            rest = others;
        }
        self.push_run(rest)
    }

    /// Puts a text last, as a JSON string.
    #[tactic(auto, unfolding(crate::specs::Text::quoted))]
    pub fn push_quoted(&mut self, text: &[u8]) -> Result<(), Memory>
        ensures { OnOk result (self.new ≡ self.old ++ quoted text.now) }
    {
        self.push(b"\"")?;
        self.push_runs(text)?;
        self.push(b"\"")
    }
}
