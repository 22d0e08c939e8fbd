//! Texts of causes, as pieces that are put one after another.

ghost use Rattle.std.specs.Prelude.{◌≡◌, ◌≤◌, ◌++◌, length, take, IfOk, OnOk};
ghost use Rattle.pgs_base_text.specs.Text.{quoted};
ghost use Rattle.pgs_json_causes.specs.Shown.{goes_on, characters, shown};

use pgs_base::{Bytes, Memory};
use pgs_base_text::TextBuffer;
use std::alloc::Global;

/// How many characters of a text are shown at most.
const MOST_SHOWN: usize = 64;

/// Room for the words of a cause and a short text.
pub const ROOM: usize = 128;

fn goes_on(byte: u8) -> bool
    ensures { result ≡ goes_on byte }
{
    128 <= byte && byte <= 191
}

/// How many bytes the first characters have that are shown.
#[tactic(auto, unfolding(crate::specs::Shown::characters))]
fn shown_len(text: &[u8]) -> usize
    ensures front { take result text.now ≡ characters 64 text.now }
    ensures within { result ≤ length text.now }
{
    let mut left = MOST_SHOWN;
    for (at, byte) in text.iter().enumerate() {
        if !goes_on(*byte) {
            if left == 0 {
                return at;
            }
            left -= 1;
        }
    }
    text.len()
}

/// Puts a text last as it is shown: as a JSON string, and no more of it than 64 characters.
#[tactic(auto, unfolding(crate::specs::Shown::shown))]
pub fn push_shown(out: &mut TextBuffer, text: &[u8]) -> Result<(), Memory>
    ensures { OnOk result (out.new ≡ out.old ++ shown text.now) }
{
    out.push_quoted(&text[..shown_len(text)])
}

/// Words alone.
pub fn words(alloc: Global, words: &[u8]) -> Result<Bytes, Memory>
    ensures { IfOk result (λ text. text ≡ words.now) }
{
    let mut out = TextBuffer::with_room(alloc, words.len())?;
    out.push(words)?;
    Ok(out.into_bytes())
}

/// A member's name, quoted, and words behind it.
pub fn of_member(alloc: Global, name: &str, words: &[u8]) -> Result<Bytes, Memory>
    ensures { IfOk result (λ text. text ≡ quoted name.now ++ words.now) }
{
    let mut out = TextBuffer::with_room(alloc, ROOM)?;
    out.push_quoted(name.as_bytes())?;
    out.push(words)?;
    Ok(out.into_bytes())
}

/// A text as it is shown, words behind it, and what stands behind these.
pub fn of_text_and(alloc: Global, text: &str, words: &[u8], behind: &[u8]) -> Result<Bytes, Memory>
    ensures { IfOk result (λ cause. cause ≡ shown text.now ++ (words.now ++ behind.now)) }
{
    let mut out = TextBuffer::with_room(alloc, ROOM)?;
    push_shown(&mut out, text.as_bytes())?;
    out.push(words)?;
    out.push(behind)?;
    Ok(out.into_bytes())
}

/// A text as it is shown, and words behind it.
pub fn of_text(alloc: Global, text: &str, words: &[u8]) -> Result<Bytes, Memory>
    ensures { IfOk result (λ cause. cause ≡ shown text.now ++ words.now) }
{
    let mut out = TextBuffer::with_room(alloc, ROOM)?;
    push_shown(&mut out, text.as_bytes())?;
    out.push(words)?;
    Ok(out.into_bytes())
}
