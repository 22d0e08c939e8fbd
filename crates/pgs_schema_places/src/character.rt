//! The character at the front of bytes, where it can be seen.

ghost use Rattle.std.specs.Prelude.{◌<◌, ◌≤◌, length, take, IfSome, IsTrue};
ghost use Rattle.std.specs.Str.{IsUtf8};

// Whether a character is printed as something that can be seen: no space, no control character and none that only joins or directs others.
fn is_seen(c: char) -> bool {
    let joins = matches!(
        c,
        '\u{ad}' | '\u{200b}'..='\u{200f}' | '\u{202a}'..='\u{202e}' | '\u{2060}'..='\u{206f}' | '\u{feff}'
    );
    !c.is_control() && !c.is_whitespace() && !joins
}

fn are_seen(text: &str) -> bool {
    for c in text.chars() {
        if !is_seen(c) {
            return false;
        }
    }
    true
}

// Whether bytes are a text that can be seen.
fn is_seen_text(bytes: &[u8]) -> bool {
    match str::from_utf8(bytes) {
        Ok(text) => are_seen(text),
        Err(_) => false,
    }
}

fn is_utf8(bytes: &[u8]) -> bool
    ensures { IsTrue result → IsUtf8 bytes.now }
{
    str::from_utf8(bytes).is_ok()
}

/// How many bytes the character takes that stands at the front of bytes, where it can be seen.
pub(crate) fn seen_size(bytes: &[u8]) -> Option<usize>
    ensures some { IfSome result (λ size. 0 < size) }
    ensures few { IfSome result (λ size. size ≤ 4) }
    ensures within { IfSome result (λ size. size ≤ length bytes.now) }
    ensures utf8 { IfSome result (λ size. IsUtf8 (take size bytes.now)) }
{
    for size in 1..5 {
        if size > bytes.len() {
            return None;
        }
        let front = &bytes[..size];
        if is_utf8(front) {
            return if is_seen_text(front) {
                Some(size)
            } else {
                None
            };
        }
    }
    None
}
