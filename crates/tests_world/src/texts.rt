//! The parts of a call's text.

/// A text in front of its first space, and behind it.
pub fn halves(text: &str) -> (&str, &str) {
    text.split_once(' ').unwrap_or((text, ""))
}

/// A number, or 0.
pub fn number(text: &str) -> u64 {
    u64::from_str_radix(text, 10).unwrap_or(0)
}

// Puts what an escape stands for, and the text behind it.
fn put_escape(out: &mut String, part: &str) -> Option<()> {
    let (sign, rest) = part.split_at_checked(1)?;
    let meant = match sign.as_bytes().first()? {
        b'n' => "\n",
        b'r' => "\r",
        b't' => "\t",
        b'0' => "\0",
        _ => "\x01",
    };
    out.push_str(meant).ok()?;
    out.push_str(rest).ok()
}

/// Puts a text with what its escapes stand for: `\n`, `\r`, `\t`, `\0`, and `\1` for the byte 1.
pub fn put_unescaped(out: &mut String, text: &str) -> Option<()> {
    let mut is_first = true;
    for part in text.split('\\') {
        if is_first {
            out.push_str(part).ok()?;
        } else {
            put_escape(out, part)?;
        }
        is_first = false;
    }
    Some(())
}
