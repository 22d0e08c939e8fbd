//! The forms of texts.

use std::alloc::Global;
use std::io::Write;

// Puts what an escape stands for last, and the text behind it. The text begins behind the backslash.
fn push_escape(out: &mut Vec<u8>, text: &str, number: u64) -> Option<()> {
    let (sign, mut rest) = text.split_at_checked(1)?;
    match sign {
        "n" => out.push(b'\n').ok()?,
        "r" => out.push(b'\r').ok()?,
        "#" => write!(out, "{number}").ok()?,
        "+" => write!(out, "{}", number.saturating_add(1)).ok()?,
        "x" => {
            let (code, behind) = rest.split_at_checked(2)?;
            out.push(u8::from_str_radix(code, 16).ok()?).ok()?;
            rest = behind;
        }
        _ => return None,
    }
    out.extend_from_slice(rest.as_bytes()).ok()
}

// Puts a text with escapes last, in which `\#` is the number and `\+` the next one.
fn push_escaped(out: &mut Vec<u8>, text: &str, number: u64) -> Option<()> {
    let mut is_plain = true;
    for part in text.split('\\') {
        if is_plain {
            out.extend_from_slice(part.as_bytes()).ok()?;
            is_plain = false;
        } else if part.is_empty() {
            out.push(b'\\').ok()?;
            is_plain = true;
        } else {
            push_escape(out, part, number)?;
        }
    }
    Some(())
}

/// The bytes of a text with escapes.
pub fn unescaped(alloc: Global, text: &str) -> Option<Vec<u8>> {
    let mut out = Vec::new(alloc);
    push_escaped(&mut out, text, 0)?;
    Some(out)
}

// Puts a text with escapes so many times last.
fn push_repeated(alloc: Global, out: &mut Vec<u8>, text: &str, count: u64) -> Option<()> {
    let piece = unescaped(alloc, text)?;
    for _ in 0..count {
        out.extend_from_slice(piece.as_slice()).ok()?;
    }
    Some(())
}

// The same, with numbers: the first of them and how many there are stand before it.
fn push_counted(out: &mut Vec<u8>, counted: &str, text: &str) -> Option<()> {
    let (first, count) = counted.split_once(',')?;
    let first = first.parse::<u64>().ok()?;
    for place in 0..count.parse::<u64>().ok()? {
        push_escaped(out, text, first.saturating_add(place))?;
    }
    Some(())
}

/// Puts the text of a form last, which is what stands behind the sign.
pub fn push_text(alloc: Global, out: &mut Vec<u8>, form: &str) -> Option<()> {
    let (head, text) = form.split_once(' ').unwrap_or((form, ""));
    if head.is_empty() {
        out.extend_from_slice(text.as_bytes()).ok()?;
        return out.push(b'\n').ok();
    }
    if head == "|" {
        return push_escaped(out, text, 0);
    }
    match head.strip_prefix('*') {
        Some(count) => push_repeated(alloc, out, text, count.parse::<u64>().ok()?),
        None => push_counted(out, head.strip_prefix('#')?, text),
    }
}
