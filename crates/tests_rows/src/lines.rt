//! What the lines of a case or of a step say. A line begins with what it says.

use crate::texts::push_text;
use pgs_base::List;
use std::alloc::Global;

/// The words that begin a step.
const STEPS: [&str; 6] = ["guard", "sessions", "follow", "tokens", "tree", "schema"];

/// Whether a line begins a step.
pub fn is_step(line: &str) -> bool {
    let (word, _) = line.split_once(' ').unwrap_or((line, ""));
    STEPS.contains(&word)
}

fn begins_by(line: &str, signs: &str) -> bool {
    for sign in signs.split(',') {
        if line.starts_with(sign) {
            return true;
        }
    }
    line.is_empty()
}

/// Whether each line is empty or begins by one of these signs, which have commas between them.
pub fn begin_by(lines: &[&str], signs: &str) -> bool {
    for line in lines {
        if !begins_by(line, signs) {
            return false;
        }
    }
    true
}

/// The numbers behind a sign.
pub fn numbers(alloc: Global, lines: &[&str], sign: &str) -> Option<List<u64>> {
    let mut numbers = Vec::new(alloc);
    for line in lines {
        if let Some(rest) = line.strip_prefix(sign) {
            for number in rest.split(',') {
                numbers.push(number.parse::<u64>().ok()?).ok()?;
            }
        }
    }
    Some(List::from_vec(numbers))
}

/// The texts behind a sign, as one.
pub fn text(alloc: Global, lines: &[&str], sign: &str) -> Option<Vec<u8>> {
    let mut text = Vec::new(alloc);
    for line in lines {
        if let Some(form) = line.strip_prefix(sign) {
            push_text(alloc, &mut text, form)?;
        }
    }
    Some(text)
}
