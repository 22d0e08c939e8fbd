//! Operations as texts with numbers left open, and the transactions of such texts.

use crate::told::Told;
use pgs_base::Memory;
use pgs_graph::Txn;
use pgs_json::read_txn;
use std::alloc::Global;

/// Writes 65 labels.
fn put_labels(told: &mut Told) {
    told.word("\"l\"");
    for number in 0..64 {
        told.number(",\"l", number);
        told.word("\"");
    }
}

/// Writes a text, with a number for each `#`, for each `&`, for each `@` and for each `%`, and 65 labels for each `$`.
pub fn fill(text: &str, numbers: [u64; 4], told: &mut Told) {
    for letter in text.chars() {
        match letter {
            '#' => told.number("", numbers[0]),
            '&' => told.number("", numbers[1]),
            '@' => told.number("", numbers[2]),
            '%' => told.number("", numbers[3]),
            '$' => put_labels(told),
            _ => told.letter(letter),
        }
    }
}

/// The transaction of operations, given as JSON with commas between them.
pub fn txn_of(alloc: Global, ops: &str) -> Result<Txn, Memory> {
    let mut line = Told::new(alloc);
    line.word("{\"ops\":[");
    line.word(ops);
    line.word("]}");
    match read_txn(alloc, line.text()?.as_bytes()) {
        Ok(txn) => Ok(txn),
        Err(_) => Err(Memory),
    }
}
