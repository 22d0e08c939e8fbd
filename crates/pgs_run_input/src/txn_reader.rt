ghost use Rattle.pgs_run_input.specs.Answers.{txn_answer};
ghost use Rattle.pgs_run_input.specs.TextFaults.{Gives};

use crate::TextFault;
use pgs_answer::{line_too_long_text, unreadable_text};
use pgs_graph::Txn;
use pgs_json::{LineFault, LineReader};
use std::alloc::Global;

/// Reads lines of transactions one after another. What it gives of a line doesn't depend on those before it.
pub struct TxnReader {
    lines: LineReader,
}

// Dropped here, so that crates above need not prove what it holds.
impl Drop for TxnReader {
    fn drop(self) {
        let TxnReader { lines: _ } = self;
    }
}

impl TxnReader {
    /// Before the first line; takes no memory.
    pub fn new() -> TxnReader {
        TxnReader {
            lines: LineReader::new(),
        }
    }

    /// The transaction of a line, or the text of its refusal, as [`txn_of`](crate::txn_of) gives it.
    #[tactic(auto, using(crate::proofs::ReadLines::read_as))]
    pub fn read(&mut self, alloc: Global, line: &[u8]) -> Result<Txn, TextFault>
        ensures { Gives (txn_answer line.now) result }
    {
        match self.lines.read_txn(alloc, line) {
            Ok(txn) => Ok(txn),
            Err(LineFault::Memory) => Err(TextFault::Memory),
            Err(LineFault::Unreadable) => {
                let text = unreadable_text(alloc)?;
                Err(TextFault::Refused(text))
            }
            Err(LineFault::LineTooLong) => {
                let text = line_too_long_text(alloc)?;
                Err(TextFault::Refused(text))
            }
        }
    }
}
