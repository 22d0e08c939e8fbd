ghost use Rattle.pgs_run_input.specs.Answers.{txn_answer};
ghost use Rattle.pgs_run_input.specs.TextFaults.{Gives};

use crate::{TextFault, TxnReader};
use pgs_graph::Txn;
use std::alloc::Global;

/// The transaction of a line, given without its line feed, or the text of its refusal: 21 where it is longer than `TEXT_LIMIT` bytes, then
/// 20 where it is no transaction. `Memory` where there was none. Many lines are read by a `TxnReader`.
pub fn txn_of(alloc: Global, line: &[u8]) -> Result<Txn, TextFault>
    ensures { Gives (txn_answer line.now) result }
{
    let mut reader = TxnReader::new();
    reader.read(alloc, line)
}
