ghost use Rattle.std.specs.Prelude.{◌≡◌, IfOk};
ghost use Rattle.pgs_answer.specs.Lines.{feed_line, txn_line};

use pgs_base::{Bytes, Memory};
use pgs_base_text::TextBuffer;
use pgs_graph::Txn;
use pgs_json::{push_txn, txn_room};
use std::alloc::Global;

/// The line of a committed transaction that each feed gets: its canonical text with the number of its commit.
pub fn feed_line(alloc: Global, txn: &Txn, commit: u64) -> Result<Bytes, Memory>
    ensures { IfOk result (λ line. line ≡ feed_line txn.now commit) }
{
    let mut line = TextBuffer::with_room(alloc, txn_room(txn))?;
    push_txn(&mut line, txn, Some(commit))?;
    line.push(b"\n")?;
    Ok(line.into_bytes())
}

/// The line of a transaction in a dump: its canonical text without a commit number.
pub fn txn_line(alloc: Global, txn: &Txn) -> Result<Bytes, Memory>
    ensures { IfOk result (λ line. line ≡ txn_line txn.now) }
{
    let mut line = TextBuffer::with_room(alloc, txn_room(txn))?;
    push_txn(&mut line, txn, None)?;
    line.push(b"\n")?;
    Ok(line.into_bytes())
}
