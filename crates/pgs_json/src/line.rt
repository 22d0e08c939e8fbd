ghost use Rattle.std.specs.Prelude.{◌≡◌, option_and_then};
ghost use Rattle.serde_json.specs.Read.{read};
ghost use Rattle.pgs_json.specs.Form.{form};
ghost use Rattle.pgs_json.specs.Line.{txn_of, Reads};
ghost use Rattle.pgs_json.specs.Unread.{Gives};

use crate::json_op::txn;
use crate::line_fault::LineFault;
use crate::tree::Json;
use crate::unread::Unread;
use json::Scratch;
use pgs_base::TEXT_LIMIT;
use pgs_graph::Txn;
use std::alloc::Global;
use std::str;

fn text_txn(alloc: Global, text: &str, scratch: &mut Scratch) -> Result<Txn, Unread>
    ensures { Gives (λ txn. txn) result (option_and_then form (read text.now)) }
{
    let value = Json::from_str(alloc, text, scratch)?;
    txn(alloc, &value)
}

/// The transaction of a line of whatever length.
#[tactic(auto, using(crate::proofs::FormParts::line_text, crate::proofs::FormParts::line_none))]
fn line_txn(alloc: Global, line: &[u8], scratch: &mut Scratch) -> Result<Txn, Unread>
    ensures { Gives (λ txn. txn) result (txn_of line.now) }
{
    match str::from_utf8(line) {
        Ok(text) => text_txn(alloc, text, scratch),
        Err(_) => Err(Unread::Unfit),
    }
}

/// The transaction of a line as `read_txn` reads it, with what reading writes to lent.
#[tactic(auto, unfolding(crate::specs::Line::read_line))]
pub fn read_txn_in(alloc: Global, line: &[u8], scratch: &mut Scratch) -> Result<Txn, LineFault>
    ensures { Reads result line.now }
{
    if line.len() > TEXT_LIMIT {
        return Err(LineFault::LineTooLong);
    }
    Ok(line_txn(alloc, line, scratch)?)
}

/// The transaction of a line, given without its line feed. `LineTooLong` exactly where it has over `TEXT_LIMIT` bytes, else
/// `Unreadable` exactly where it is no JSON text or its value isn't of the form of a transaction, which docs/FORMATS.md tells. Many
/// lines are read by a `LineReader`.
pub fn read_txn(alloc: Global, line: &[u8]) -> Result<Txn, LineFault>
    ensures { Reads result line.now }
{
    let mut scratch = Scratch::new(alloc);
    read_txn_in(alloc, line, &mut scratch)
}
