ghost use Rattle.std.specs.Prelude.{◌≡◌, not, is_some, IfOk};
ghost use Rattle.pgs_json.specs.Line.{txn_of};
ghost use Rattle.pgs_json_causes.specs.LineCause.{IsCauseWith, IsLineCause};
ghost use Rattle.serde_json.specs.Read.{read};

use crate::byte::byte_cause;
use crate::cause::cause_of;
use json::Scratch;
use pgs_base::{Bytes, Memory};
use pgs_json::{Json, Unread};
use std::alloc::Global;
use std::str;

fn text_cause(alloc: Global, text: &str) -> Result<Option<Bytes>, Memory>
    ensures { IfOk result (λ cause. IsCauseWith text.now (read text.now) cause) }
{
    let mut scratch = Scratch::new(alloc);
    match Json::from_str(alloc, text, &mut scratch) {
        Ok(value) => cause_of(alloc, &value),
        Err(Unread::Unfit) => Ok(Some(byte_cause(alloc, text.as_bytes())?)),
        Err(Unread::Memory) => Err(Memory),
    }
}

fn told_cause(alloc: Global, line: &[u8]) -> Result<Option<Bytes>, Memory>
    ensures { IfOk result (λ cause. IsLineCause line.now cause) }
{
    match str::from_utf8(line) {
        Ok(text) => Ok(text_cause(alloc, text)?),
        Err(_) => Ok(Some(byte_cause(alloc, line)?)),
    }
}

/// The cause for which a line, of whatever length and without its line feed, is no transaction, in the words of docs/FORMATS.md; `None`
/// exactly where it is one. Of a line that is no JSON text it is the first byte, from 1, up to which the line isn't the front of one, with
/// what stands there. `Memory` is free.
pub fn line_cause(alloc: Global, line: &[u8]) -> Result<Option<Bytes>, Memory>
    ensures cause { IfOk result (λ cause. IsLineCause line.now cause) }
    ensures refused { IfOk result (λ cause. is_some cause ≡ not (is_some (txn_of line.now))) }
{
    let cause = told_cause(alloc, line)?;
    Ok(cause)
}
