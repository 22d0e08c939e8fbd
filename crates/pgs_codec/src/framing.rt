ghost use Rattle.std.specs.Prelude.{◌≡◌, ◌++◌, Some, IfOk, OnOk, IsTrue};
ghost use Rattle.byteorder.specs.Endian.{big_bytes};
ghost use Rattle.pgs_codec.specs.declared.command.Command.TheVariants.{Txn as Transaction};
ghost use Rattle.pgs_codec.specs.Encodable.{is_sized};
ghost use Rattle.pgs_codec.specs.Frame.{framed};
ghost use Rattle.pgs_codec.specs.Payload.{payload_of};
ghost use Rattle.pgs_codec.specs.Reading.{decoded};

use crate::encoding::encode_txn;
use byteorder::{BigEndian, ByteOrder};
use pgs_base::{Bytes, List, Memory};
use pgs_graph::Txn;
use std::alloc::Global;

/// Puts the eight bytes of a number last, the highest first.
fn push_number(number: u64, out: &mut Vec<u8>) -> Result<(), Memory>
    ensures { OnOk result (out.new.items ≡ out.old.items ++ big_bytes 8 number) }
{
    let mut bytes = [0; 8];
    BigEndian::write_u64(&mut bytes, number);
    out.extend_from_slice(&bytes)?;
    Ok(())
}

/// A payload as it is appended to a journal: the record's number where its format has one, eight bytes of the payload's length, the
/// payload, and the closed gate of the record after it. `Memory` where there was none left.
pub fn frame(alloc: Global, payload: &[u8], number: Option<u64>) -> Result<Bytes, Memory>
    ensures { IfOk result (λ frame. frame ≡ framed number payload.now) }
{
    let mut frame = Vec::with_capacity(alloc, payload.len().saturating_add(17))?;
    if let Some(number) = number {
        push_number(number, &mut frame)?;
    }
    push_number(payload.len() as u64, &mut frame)?;
    frame.extend_from_slice(payload)?;
    frame.push(0)?;
    Ok(List::from_vec(frame))
}

/// The frame of a transaction, which need not be a command and isn't copied: [`frame`] of what [`encode`](crate::encode) gives for it as a
/// command. It asks that each row that is added has at most 64 labels and 256 properties, and that there are fewer than 2^32 operations.
/// `Memory` where there was none left.
pub fn frame_txn(alloc: Global, txn: &Txn, number: Option<u64>) -> Result<Bytes, Memory>
    requires { IsTrue (is_sized (Transaction txn.now)) }
    ensures frame { IfOk result (λ frame. frame ≡ framed number (payload_of (Transaction txn.now))) }
    // The payload is read as the transaction.
    ensures decoded { OnOk result (decoded (payload_of (Transaction txn.now)) ≡ Some (Transaction txn.now)) }
{
    let payload = encode_txn(alloc, txn)?;
    frame(alloc, payload.as_slice(), number)
}
