ghost use Rattle.std.specs.Prelude.{◌≡◌, IfOk};
ghost use Rattle.pgs_answer.specs.Refusals.{no_store_text, already_store_text, foreign_text, bad_record_text, bad_history_text, epochs_spent_text, old_format_text};

use crate::pieces::number_between;
use crate::rejection_texts::push_rejection;
use pgs_base::{Bytes, Limits, Memory};
use pgs_base_text::TextBuffer;
use pgs_violation::Rejection;
use std::alloc::Global;

// Room for a text with three numbers.
const ROOM: usize = 128;

/// Refusal 30: no area is a store.
pub fn no_store_text(alloc: Global) -> Result<Bytes, Memory>
    ensures { IfOk result (λ text. text ≡ no_store_text) }
{
    Bytes::from_slice(alloc, b"30 no store")
}

/// Refusal 31: an area is a store.
pub fn already_store_text(alloc: Global) -> Result<Bytes, Memory>
    ensures { IfOk result (λ text. text ≡ already_store_text) }
{
    Bytes::from_slice(alloc, b"31 a store is there")
}

/// Refusal 32: an area belongs to another program.
pub fn foreign_text(alloc: Global) -> Result<Bytes, Memory>
    ensures { IfOk result (λ text. text ≡ foreign_text) }
{
    Bytes::from_slice(alloc, b"32 another program's file")
}

/// Refusal 33: the number of the damaged record, from 1.
pub fn bad_record_text(alloc: Global, number: u64) -> Result<Bytes, Memory>
    ensures { IfOk result (λ text. text ≡ bad_record_text number) }
{
    number_between(alloc, b"33 record ", number, b" is damaged")
}

/// Refusal 34: the number of the record, from 1, and the rejection of what it holds.
pub fn bad_history_text(
    alloc: Global,
    number: u64,
    rejection: &Rejection,
    limits: &Limits,
) -> Result<Bytes, Memory>
    ensures { IfOk result (λ text. text ≡ bad_history_text number rejection.now limits.now) }
{
    let mut text = TextBuffer::with_room(alloc, ROOM)?;
    text.push(b"34 record ")?;
    text.push_number(number)?;
    text.push(b": ")?;
    push_rejection(&mut text, rejection, limits)?;
    Ok(text.into_bytes())
}

/// Refusal 37: the epoch is the last one.
pub fn epochs_spent_text(alloc: Global) -> Result<Bytes, Memory>
    ensures { IfOk result (λ text. text ≡ epochs_spent_text) }
{
    Bytes::from_slice(alloc, b"37 no epoch is left")
}

/// Refusal 41: the store is of the first format, which has no later schemas.
pub fn old_format_text(alloc: Global) -> Result<Bytes, Memory>
    ensures { IfOk result (λ text. text ≡ old_format_text) }
{
    Bytes::from_slice(alloc, b"41 format 1, make a checkpoint first")
}
