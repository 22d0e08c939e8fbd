ghost use Rattle.std.specs.Prelude.{◌≡◌, ◌+◌, ◌≤◌, ◌<◌, ℕ, List, ◌++◌, ◌∷◌, [], length, take, Err, IsTrue, IfOk, nat_lt};
ghost use Rattle.std.specs.Option.{MatchOption};
ghost use Rattle.byteorder.specs.Endian.{big_bytes, big_number};
ghost use Rattle.pgs_codec.specs.Frame.{number_field};
ghost use Rattle.pgs_journal.specs.Area.{is_fit};
ghost use Rattle.pgs_journal.specs.Calls.{HasAreaCause, HasAreaCauseWhere};
ghost use Rattle.pgs_journal.specs.Format.{field_bytes, is_epoch, opened, record_number};
ghost use Rattle.pgs_journal.specs.Reading.{record_of, Torn};
ghost use Rattle.pgs_journal.specs.Seen.{HasLength, Stand, IsTorn, IsUnsound, IsAsked, IsTold, IsSettled, IsRead};
ghost use Rattle.pgs_journal.specs.Told.{IsOpenYet, IsStateOf};
ghost use Rattle.pgs_world.specs.Answers.{Read};
ghost use Rattle.pgs_world.specs.Moment.{IsQuiet, ShowsOne, MakesNoPut};
ghost use Rattle.pgs_world.specs.World.{part};
ghost use Rattle.pgs_world.specs.declared.area_limit.TheConstants.{AREA_LIMIT};

use crate::journal::OPEN;
use crate::{AreaState, Format, ScanFault};
use byteorder::{BigEndian, ByteOrder};
use pgs_base::{Bytes, List, Memory};
use pgs_codec::{PayloadKind, payload_kind};
use pgs_world::{Area, AreaFault, World};
use std::alloc::Global;

/// Whether a payload is fit for its place.
#[tactic(auto, unfolding(crate::specs::Area::is_fit))]
fn fits(
    alloc: Global,
    format: Format,
    epoch: u64,
    number: u64,
    payload: &[u8],
) -> Result<bool, Memory>
    requires { IsTrue (is_epoch epoch) }
    ensures { IfOk result (λ fits. fits ≡ is_fit format epoch number payload.now) }
{
    match payload_kind(alloc, payload)? {
        Some(PayloadKind::Schema) => Ok(number == 1 || format == Format::Second),
        Some(PayloadKind::Txn) => Ok(number != 1),
        Some(PayloadKind::Snapshot { commits }) => {
            Ok(number == 2 && commits <= (epoch - 1) * (1 << 40))
        }
        None => Ok(false),
    }
}

/// A number of eight bytes.
fn number_of(bytes: &[u8]) -> u64
    requires { length bytes.now ≡ 8 }
    ensures number { result ≡ big_number 8 bytes.now }
    ensures bytes { bytes.now ≡ big_bytes 8 result }
{
    BigEndian::read_u64(bytes)
}

/// The length that the fields of a record give, where they bear its number.
fn size_in(format: Format, number: u64, fields: &[u8]) -> Option<u64>
    requires { length fields.now ≡ field_bytes format }
    ensures { MatchOption result
        ((rest : List ℕ) → take (length fields.now) rest ≡ fields.now → record_of format number rest ≡ Torn)
        (λ size. fields.now ≡ number_field (record_number format number) ++ big_bytes 8 size) }
{
    match format {
        Format::First => Some(number_of(fields)),
        Format::Second if number_of(&fields[..8]) == number => Some(number_of(&fields[8..])),
        Format::Second => None,
    }
}

/// As many zeros.
fn zeros(alloc: Global, count: usize) -> Result<Vec<u8>, Memory>
    ensures { IfOk result (λ bytes. length bytes.items ≡ count) }
{
    Ok(vec![in alloc; 0; count]?)
}

/// Reads the records of an area whose head is that of a store of this format and epoch.
#[derive(Clone, Copy)]
pub(crate) struct RecordReader {
    pub(crate) area: Area,
    pub(crate) format: Format,
    pub(crate) epoch: u64,
}

impl RecordReader {
    /// Whether the area has a byte at this place. Where that isn't known of its length, the length is asked again: a record may have been
    /// appended since.
    fn reaches<W: World>(
        &self,
        world: &mut W,
        known: &mut u64,
        place: u64,
    ) -> Result<bool, AreaFault>
        requires limit { known.old ≤ AREA_LIMIT }
        requires len { HasLength (W.view world.old) self.now.area known.old }
        ensures limit { known.new ≤ AREA_LIMIT }
        ensures len { HasLength (W.view world.old) self.now.area known.new }
        ensures within { IfOk result (λ within. within ≡ nat_lt place known.new) }
        ensures asked { IfOk result (λ within. IsAsked W.answered (W.view world.old) self.now.area known.new within world.old world.new) }
        ensures quiet { IsQuiet (W.view world.old) (W.view world.new) }
        ensures image { ShowsOne (W.view world.old) → ShowsOne (W.view world.new) }
        ensures faults { HasAreaCause result (W.failed world.new) (W.view world.old) (W.view world.new) }
        ensures no_put { MakesNoPut (W.view world.old) (W.view world.new) }
    {
        if place < *known {
            return Ok(true);
        }
        *known = world.len(self.area)?;
        Ok(place < *known)
    }

    /// How long the payload is of the record of this number whose gate, an open one, stands before this place; `None` where the
    /// record isn't whole or bears another number.
    fn size_at<W: World>(
        &self,
        world: &mut W,
        known: &mut u64,
        at: u64,
        number: u64,
    ) -> Result<Option<u64>, AreaFault>
        requires at { at ≤ AREA_LIMIT }
        requires limit { known.old ≤ AREA_LIMIT }
        requires len { HasLength (W.view world.old) self.now.area known.old }
        ensures limit { known.new ≤ AREA_LIMIT }
        ensures len { HasLength (W.view world.old) self.now.area known.new }
        ensures size { IfOk result (λ found. MatchOption found
            (IsSettled W.answered (W.view world.old) self.now.area world.old world.new (IsTorn self.now.format number) at (IsTorn self.now.format number))
            (λ size. (at + field_bytes self.now.format + size < known.new)
            × IsTold W.answered (W.view world.old) self.now.area world.old world.new (IsTorn self.now.format number) at
            (number_field (record_number self.now.format number) ++ big_bytes 8 size))) }
        ensures quiet { IsQuiet (W.view world.old) (W.view world.new) }
        ensures image { ShowsOne (W.view world.old) → ShowsOne (W.view world.new) }
        ensures faults { HasAreaCause result (W.failed world.new) (W.view world.old) (W.view world.new) }
        ensures no_put { MakesNoPut (W.view world.old) (W.view world.new) }
    {
        let behind = at + self.format.field_bytes();
        if !self.reaches(world, known, behind)? {
            return Ok(None);
        }
        let mut bytes = [0; 16];
        let fields = &mut bytes[..self.format.field_bytes() as usize];
        world.read_at(self.area, at, fields)?;
        let Some(size) = size_in(self.format, number, fields) else {
            return Ok(None);
        };
        if !self.reaches(world, known, behind.saturating_add(size))? {
            return Ok(None);
        }
        Ok(Some(size))
    }

    /// The payload of this size at a place, and the gate behind it.
    fn payload_at<W: World>(
        &self,
        alloc: Global,
        world: &mut W,
        at: u64,
        size: u64,
    ) -> Result<(Bytes, u8), ScanFault>
        requires limit { at + size < AREA_LIMIT }
        requires inside { IsTrue (W.view world.old).tells_bytes → at + size < length (part self.now.area (W.view world.old).shown) }
        ensures answered { IfOk result (λ read. W.answered world.old self.now.area (Read at (read.0 ++ read.1 ∷ [])) world.new) }
        ensures stand { IfOk result (λ read. Stand (W.view world.old) self.now.area at (read.0 ++ read.1 ∷ [])) }
        ensures size { IfOk result (λ read. length read.0 ≡ size) }
        ensures quiet { IsQuiet (W.view world.old) (W.view world.new) }
        ensures image { ShowsOne (W.view world.old) → ShowsOne (W.view world.new) }
        ensures faults { HasAreaCauseWhere (result ≡ Err ScanFault.AreaFault) (W.failed world.new) (W.view world.old) (W.view world.new) }
        ensures no_put { MakesNoPut (W.view world.old) (W.view world.new) }
    {
        let mut bytes = zeros(alloc, size as usize + 1)?;
        world.read_at(self.area, at, &mut bytes)?;
        let gate = bytes.pop().unwrap();
        Ok((List::from_vec(bytes), gate))
    }

    /// The record of this number whose gate, an open one, stands before a place, and the gate behind it; `None` where it isn't whole
    /// or isn't fit for its place.
    fn record_at<W: World>(
        &self,
        alloc: Global,
        world: &mut W,
        known: &mut u64,
        at: u64,
        number: u64,
    ) -> Result<Option<(Bytes, u8)>, ScanFault>
        requires at { at ≤ AREA_LIMIT }
        requires limit { known.old ≤ AREA_LIMIT }
        requires epoch { IsTrue (is_epoch self.now.epoch) }
        requires len { HasLength (W.view world.old) self.now.area known.old }
        ensures limit { known.new ≤ AREA_LIMIT }
        ensures len { HasLength (W.view world.old) self.now.area known.new }
        ensures record { IfOk result (λ found. MatchOption found
            (IsSettled W.answered (W.view world.old) self.now.area world.old world.new (IsTorn self.now.format number) at
            (IsUnsound self.now.format self.now.epoch number))
            (λ read. IsRead W.answered (W.view world.old) self.now.area world.old world.new self.now.format self.now.epoch number at read.0 read.1)) }
        ensures quiet { IsQuiet (W.view world.old) (W.view world.new) }
        ensures image { ShowsOne (W.view world.old) → ShowsOne (W.view world.new) }
        ensures faults { HasAreaCauseWhere (result ≡ Err ScanFault.AreaFault) (W.failed world.new) (W.view world.old) (W.view world.new) }
        ensures no_put { MakesNoPut (W.view world.old) (W.view world.new) }
    {
        let Some(size) = self.size_at(world, known, at, number)? else {
            return Ok(None);
        };
        let behind = at + self.format.field_bytes();
        let (payload, gate) = self.payload_at(alloc, world, behind, size)?;
        if fits(alloc, self.format, self.epoch, number, payload.as_slice())? {
            Ok(Some((payload, gate)))
        } else {
            Ok(None)
        }
    }

    /// What the area is, whose first record has this gate, and of whose length this is known. Each payload is read into the memory in which
    /// it is handed out.
    pub(crate) fn read_all<W: World>(
        &self,
        alloc: Global,
        world: &mut W,
        len: u64,
        gate: u8,
    ) -> Result<AreaState, ScanFault>
        requires limit { len ≤ AREA_LIMIT }
        requires epoch { IsTrue (is_epoch self.now.epoch) }
        requires len { HasLength (W.view world.old) self.now.area len }
        requires image { ShowsOne (W.view world.old) }
        ensures settled { IfOk result (λ state. let front = opened self.now.format self.now.epoch [] ++ gate ∷ [] in
            IsSettled W.answered (W.view world.old) self.now.area world.old world.new (λ told. IsOpenYet (front ++ told)) 17 (λ rest. IsStateOf state (front ++ rest))) }
        ensures quiet { IsQuiet (W.view world.old) (W.view world.new) }
        ensures image { ShowsOne (W.view world.new) }
        ensures faults { HasAreaCauseWhere (result ≡ Err ScanFault.AreaFault) (W.failed world.new) (W.view world.old) (W.view world.new) }
        ensures no_put { MakesNoPut (W.view world.old) (W.view world.new) }
    {
        let mut payloads = Vec::new(alloc);
        let mut known = len;
        let mut at = 16;
        let mut gate = gate;
        while gate == OPEN {
            let number = payloads.len() as u64 + 1;
            let Some((payload, behind)) = self.record_at(alloc, world, &mut known, at + 1, number)?
            else {
                return Ok(AreaState::Damaged {
                    epoch: self.epoch,
                    number,
                });
            };
            at += 1 + self.format.field_bytes() + payload.len() as u64;
            gate = behind;
            if payloads.push(payload).is_err() {
                return Err(ScanFault::Memory);
            }
        }
        if payloads.is_empty() {
            return Ok(AreaState::Damaged {
                epoch: self.epoch,
                number: 1,
            });
        }
        Ok(AreaState::Store {
            epoch: self.epoch,
            end: at,
            next: self.format.record_number(payloads.len() as u64 + 1),
            payloads: List::from_vec(payloads),
        })
    }
}
