ghost use Rattle.std.specs.Prelude.{◌≡◌, ◌≤◌, ℕ, length, Some, None, IsTrue, IfOk, if◌then◌else◌};
ghost use Rattle.pgs_journal.specs.declared.format.Format.{Format};
ghost use Rattle.pgs_journal.specs.Area.{epoch_of, format_in, head_format, head_with, head_of, head_in};
ghost use Rattle.pgs_journal.specs.Calls.{HasAreaCause};
ghost use Rattle.pgs_journal.specs.Seen.{HasLength, Stand, IsFront, front_answers};
ghost use Rattle.pgs_journal.specs.declared.head.Head.TheVariants as heads;
ghost use Rattle.pgs_world.specs.Answers.{Answered};
ghost use Rattle.pgs_world.specs.Moment.{IsQuiet, ShowsOne, MakesNoPut};
ghost use Rattle.pgs_world.specs.World.{part};
ghost use Rattle.pgs_world.specs.declared.area_limit.TheConstants.{AREA_LIMIT};

use crate::Format;
use crate::journal::OPEN;
use byteorder::{BigEndian, ByteOrder};
use pgs_world::{Area, AreaFault, World};

/// The greatest epoch of a store (docs/BYTES.md).
pub const LAST_EPOCH: u64 = 16_777_215;

/// What the head of an area says of it.
#[derive(Clone, Copy)]
pub enum Head {
    /// The area has fewer than 17 bytes, or its gate is closed.
    NoStore,
    /// Its gate is open, and its head is no store's.
    Foreign,
    /// It is a store of this format and epoch, whole or damaged.
    Store { format: Format, epoch: u64 },
}

/// An area's length, and its first 17 bytes where it has so many: its gate, its head and the first record's gate.
#[derive(Clone, Copy)]
pub(crate) struct Front {
    pub(crate) area: Area,
    pub(crate) len: u64,
    pub(crate) bytes: [u8; 17],
}

/// The format whose seven bytes stand behind the gate.
fn format_in(front: &[u8]) -> Option<Format>
    requires { 17 ≤ length front.now }
    ensures { result ≡ format_in front.now }
{
    match &front[1..8] {
        b"PGSGRD1" => Some(Format::First),
        b"PGSGRD2" => Some(Format::Second),
        _ => None,
    }
}

/// What the head behind an open gate says.
fn head_behind(front: &[u8]) -> Head
    requires { length front.now ≡ 17 }
    ensures head { result ≡ head_with (head_format front.now) (epoch_of front.now) }
{
    let epoch = BigEndian::read_u64(&front[8..]);
    match format_in(front) {
        Some(format) if (1..=LAST_EPOCH).contains(&epoch) => Head::Store { format, epoch },
        _ => Head::Foreign,
    }
}

/// What a head says, by the first 17 bytes of its area.
fn head_of(front: &[u8]) -> Head
    requires { length front.now ≡ 17 }
    ensures head { result ≡ head_of front.now }
    ensures begins { (format : Format) (epoch : ℕ) → result ≡ heads.Store format epoch → IsFront format epoch front.now }
{
    if front[0] != OPEN {
        return Head::NoStore;
    }
    head_behind(front)
}

impl Front {
    /// Reads it, by one call for the length and at most one read.
    pub(crate) fn read<W: World>(world: &mut W, area: Area) -> Result<Front, AreaFault>
        ensures area { IfOk result (λ front. front.area ≡ area) }
        ensures len { IfOk result (λ front. HasLength (W.view world.old) area front.len) }
        ensures limit { IfOk result (λ front. front.len ≤ AREA_LIMIT) }
        ensures size { IfOk result (λ front. length front.bytes ≡ 17) }
        ensures bytes { IfOk result (λ front. 17 ≤ front.len → Stand (W.view world.old) area 0 front.bytes) }
        ensures answered { IfOk result (λ front. Answered W.answered area world.old (front_answers front.len front.bytes) world.new) }
        ensures quiet { IsQuiet (W.view world.old) (W.view world.new) }
        ensures image { ShowsOne (W.view world.new) }
        ensures faults { HasAreaCause result (W.failed world.new) (W.view world.old) (W.view world.new) }
        ensures no_put { MakesNoPut (W.view world.old) (W.view world.new) }
    {
        let len = world.len(area)?;
        let mut bytes = [0; 17];
        if len < 17 {
            return Ok(Front { area, len, bytes });
        }
        world.read_at(area, 0, &mut bytes)?;
        Ok(Front { area, len, bytes })
    }

    /// What the head says.
    pub(crate) fn head(&self) -> Head
        ensures head { result ≡ head_in self.now.len self.now.bytes }
        ensures begins { (format : Format) (epoch : ℕ) → result ≡ heads.Store format epoch → IsFront format epoch self.now.bytes }
    {
        if self.len < 17 {
            return Head::NoStore;
        }
        head_of(&self.bytes)
    }
}

/// What the head of an area says of it, by one call for its length and at most one read, of 17 bytes.
///
/// `AreaFault` comes only where the count of area faults rose.
pub fn read_head<W: World>(world: &mut W, area: Area) -> Result<Head, AreaFault>
    ensures head { IfOk result (λ head. IsTrue (W.view world.old).tells_bytes → head ≡ head_of (part area (W.view world.old).shown)) }
    ensures quiet { IsQuiet (W.view world.old) (W.view world.new) }
    ensures image { ShowsOne (W.view world.new) }
    ensures faults { HasAreaCause result (W.failed world.new) (W.view world.old) (W.view world.new) }
    ensures no_put { MakesNoPut (W.view world.old) (W.view world.new) }
{
    let front = Front::read(world, area)?;
    Ok(front.head())
}
