ghost use Rattle.std.specs.Prelude.{◌≡◌, ◌<◌, ◌≤◌, ◌+◌, ℕ, [], true, Ok, length, take, IfOk, IfErr, OnErr, OnOk, vec_len};
ghost use Rattle.std.specs.Result.{result_ok};
ghost use Rattle.pgs_run_lines.specs.declared.budget.TheConstants.{BUDGET};
ghost use Rattle.pgs_world.specs.Count.{RoseByOne};
ghost use Rattle.pgs_world.specs.Source.{Takes, IsAtEnd};
ghost use Rattle.pgs_run_lines.specs.Calls.{MayAsk, MakesReads, stops_of_source, stops_of_world};
ghost use Rattle.pgs_run_lines.specs.Ending.{HasAnyCause, faults_of};
ghost use Rattle.pgs_run_lines.specs.Machine.{HasRoomFor, scene_of};
ghost use Rattle.pgs_run_lines.specs.May.{MayCome};
ghost use Rattle.pgs_run_lines.specs.Reading.{Reads};

use crate::driving::take_bytes;
use crate::line_buffer::LineBuffer;
use crate::stop::Stop;
use crate::taker::LineTaker;
use pgs_base::Memory;
use pgs_world::{Source, SourceFault, World};
use std::alloc::Global;

/// The most bytes of a read.
const READ_SIZE: usize = 65_536;

/// How the reading of an input ended.
#[derive(Clone, Copy, PartialEq, Eq)]
pub enum End {
    /// The input was read to its end.
    Whole,
    /// As many bytes as the budget were taken.
    Cut,
}

// So many bytes of zero.
fn zeros(alloc: Global, count: usize) -> Result<Vec<u8>, Memory>
    ensures { IfOk result (λ zeros. vec_len zeros ≡ count) }
{
    Ok(Vec::from_elem(alloc, 0u8, count)?)
}

/// The buffer of all reads.
pub fn read_buffer(alloc: Global) -> Result<Vec<u8>, Memory>
    ensures { IfOk result (λ buffer. vec_len buffer ≡ 65536) }
{
    zeros(alloc, READ_SIZE)
}

/// Reads into the front of the buffer, and never more than is left of the budget.
pub fn read_some<S: Source>(
    source: &mut S,
    buffer: &mut [u8],
    left: u64,
) -> Result<usize, SourceFault>
    requires buffer { (0 < length buffer.old) × (length buffer.old ≤ 65536) }
    requires left { 0 < left }
    ensures made { (asked : ℕ) × MayAsk left asked × S.read_made source.old asked (result_ok result) source.new }
    ensures within { IfOk result (λ count. count ≤ length buffer.new) }
    ensures budget { IfOk result (λ count. count ≤ left) }
    ensures taken { IfOk result (λ count. Takes (S.left source.old) (S.left source.new) (take count buffer.new)) }
    ensures end { result ≡ Ok 0 → IsAtEnd (S.left source.old) }
    ensures kept { OnErr result (S.left source.new ≡ S.left source.old) }
    ensures cause { OnErr result (RoseByOne (S.faults source.old) (S.faults source.new)) }
    ensures no_cause { OnOk result (S.faults source.new ≡ S.faults source.old) }
{
    let most = if left < buffer.len() as u64 {
        left as usize
    } else {
        buffer.len()
    };
    source.read(&mut buffer[..most])
}

/// Reads the input to its end, or as many bytes as the budget, and takes its lines.
pub fn read_all<T: LineTaker, S: Source, W: World>(
    taker: &mut T,
    line: &mut LineBuffer,
    alloc: Global,
    source: &mut S,
    world: &mut W,
    bytes: &mut [u8],
    budget: u64,
) -> Result<End, Stop<T::Status>>
    requires bytes { (0 < length bytes.old) × (length bytes.old ≤ 65536) }
    requires budget { budget ≤ BUDGET }
    requires line { line.old.bytes ≡ [] }
    requires room { HasRoomFor T.machine (budget + 1) (T.stands taker.old) }
    requires holds { T.rule.holds (T.stands taker.old) (W.view world.old) }
    ensures reads { Reads T.machine T.rule line.old.limit (T.stands taker.old) (scene_of (W.view world.old) (T.kept taker.old)) budget (S.left source.old) (S.left source.new) (T.stands taker.new) line.new.bytes result (scene_of (W.view world.new) (T.kept taker.new)) }
    ensures room { OnOk result (HasRoomFor T.machine 1 (T.stands taker.new)) }
    ensures holds { OnOk result (T.rule.holds (T.stands taker.new) (W.view world.new)) }
    ensures cause { HasAnyCause (faults_of (S.faults source.old) (W.view world.old)) (faults_of (S.faults source.new) (W.view world.new)) result }
    ensures last { stops_of_world result ≡ true → W.failed world.new }
    ensures calls { MakesReads S.read_made budget source.old (stops_of_source result) source.new }
    ensures may { IfErr result (MayCome T.machine) }
{
    let mut left = budget;
    while left > 0 {
        let count = match read_some(source, bytes, left) {
            Ok(count) => count,
            Err(_) => return Err(Stop::ReadFault),
        };
        if count == 0 {
            return Ok(End::Whole);
        }
        match take_bytes(taker, line, alloc, world, &bytes[..count]) {
            Ok(()) => {}
            Err(stop) => return Err(stop),
        }
        left -= count as u64;
    }
    Ok(End::Cut)
}
