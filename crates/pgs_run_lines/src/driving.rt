ghost use Rattle.std.specs.Prelude.{◌≡◌, ◌≤◌, ◌+◌, ◌∷◌, ◌++◌, [], List, ℕ, length, IfErr, OnOk, true};
ghost use Rattle.pgs_run_lines.specs.Buffer.{IsBegun};
ghost use Rattle.pgs_run_lines.specs.Calls.{stops_of_world};
ghost use Rattle.pgs_run_lines.specs.Driving.{TakesTo};
ghost use Rattle.pgs_run_lines.specs.Ending.{HasAnyCause, faults_of};
ghost use Rattle.pgs_run_lines.specs.Input.{has_no_feed};
ghost use Rattle.pgs_run_lines.specs.Machine.{HasRoomFor, scene_of};
ghost use Rattle.pgs_run_lines.specs.May.{MayCome};

use crate::line_buffer::LineBuffer;
use crate::lines::line_end;
use crate::stop::Stop;
use crate::taker::LineTaker;
use pgs_world::World;
use std::alloc::Global;

// Takes the rest of a line, whose line feed comes.
fn take_line<T: LineTaker, W: World>(
    taker: &mut T,
    buffer: &mut LineBuffer,
    alloc: Global,
    world: &mut W,
    part: &[u8],
) -> Result<(), Stop<T::Status>>
    requires room { HasRoomFor T.machine 1 (T.stands taker.old) }
    requires holds { T.rule.holds (T.stands taker.old) (W.view world.old) }
    requires begun { IsBegun buffer.old }
    requires line { has_no_feed part.now ≡ true }
    ensures takes { TakesTo T.machine T.rule buffer.old.limit (T.stands taker.old) (scene_of (W.view world.old) (T.kept taker.old)) (buffer.old.bytes ++ (part.now ++ 10 ∷ [])) (T.stands taker.new) buffer.new.bytes result (scene_of (W.view world.new) (T.kept taker.new)) }
    ensures limit { buffer.new.limit ≡ buffer.old.limit }
    ensures begun { OnOk result (IsBegun buffer.new) }
    ensures room { OnOk result ((lines : ℕ) → T.machine.HasRoom (lines + 1) (T.stands taker.old) → T.machine.HasRoom lines (T.stands taker.new)) }
    ensures holds { OnOk result (T.rule.holds (T.stands taker.new) (W.view world.new)) }
    ensures cause { HasAnyCause (faults_of 0 (W.view world.old)) (faults_of 0 (W.view world.new)) result }
    ensures last { stops_of_world result ≡ true → W.failed world.new }
    ensures may { IfErr result (MayCome T.machine) }
{
    match buffer.push_all(part) {
        Ok(()) => {}
        Err(_) => return Err(Stop::Memory),
    }
    match taker.end_line(alloc, world, buffer.as_slice()) {
        Ok(()) => {}
        Err(stop) => return Err(stop),
    }
    buffer.clear();
    Ok(())
}

/// Takes bytes of the input. After an error the taker isn't used any more.
pub fn take_bytes<T: LineTaker, W: World>(
    taker: &mut T,
    buffer: &mut LineBuffer,
    alloc: Global,
    world: &mut W,
    bytes: &[u8],
) -> Result<(), Stop<T::Status>>
    requires room { HasRoomFor T.machine (length bytes.now) (T.stands taker.old) }
    requires holds { T.rule.holds (T.stands taker.old) (W.view world.old) }
    requires begun { IsBegun buffer.old }
    ensures takes { TakesTo T.machine T.rule buffer.old.limit (T.stands taker.old) (scene_of (W.view world.old) (T.kept taker.old)) (buffer.old.bytes ++ bytes.now) (T.stands taker.new) buffer.new.bytes result (scene_of (W.view world.new) (T.kept taker.new)) }
    ensures limit { buffer.new.limit ≡ buffer.old.limit }
    ensures begun { OnOk result (IsBegun buffer.new) }
    ensures room { OnOk result ((more : ℕ) → HasRoomFor T.machine (length bytes.now + more) (T.stands taker.old) → HasRoomFor T.machine more (T.stands taker.new)) }
    ensures holds { OnOk result (T.rule.holds (T.stands taker.new) (W.view world.new)) }
    ensures cause { HasAnyCause (faults_of 0 (W.view world.old)) (faults_of 0 (W.view world.new)) result }
    ensures last { stops_of_world result ≡ true → W.failed world.new }
    ensures may { IfErr result (MayCome T.machine) }
{
    let mut rest = bytes;
    while let Some(end) = line_end(rest) {
        match take_line(taker, buffer, alloc, world, &rest[..end]) {
            Ok(()) => {}
            Err(stop) => return Err(stop),
        }
        rest = &rest[end + 1..];
    }
    match buffer.push_all(rest) {
        Ok(()) => Ok(()),
        Err(_) => Err(Stop::Memory),
    }
}
