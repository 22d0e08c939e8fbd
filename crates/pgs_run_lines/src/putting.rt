ghost use Rattle.std.specs.Prelude.{◌≡◌, ◌∷◌, [], ℕ, List, true, IfErr, IfOk};
ghost use Rattle.pgs_run_lines.specs.AreasKept.{KeepsAreas};
ghost use Rattle.pgs_run_lines.specs.Calls.{stops_of_world};
ghost use Rattle.pgs_run_lines.specs.Driving.{LineShows};
ghost use Rattle.pgs_run_lines.specs.Ending.{HasAnyCause, faults_of};
ghost use Rattle.pgs_run_lines.specs.Pieces.{pieces_in, shown_of};
ghost use Rattle.pgs_run_lines.specs.Puts.{Puts};
ghost use Rattle.pgs_world.specs.Disk.{PutsFront};
ghost use Rattle.pgs_world.specs.Moment.{StopsBy};

use crate::stop::Stop;
use pgs_base::{Bytes, Memory};
use pgs_world::World;

/// Puts a piece. `PutFault` is the one stop, and comes only where the count of put faults rose. At every moment both areas are what
/// they were, and a front of the piece is out.
pub fn put_piece<E, W: World>(world: &mut W, piece: &[u8]) -> Result<(), Stop<E>>
    ensures shows { LineShows (shown_of (W.view world.old)) (piece.now ∷ []) result (shown_of (W.view world.new)) }
    ensures fault { IfErr result (λ stop. stop ≡ Stop.PutFault) }
    ensures cause { HasAnyCause (faults_of 0 (W.view world.old)) (faults_of 0 (W.view world.new)) result }
    ensures last { stops_of_world result ≡ true → W.failed world.new }
    ensures areas { KeepsAreas (W.view world.old) (W.view world.new) }
    ensures stops { StopsBy (PutsFront piece.now) (W.view world.old) (W.view world.new) }
{
    match world.put(piece) {
        Ok(()) => Ok(()),
        Err(_) => Err(Stop::PutFault),
    }
}

/// Puts a piece, where there is one. `PutFault` is the one stop, and comes only where the count of put faults rose.
pub fn put_any<E, W: World>(world: &mut W, piece: Option<Bytes>) -> Result<(), Stop<E>>
    ensures shows { LineShows (shown_of (W.view world.old)) (pieces_in piece) result (shown_of (W.view world.new)) }
    ensures fault { IfErr result (λ stop. stop ≡ Stop.PutFault) }
    ensures cause { HasAnyCause (faults_of 0 (W.view world.old)) (faults_of 0 (W.view world.new)) result }
    ensures last { stops_of_world result ≡ true → W.failed world.new }
    ensures areas { KeepsAreas (W.view world.old) (W.view world.new) }
{
    match piece {
        Some(piece) => put_piece(world, piece.as_slice()),
        None => Ok(()),
    }
}

/// Puts pieces, one after another. `PutFault` is the one stop, and comes only where the count of put faults rose; nothing is put
/// after it.
pub fn put_pieces<E, W: World>(world: &mut W, pieces: &[Bytes]) -> Result<(), Stop<E>>
    ensures shows { LineShows (shown_of (W.view world.old)) pieces.now result (shown_of (W.view world.new)) }
    ensures fault { IfErr result (λ stop. stop ≡ Stop.PutFault) }
    ensures cause { HasAnyCause (faults_of 0 (W.view world.old)) (faults_of 0 (W.view world.new)) result }
    ensures last { stops_of_world result ≡ true → W.failed world.new }
    ensures areas { KeepsAreas (W.view world.old) (W.view world.new) }
{
    for piece in pieces {
        match put_piece(world, piece.as_slice()) {
            Ok(()) => {}
            Err(stop) => return Err(stop),
        }
    }
    Ok(())
}

/// Puts a piece that was made, where there was memory for it. `PutFault` comes only where the count of put faults rose, and a front of
/// the piece may then have been put; after `Memory` nothing was put. No other stop comes.
pub fn put_made<E, W: World>(world: &mut W, made: Result<Bytes, Memory>) -> Result<(), Stop<E>>
    ensures puts { (piece : List ℕ) → IfOk made (λ line. line ≡ piece) → Puts (W.view world.old) (piece ∷ []) result (W.view world.new) }
    ensures last { stops_of_world result ≡ true → W.failed world.new }
{
    let piece = match made {
        Ok(piece) => piece,
        Err(_) => return Err(Stop::Memory),
    };
    put_piece(world, piece.as_slice())
}
