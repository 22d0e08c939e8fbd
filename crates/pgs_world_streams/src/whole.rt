ghost use Rattle.std.specs.Prelude.{IfErr};
ghost use Rattle.std.specs.Io.{WritesAtMost};
ghost use Rattle.std.specs.Io.KnownBytes.{WriteAppends};
ghost use Rattle.pgs_world_streams.specs.Pieces.{FailsWith, HoldsPiece, PieceIs, placeless};
ghost use Rattle.pgs_world_streams.specs.Tries.{WriteIsTried};

use crate::{SteadyWrite, is_tried_again};
use std::io::{self, ErrorKind};

/// One write, made again where it is interrupted.
fn write_some<W: SteadyWrite>(writer: &mut W, moment: u64, bytes: &[u8]) -> io::Result<usize>
    ensures bound { WritesAtMost result bytes.now }
    ensures bytes { WriteAppends (W.contents writer.old) (W.contents writer.new) result bytes.now }
    ensures tried { WriteIsTried (placeless (W.write_gives moment)) writer.old 0 bytes.now result writer.new }
{
    let mut tries = 0;
    loop {
        let answer = writer.write_once(moment, bytes);
        tries += 1;
        if !is_tried_again(&answer, tries) {
            return answer;
        }
    }
}

/// Writes the whole piece and flushes it. After an error some front of it was written: the error is the one that a write or the flush
/// gave, and `WriteZero` where a write took no byte. A write that is interrupted is made again, at most 999 times in a row.
/// All of it begins at one moment.
pub fn write_whole<W: SteadyWrite>(writer: &mut W, moment: u64, piece: &[u8]) -> io::Result<()>
    ensures holds { HoldsPiece W.contents writer.old piece.now result writer.new }
    ensures given { PieceIs (W.write_gives moment) (W.flush_gives moment) writer.old piece.now result writer.new }
    ensures error { IfErr result (λ error. FailsWith (W.write_gives moment) (W.flush_gives moment) writer.old piece.now error writer.new) }
{
    let mut done = 0;
    while done < piece.len() {
        match write_some(writer, moment, &piece[done..])? {
            0 => return Err(io::Error::from(ErrorKind::WriteZero)),
            count => done += count,
        }
    }
    writer.flush_once(moment)
}
