ghost use Rattle.std.specs.Prelude.{◌≡◌, ◌⊎◌, ℕ, List, IfOk};
ghost use Rattle.pgs_run_lines.specs.AreasKept.{KeepsAreas};
ghost use Rattle.pgs_run_lines.specs.Replies.{EndsLast, EndsReply};
ghost use Rattle.pgs_world.specs.Disk.{PutsFront};
ghost use Rattle.pgs_world.specs.Moment.{StopsBy};

use crate::putting::put_piece;
use pgs_base::{Bytes, Memory};
use pgs_world::World;

/// How a program's run may end.
pub trait RunStatus: Copy {
    /// The status where a put failed.
    ghost put_failed: { Self };

    /// The status where there was no memory.
    ghost no_memory: { Self };

    /// The status where a put failed.
    fn put_fault() -> Self
        ensures { result ≡ put_failed };

    /// The status where there was no memory.
    fn memory() -> Self
        ensures { result ≡ no_memory };
}

/// A line, and the status of a run that puts it last.
#[derive(Drop)]
pub struct Reply<E> {
    pub line: Bytes,
    pub status: E,
}

/// Puts the line of a reply, and gives its status, or the status of a put that failed, which comes only where the count of put faults
/// rose. At every moment both areas are what they were, and a front of the line is out.
pub fn put_reply<E: RunStatus, W: World>(world: &mut W, reply: &Reply<E>) -> E
    ensures ends { EndsReply reply.now.line reply.now.status E.put_failed (W.view world.old) result (W.view world.new) }
    ensures stops { StopsBy (PutsFront reply.now.line) (W.view world.old) (W.view world.new) }
    ensures areas { KeepsAreas (W.view world.old) (W.view world.new) }
    ensures last { (result ≡ reply.now.status) ⊎ W.failed world.new }
{
    match put_piece::<E, W>(world, reply.line.as_slice()) {
        Ok(()) => reply.status,
        Err(_) => E::put_fault(),
    }
}

/// Puts a line that was made, where there was memory for it, and gives the status: the one given, that of a put that failed, or that of
/// no memory. At every moment both areas are what they were, and a front of the line is out; without memory nothing is put.
pub fn put_last<E: RunStatus, W: World>(world: &mut W, made: Result<Bytes, Memory>, status: E) -> E
    ensures ends { (line : List ℕ) → IfOk made (λ made. made ≡ line) → EndsLast line status E.put_failed E.no_memory (W.view world.old) result (W.view world.new) }
    ensures stops { (line : List ℕ) → IfOk made (λ made. made ≡ line) → StopsBy (PutsFront line) (W.view world.old) (W.view world.new) }
    ensures areas { KeepsAreas (W.view world.old) (W.view world.new) }
    ensures last { (result ≡ status) ⊎ ((result ≡ E.no_memory) ⊎ W.failed world.new) }
{
    match made {
        Ok(line) => put_reply(world, &Reply { line, status }),
        Err(_) => E::memory(),
    }
}
