ghost use Rattle.std.specs.Prelude.{◌≡◌, ◌≤◌, ◌∷◌, ◌++◌, [], List, ℕ, Some, IfOk, OnOk, codes, string_bytes};
ghost use Rattle.pgs_run_lines.specs.Areas.{keeps_areas};
ghost use Rattle.pgs_run_lines.specs.AreasKept.{KeepsAreas};
ghost use Rattle.pgs_run_lines.specs.Machine.{told_by};
ghost use Rattle.pgs_run_lines.specs.Pieces.{shown_of};
ghost use Rattle.pgs_run_lines.specs.Run.{EndsAs};
ghost use Rattle.pgs_run_lines.specs.declared.budget.TheConstants.{BUDGET};
ghost use Rattle.tests_world.specs.Counting.{counting, count_line};

use pgs_base::{Bytes, List, Memory};
use pgs_run_lines::{LineTaker, Stop, is_blank, put_piece, put_pieces, run_lines};
use pgs_world::{Source, World};
use std::alloc::Global;

/// The most bytes of a line.
pub const LIMIT: usize = 80;

/// How the counting ended.
#[derive(Clone, Copy, Debug, Drop)]
pub enum CountEnd {
    /// The input was read to its end.
    Counted,
    /// As many bytes as the budget were taken.
    Cut,
    /// A line was a point.
    Point,
}

#[derive(Drop)]
struct Counting {
    lines: u64,
}

#[tactic(auto, unfolding(crate::specs::Counting::count_line))]
fn count_line(alloc: Global, count: u64) -> Result<String, Memory>
    ensures { IfOk result (λ line. string_bytes line ≡ count_line count) }
{
    Ok(format!(in alloc; "lines={count}\n")?)
}

fn push_piece(pieces: &mut List<Bytes>, alloc: Global, piece: &[u8]) -> Result<(), Memory>
    ensures { OnOk result (pieces.new ≡ pieces.old ++ piece.now ∷ []) }
{
    let bytes = Bytes::from_slice(alloc, piece)?;
    pieces.push(bytes).map_err(|_| Memory)
}

fn last_pieces(alloc: Global, count: u64, rest: &[u8]) -> Result<List<Bytes>, Memory>
    ensures { IfOk result (λ pieces. pieces ≡ count_line count ∷ rest.now ∷ codes "\n" ∷ []) }
{
    let line = count_line(alloc, count)?;
    let mut pieces = List::new(alloc);
    push_piece(&mut pieces, alloc, line.as_bytes())?;
    push_piece(&mut pieces, alloc, rest)?;
    push_piece(&mut pieces, alloc, b"\n")?;
    Ok(pieces)
}

impl LineTaker for Counting {
    type Status = CountEnd;

    ghost machine = { counting };

    ghost rule = { keeps_areas counting };

    ghost stands = { λ taker. taker.lines };

    ghost kept = { λ taker. tt };

    fn end_line<W: World>(
        &mut self,
        _alloc: Global,
        world: &mut W,
        line: &[u8],
    ) -> Result<(), Stop<CountEnd>> {
        if line == b".".as_slice() {
            return match put_piece(world, b"point\n") {
                Ok(()) => Err(Stop::Ended(CountEnd::Point)),
                Err(stop) => Err(stop),
            };
        }
        if !is_blank(line, LIMIT) {
            self.lines += 1;
        }
        Ok(())
    }

    fn end_input<W: World>(&mut self, alloc: Global, world: &mut W, rest: &[u8]) -> Stop<CountEnd> {
        let pieces = match last_pieces(alloc, self.lines, rest) {
            Ok(pieces) => pieces,
            Err(_) => return Stop::Memory,
        };
        match put_pieces(world, pieces.as_slice()) {
            Ok(()) => Stop::Ended(CountEnd::Counted),
            Err(stop) => stop,
        }
    }

    fn end_budget(&self) -> CountEnd {
        CountEnd::Cut
    }
}

/// Counts the lines of an input within a budget of bytes, at most 2^40. What is put, and how it ends, is what `counting` tells. Both
/// areas are kept, and no area fault is answered.
pub fn count_lines<S: Source, W: World>(
    alloc: Global,
    source: &mut S,
    world: &mut W,
    budget: u64,
) -> Stop<CountEnd>
    requires { budget ≤ BUDGET }
    ensures ends { (input : List ℕ) → S.left source.old ≡ Some input
        → EndsAs (told_by counting 80 0 input) (shown_of (W.view world.old)) input budget (S.left source.new) result (shown_of (W.view world.new)) }
    ensures no_area { result ≡ Stop.DiskFault → ⊥ }
    ensures areas { KeepsAreas (W.view world.old) (W.view world.new) }
{
    let mut counting = Counting { lines: 0 };
    run_lines(&mut counting, alloc, source, world, LIMIT, budget)
}
