ghost use Rattle.std.specs.Prelude.{◌≡◌, ◌≢◌, ◌+◌, ◌<◌, ◌≤◌, length, nat_lt, slice_set, if◌then◌else◌, OnOk, IfOk, List, ℕ};
ghost use Rattle.pgs_resolve_order.specs.Searching.{IsSearch, mark_at, unseen_work, frame_work, work_of};

use crate::links::row_at;
use crate::marks::{mark_of, set_mark};
use pgs_base::{List, Memory};
use std::alloc::Global;

// A number on the way, its links that are left, and whether none of its links has led to a number that was seen before it.
#[derive(Clone, Copy)]
struct Frame<'a> {
    number: usize,
    rest: &'a [u32],
    is_root: bool,
}

// A search for strongly connected components, depth first. A number's mark is 0 until it is seen, then the least order
// that is reached from it, and at last the rank of its component.
#[derive(Drop)]
struct Search<'a> {
    marks: Vec<usize>,
    frames: Vec<Frame<'a>>,
    open: Vec<usize>,
    order: usize,
    rank: usize,
}

// Takes over a mark, where it is earlier.
fn take_earlier(marks: &mut Vec<usize>, number: usize, mark: usize) -> bool
    requires { 0 < mark }
    ensures earlier { result ≡ nat_lt mark (mark_at marks.old.items number) }
    ensures marks { marks.new.items ≡ (if nat_lt mark (mark_at marks.old.items number) then slice_set marks.old.items number mark else marks.old.items) }
    ensures work { (rows : List (List ℕ)) → unseen_work rows marks.new.items ≤ unseen_work rows marks.old.items }
{
    let is_earlier = mark < mark_of(marks, number);
    if is_earlier {
        set_mark(marks, number, mark);
    }
    is_earlier
}

// The last open number, where its mark isn't before another.
fn last_from(open: &[usize], marks: &[usize], mark: usize) -> Option<usize> {
    match open.last() {
        Some(number) if mark_of(marks, *number) >= mark => Some(*number),
        _ => None,
    }
}

// Gives a rank to the open numbers that were seen from a mark on, last first, and takes them out.
fn rank_open(open: &mut Vec<usize>, marks: &mut Vec<usize>, mark: usize, rank: usize)
    requires { 0 < rank }
    ensures len { length marks.new.items ≡ length marks.old.items }
    ensures work { (rows : List (List ℕ)) → unseen_work rows marks.new.items ≤ unseen_work rows marks.old.items }
{
    for _passed in 0..open.len() {
        let Some(number) = last_from(open, marks, mark) else {
            break;
        };
        set_mark(marks, number, rank);
        open.pop();
    }
}

impl<'a> Search<'a> {
    // Sees a number and goes there.
    fn enter(&mut self, rows: &'a [List<u32>], number: usize) -> Result<(), Memory>
        requires search { IsSearch rows.now self.old }
        requires unseen { mark_at self.old.marks.items number ≡ 0 }
        ensures search { OnOk result (IsSearch rows.now self.new) }
        ensures work { OnOk result (work_of rows.now self.new < work_of rows.now self.old) }
    {
        set_mark(&mut self.marks, number, self.order);
        self.order = self.order.saturating_add(1);
        self.frames.push(Frame {
            number,
            rest: row_at(rows, number),
            is_root: true,
        })?;
        Ok(())
    }

    // Stays at a number whose link led to one that was seen.
    fn pass(&mut self, rows: &'a [List<u32>], frame: Frame<'a>, next: usize) -> Result<(), Memory>
        requires search { IsSearch rows.now self.old }
        requires seen { mark_at self.old.marks.items next ≢ 0 }
        ensures search { OnOk result (IsSearch rows.now self.new) }
        ensures work { OnOk result (work_of rows.now self.new ≤ work_of rows.now self.old + frame_work frame.entry) }
    {
        let mark = mark_of(&self.marks, next);
        let is_earlier = take_earlier(&mut self.marks, frame.number, mark);
        self.frames.push(Frame {
            is_root: frame.is_root && !is_earlier,
            ..frame
        })?;
        Ok(())
    }

    // Gives the rank to the numbers that were seen from a root on.
    fn close(&mut self, rows: &'a [List<u32>], root: usize)
        requires search { IsSearch rows.now self.old }
        ensures search { IsSearch rows.now self.new }
        ensures work { work_of rows.now self.new ≤ work_of rows.now self.old }
    {
        let mark = mark_of(&self.marks, root);
        rank_open(&mut self.open, &mut self.marks, mark, self.rank);
        set_mark(&mut self.marks, root, self.rank);
        self.rank = self.rank.saturating_sub(1).max(1);
    }

    // Goes back from a number whose links are all passed.
    fn leave(&mut self, rows: &'a [List<u32>], frame: Frame<'a>) -> Result<(), Memory>
        requires search { IsSearch rows.now self.old }
        ensures search { OnOk result (IsSearch rows.now self.new) }
        ensures work { OnOk result (work_of rows.now self.new ≤ work_of rows.now self.old) }
    {
        if frame.is_root {
            self.close(rows, frame.number);
        } else {
            self.open.push(frame.number)?;
        }
        Ok(())
    }

    // Passes one link of a number on the way, or goes back from it.
    fn step(&mut self, rows: &'a [List<u32>], frame: Frame<'a>) -> Result<(), Memory>
        requires search { IsSearch rows.now self.old }
        ensures search { OnOk result (IsSearch rows.now self.new) }
        ensures work { OnOk result (work_of rows.now self.new < work_of rows.now self.old + frame_work frame.entry) }
    {
        match frame.rest {
            [next, rest @ ..] => {
                let next = *next as usize;
                if mark_of(&self.marks, next) == 0 {
                    self.frames.push(frame)?;
                    self.enter(rows, next)
                } else {
                    self.pass(rows, Frame { rest, ..frame }, next)
                }
            }
            [] => self.leave(rows, frame),
        }
    }

    // Goes to a number, where it isn't seen, and on until nothing is left on the way.
    fn visit(&mut self, rows: &'a [List<u32>], start: usize) -> Result<(), Memory>
        requires search { IsSearch rows.now self.old }
        ensures search { OnOk result (IsSearch rows.now self.new) }
    {
        if mark_of(&self.marks, start) != 0 {
            return Ok(());
        }
        self.enter(rows, start)?;
        while let Some(frame) = self.frames.pop() {
            self.step(rows, frame)?;
        }
        Ok(())
    }
}

/// Ranks of numbers: equal exactly at those that lead to one another, and else greater at the number that is led to. They
/// are a proposal, which is tested in `cycles`: no contract says so.
pub fn ranks(alloc: Global, rows: &[List<u32>]) -> Result<Vec<usize>, Memory>
    ensures { IfOk result (λ ranks. length ranks.items ≡ length rows.now) }
{
    let mut search = Search {
        marks: vec![in alloc; 0; rows.len()]?,
        frames: Vec::new(alloc),
        open: Vec::new(alloc),
        order: 1,
        rank: usize::MAX,
    };
    for start in 0..rows.len() {
        search.visit(rows, start)?;
    }
    Ok(search.marks)
}
