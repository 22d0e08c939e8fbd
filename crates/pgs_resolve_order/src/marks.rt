ghost use Rattle.std.specs.Prelude.{◌≡◌, slice_set};
ghost use Rattle.pgs_resolve_order.specs.Searching.{mark_at};

/// The mark of a number. One that has no mark counts as seen after all others.
pub fn mark_of(marks: &[usize], number: usize) -> usize
    ensures { result ≡ mark_at marks.now number }
{
    match marks.get(number) {
        Some(mark) => *mark,
        None => usize::MAX,
    }
}

/// Sets the mark of a number that has one.
pub fn set_mark(marks: &mut Vec<usize>, number: usize, mark: usize)
    ensures { marks.new.items ≡ slice_set marks.old.items number mark }
{
    if number < marks.len() {
        marks[number] = mark;
    }
}
