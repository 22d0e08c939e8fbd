use std::cell::Cell;

/// How many places are kept by the last bits of their numbers.
const COUNT: usize = 16;

/// Where slots were found last. A place is only where to look before a number is hashed: what stands there is tested.
#[derive(Drop)]
pub(crate) struct Places {
    by_last_bits: [Cell<usize>; COUNT],
    latest: Cell<usize>,
    // By how much the latest place is ahead of its number, and whether the one before was so too.
    ahead: Cell<usize>,
    steady: Cell<bool>,
}

impl Places {
    pub(crate) fn new() -> Places {
        Places {
            by_last_bits: [
                Cell::new(0),
                Cell::new(0),
                Cell::new(0),
                Cell::new(0),
                Cell::new(0),
                Cell::new(0),
                Cell::new(0),
                Cell::new(0),
                Cell::new(0),
                Cell::new(0),
                Cell::new(0),
                Cell::new(0),
                Cell::new(0),
                Cell::new(0),
                Cell::new(0),
                Cell::new(0),
            ],
            latest: Cell::new(0),
            ahead: Cell::new(0),
            steady: Cell::new(false),
        }
    }

    /// Where a number with the same last bits was found last.
    pub(crate) fn near(&self, number: u64) -> usize {
        self.by_last_bits[number as usize % COUNT].get()
    }

    /// Where to look next for a number. Where slots were made by ascending number without gaps, places are as far apart as their numbers;
    /// where there are gaps, a walk by ascending number finds each place behind the one before.
    pub(crate) fn next(&self, number: u64) -> usize {
        if self.steady.get() {
            (number as usize).wrapping_add(self.ahead.get())
        } else {
            self.latest.get().wrapping_add(1)
        }
    }

    /// Notes where the slot of a number stands.
    pub(crate) fn note(&self, number: u64, place: usize) {
        self.by_last_bits[number as usize % COUNT].set(place);
        if place != self.latest.get() {
            let ahead = place.wrapping_sub(number as usize);
            self.steady.set(ahead == self.ahead.get());
            self.ahead.set(ahead);
            self.latest.set(place);
        }
    }
}
