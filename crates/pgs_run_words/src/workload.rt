ghost use Rattle.std.specs.Prelude.{◌≡◌, ◌≤◌};
ghost use Rattle.pgs_run_words.specs.Words.{few_from};

use std::marker::Model;

/// A workload: a number, and how many transactions are made from it, at most 500,000.
#[derive(Clone, Copy)]
pub struct Workload {
    start: u64,
    count: u64,
}

impl Model for Workload {
    ghost use Rattle.std.specs.Prelude.{ℕ, ◌≤◌};

    ghost Value = { ℕ × ℕ };

    ghost view = { λ workload. (workload.start, workload.count) };

    ghost invariant = { λ workload. workload.count ≤ 500000 };

    ghost inverse = { λ parts. record { start = parts.0; count = parts.1 } };
}

impl Workload {
    /// So many transactions from a number. `None` exactly where they are more than 500,000.
    pub fn new(start: u64, count: u64) -> Option<Workload>
        ensures { result ≡ few_from start count }
    {
        if count <= 500_000 {
            Some(Workload { start, count })
        } else {
            None
        }
    }

    /// The number that they are made from.
    pub fn start(&self) -> u64
        ensures { result ≡ self.now.0 }
    {
        self.start
    }

    /// How many they are.
    pub fn count(&self) -> u64
        ensures value { result ≡ self.now.1 }
        ensures few { result ≤ 500000 }
    {
        self.count
    }
}
