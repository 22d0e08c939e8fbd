ghost use Rattle.std.specs.Prelude.{◌≡◌};
ghost use Rattle.pgs_differences.specs.Nearest.{measure_cmp};

use std::cmp::Ordering;

/// How far an element is from a type: how many differences there are of its own labels, how many ends differ, how many differences
/// there are of its own keys, of the ends' labels and of the ends' keys. The first number that differs decides. The rule is
/// `measure_of` of `specs/Nearest.antt`. Sums over two ends have 128 bits, in which none wraps.
#[derive(Clone, Copy)]
pub struct Measure {
    pub own_labels: usize,
    pub ends: u32,
    pub own_keys: usize,
    pub end_labels: u128,
    pub end_keys: u128,
}

impl Measure {
    /// How two measures go.
    pub fn compare(self, other: Measure) -> Ordering
        ensures { result ≡ measure_cmp self other }
    {
        let ends = self.ends.cmp(&other.ends);
        let own_keys = self.own_keys.cmp(&other.own_keys);
        let end_labels = self.end_labels.cmp(&other.end_labels);
        let end_keys = self.end_keys.cmp(&other.end_keys);
        self.own_labels
            .cmp(&other.own_labels)
            .then(ends.then(own_keys.then(end_labels.then(end_keys))))
    }
}
