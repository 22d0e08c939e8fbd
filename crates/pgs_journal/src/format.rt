ghost use Rattle.std.specs.Prelude.{◌≡◌};
ghost use Rattle.pgs_journal.specs.Format.{field_bytes, record_number};

/// The forms in which a store is written. The second gives each record its number, and so admits a schema at any place.
#[derive(Clone, Copy, PartialEq, Eq)]
pub enum Format {
    /// `PGSGRD1`: a record is its payload's length and its payload.
    First,
    /// `PGSGRD2`: a record is its number, its payload's length and its payload.
    Second,
}

impl Format {
    /// The number that a record bears.
    pub(crate) fn record_number(self, number: u64) -> Option<u64>
        ensures { result ≡ record_number self number }
    {
        match self {
            Format::First => None,
            Format::Second => Some(number),
        }
    }

    /// How many bytes of a record stand before its payload: those of its number and of its payload's length.
    pub(crate) fn field_bytes(self) -> u64
        ensures { result ≡ field_bytes self }
    {
        match self {
            Format::First => 8,
            Format::Second => 16,
        }
    }
}
