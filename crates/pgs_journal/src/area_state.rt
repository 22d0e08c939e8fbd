use pgs_base::{Bytes, List};

/// What an area is.
#[derive(Drop)]
pub enum AreaState {
    /// It has fewer than 17 bytes, or its gate is closed.
    NoStore,
    /// Its gate is open, and its head is no store's.
    Foreign,
    /// A store whose record of this number, from 1, is the first open one that isn't whole or isn't fit for its place.
    Damaged {
        epoch: u64,
        number: u64,
    },
    /// A store of whole and fit records.
    Store {
        epoch: u64,
        /// The place of the closed gate behind the last record.
        end: u64,
        /// The number of the record behind the last one in the second format, `None` in the first.
        next: Option<u64>,
        /// The payloads of the records, in order.
        payloads: List<Bytes>,
    },
}
