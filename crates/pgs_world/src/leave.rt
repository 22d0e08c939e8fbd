/// What a stop leaves of the bytes that were not synced.
#[derive(Clone, Copy, Debug, PartialEq, Eq)]
pub enum Leave {
    /// Each as it was at the last sync, with the least length since.
    Old,
    /// Each as it was written, with the last length.
    New,
    /// Each is this byte, with the greatest length since the last sync.
    Fill(u8),
}
