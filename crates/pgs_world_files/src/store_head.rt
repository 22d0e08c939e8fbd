ghost use Rattle.std.specs.Prelude.{◌≡◌};
ghost use Rattle.pgs_world_files.specs.Head.{goes_on, is_of_others};

/// So many of a file's first bytes show whether it can be a store.
pub(crate) const HEAD_FRONT: usize = 13;

// The least file with a gate that opens a record.
const LEAST: u64 = 17;

// Whether bytes are those with which a head goes on behind its gate, in one of the two formats, or the first of them.
fn goes_on(bytes: &[u8]) -> bool
    ensures { result ≡ goes_on bytes.now }
{
    b"PGSGRD1\0\0\0\0\0".as_slice().starts_with(bytes)
        || b"PGSGRD2\0\0\0\0\0".as_slice().starts_with(bytes)
}

/// Whether the first bytes, at most 13, of a file of this length are neither a store's nor what a stop leaves of one: there are at least two, the
/// first isn't 00, and what stands behind it isn't how a head goes on. A stop may leave any first byte while a store is made. A file of at
/// least 17 bytes that begins with 01 isn't judged here: the store tells whether it is another program's.
pub(crate) fn is_of_others(len: u64, front: &[u8]) -> bool
    ensures { result ≡ is_of_others len front.now }
{
    match front.split_first() {
        Some((first, rest)) => {
            !rest.is_empty() && *first > 0 && !(*first == 1 && len >= LEAST) && !goes_on(rest)
        }
        None => false,
    }
}
