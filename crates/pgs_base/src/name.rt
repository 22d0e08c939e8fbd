ghost use Rattle.std.specs.Prelude.{◌≡◌, ◌≤◌, ◌↔◌, length, IsTrue, IsSome, IfOk, IfSome, if◌then◌else◌, nat_eq, refl, Some, None};
ghost use Rattle.std.specs.Ordering.{nat_cmp};
ghost use Rattle.std.specs.Cmp.Lexicographic.{pointwise, slice_cmp, lists_per, nat_list_eq_equiv, nat_list_cmp_total, texts_po, texts_ties};
ghost use Rattle.std.specs.Cmp.{partial_equiv_from_equiv};
ghost use Rattle.std.specs.List.{list_all};
ghost use Rattle.pgs_base.specs.Name.{is_name, is_name_start, is_name_byte};
ghost use Rattle.pgs_base.specs.NameBytes.{repr_bytes, fits_inline};

use crate::{Copyable, Memory};
use std::alloc::Global;
use std::cmp::Ordering;
use std::marker::Model;
use std::rc::RcSlice;

// The most bytes of a name that stands in the value itself: so a name takes 24 bytes, as a `Vec` does.
const INLINE: usize = 16;

const _: () = prove!(size_of::<Name>() == 24);

// Where the bytes of a name are. Nearly all names are short: such a name asks for no memory and counts no copies.
#[derive(Debug, Drop)]
enum Repr {
    Inline { len: u32, bytes: [u8; INLINE] },
    Shared(RcSlice<u8>),
}

/// A name: an ASCII letter or `_`, then ASCII letters, digits and `_`, with 1 to 64 bytes.
/// A name of at most 16 bytes stands in the value itself; copies of a longer one share their bytes.
/// Names go by their bytes.
#[derive(Debug)]
pub struct Name {
    repr: Repr,
}

impl Model for Name {
    ghost use Rattle.std.specs.Prelude.{List, ℕ, IsTrue};
    ghost use Rattle.std.specs.Coded.{coded_list, coded_ℕ};
    ghost use Rattle.pgs_base.specs.Name.{is_name};
    ghost use Rattle.pgs_base.specs.NameBytes.{repr_bytes, fits_inline};

    ghost Value = { List ℕ };

    ghost coded = { coded_list coded_ℕ };

    ghost view = { λ name. repr_bytes name.repr };

    ghost invariant = { λ name. IsTrue (is_name (repr_bytes name.repr)) × fits_inline name.repr };
}

// Dropped by a function of its own, so that a crate above need not prove again what a name holds.
impl Drop for Name {
    fn drop(self) {
        let Name { repr: _ } = self;
    }
}

impl Repr {
    // The bytes in the value itself.
    fn inline(short: &[u8]) -> Repr
        requires { length short.now ≤ 16 }
        ensures bytes { repr_bytes result ≡ short.now }
        ensures fits { fits_inline result }
    {
        let mut bytes = [0; INLINE];
        bytes[..short.len()].copy_from_slice(short);
        Repr::Inline {
            len: short.len() as u32,
            bytes,
        }
    }

    // The bytes in the value itself where they fit, else shared.
    fn new(alloc: Global, bytes: &[u8]) -> Result<Repr, Memory>
        ensures { IfOk result (λ repr. (repr_bytes repr ≡ bytes.now) × fits_inline repr) }
    {
        if bytes.len() <= INLINE {
            Ok(Repr::inline(bytes))
        } else {
            let bytes = RcSlice::from_slice(alloc, bytes)?;
            Ok(Repr::Shared(bytes))
        }
    }

    fn bytes(&self) -> &[u8]
        requires { fits_inline self.now }
        ensures { result.now ≡ repr_bytes self.now }
    {
        match self {
            Repr::Inline { len, bytes } => &bytes[..*len as usize],
            Repr::Shared(bytes) => bytes.as_slice(),
        }
    }

    fn share(&self) -> Result<Repr, Memory>
        requires { fits_inline self.now }
        ensures { IfOk result (λ shared. (repr_bytes shared ≡ repr_bytes self.now) × fits_inline shared) }
    {
        match self {
            Repr::Inline { len, bytes } => Ok(Repr::Inline {
                len: *len,
                bytes: *bytes,
            }),
            Repr::Shared(bytes) => {
                let bytes = bytes.clone()?;
                Ok(Repr::Shared(bytes))
            }
        }
    }
}

fn starts_name(byte: u8) -> bool
    ensures { result ≡ is_name_start byte }
{
    byte.is_ascii_alphabetic() || byte == b'_'
}

fn continues_name(byte: u8) -> bool
    ensures { result ≡ is_name_byte byte }
{
    starts_name(byte) || byte.is_ascii_digit()
}

fn continue_name(bytes: &[u8]) -> bool
    ensures { result ≡ list_all is_name_byte bytes.now }
{
    bytes.iter().all(|byte| continues_name(*byte))
}

impl Name {
    /// The most bytes of a name.
    pub const LONGEST: usize = 64;

    /// Whether bytes are a name.
    pub fn is_name(bytes: &[u8]) -> bool
        ensures { result ≡ is_name bytes.now }
    {
        match bytes {
            [] => false,
            [first, rest @ ..] => {
                starts_name(*first) && continue_name(rest) && rest.len() < Name::LONGEST
            }
        }
    }

    /// The name of these bytes. `None` exactly where they are no name.
    pub fn new(alloc: Global, bytes: &[u8]) -> Result<Option<Name>, Memory>
        ensures { IfOk result (λ name. name ≡ (if is_name bytes.now then Some bytes.now else None)) }
    {
        if Name::is_name(bytes) {
            let repr = Repr::new(alloc, bytes)?;
            Ok(Some(Name { repr }))
        } else {
            Ok(None)
        }
    }

    /// The bytes of the name.
    pub fn bytes(&self) -> &[u8]
        ensures bytes { result.now ≡ self.now }
        ensures name { IsTrue (is_name self.now) }
    {
        self.repr.bytes()
    }

    /// The same name. One of over 16 bytes is over the same bytes: it is handed no allocator, so it can't copy them.
    /// `Memory` only where the count of owners is at its limit.
    pub fn share(&self) -> Result<Name, Memory>
        ensures { IfOk result (λ shared. shared ≡ self.now) }
    {
        let repr = self.repr.share()?;
        Ok(Name { repr })
    }
}

impl Copyable for Name {
    fn copy(&self, _alloc: Global) -> Result<Name, Memory> {
        self.share()
    }
}

impl PartialEq for Name {
    ghost eq = { pointwise nat_eq };

    ghost laws = { partial_equiv_from_equiv nat_list_eq_equiv };

    fn eq(&self, other: &Name) -> bool {
        self.bytes() == other.bytes()
    }
}

impl Eq for Name {
    ghost laws = { nat_list_eq_equiv };
}

impl PartialOrd for Name {
    ghost partial_cmp = { λ a b. Some (slice_cmp nat_cmp a b) };

    ghost laws = { texts_po };

    fn partial_cmp(&self, other: &Name) -> Option<Ordering> {
        Some(self.cmp(other))
    }
}

impl Ord for Name {
    ghost cmp = { slice_cmp nat_cmp };

    ghost total = { nat_list_cmp_total };

    ghost matches_partial_cmp = { λ a b. refl };

    ghost matches_eq = { texts_ties };

    fn cmp(&self, other: &Name) -> Ordering {
        self.bytes().cmp(other.bytes())
    }
}
