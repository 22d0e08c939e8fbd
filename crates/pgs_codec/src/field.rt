ghost use Rattle.std.specs.Prelude.{◌≡◌, ◌++◌, ◌&&◌, ℕ, Bool, List, Option, IsTrue, OnOk, flat_map, length, min};
ghost use Rattle.std.specs.List.{list_all};
ghost use Rattle.pgs_codec.specs.Reading.{pair_at, many_at};
ghost use Rattle.pgs_codec.specs.Unread.{Reads};

use crate::reader::Reader;
use crate::unread::Unread;
use pgs_base::Memory;
use std::alloc::Global;

/// A part of a payload.
pub(crate) trait Field: Drop {
    /// Its bytes.
    ghost field: { Self → List ℕ };

    /// Whether it has bytes, by its names, values and counts.
    ghost is_field: { Self → Bool };

    /// Whether it is small enough, where its type doesn't say so.
    ghost is_small: { Self → Bool };

    /// How it is read from the front of bytes.
    ghost field_at: { List ℕ → Option (Self × List ℕ) };

    /// How many bytes it has, as far as a `usize` counts. Memory is taken by it; what is written doesn't rest on it.
    fn size(&self) -> usize
        ensures { result ≡ min (length (field self.now)) usize.MAX };

    /// Reads it from the front of what is left.
    fn read(alloc: Global, reader: &mut Reader<'_>) -> Result<Self, Unread>
        ensures { Reads (λ field. field) result reader.new.rest.now (field_at reader.old.rest.now) };

    /// Puts its bytes last.
    fn write(&self, out: &mut Vec<u8>) -> Result<(), Memory>
        requires { IsTrue (is_small self.now) }
        ensures bytes { OnOk result (out.new.items ≡ out.old.items ++ field self.now) }
        ensures fit { OnOk result (IsTrue (is_field self.now)) };
}

impl<A: Field, B: Field> Field for (A, B) {
    ghost field = { λ pair. A.field pair.0 ++ B.field pair.1 };

    ghost is_field = { λ pair. A.is_field pair.0 && B.is_field pair.1 };

    ghost is_small = { λ pair. A.is_small pair.0 && B.is_small pair.1 };

    ghost field_at = { pair_at A.field_at B.field_at };

    fn size(&self) -> usize {
        self.0.size().saturating_add(self.1.size())
    }

    #[tactic(auto, unfolding(crate::specs::Reading::pair_at))]
    fn read(alloc: Global, reader: &mut Reader<'_>) -> Result<(A, B), Unread> {
        let first = A::read(alloc, reader)?;
        let second = B::read(alloc, reader)?;
        Ok((first, second))
    }

    fn write(&self, out: &mut Vec<u8>) -> Result<(), Memory> {
        self.0.write(out)?;
        self.1.write(out)?;
        Ok(())
    }
}

/// How many bytes the fields have together, as far as a `usize` counts.
pub(crate) fn size_of_all<F: Field>(fields: &[F]) -> usize
    ensures { result ≡ min (length (flat_map F.field fields.now)) usize.MAX }
{
    let mut size: usize = 0;
    for field in fields {
        size = size.saturating_add(field.size());
    }
    size
}

// For how many fields room is made before they are read.
const MOST_BEFORE: usize = 256;

/// Reads so many fields, one after another. A short list takes no more memory than its fields need. That of a long one grows with the fields that
/// are there, not with the count.
pub(crate) fn read_all<F: Field>(
    alloc: Global,
    reader: &mut Reader<'_>,
    count: usize,
) -> Result<Vec<F>, Unread>
    ensures { Reads (λ fields. fields.items) result reader.new.rest.now (many_at F.field_at count reader.old.rest.now) }
{
    let mut fields = Vec::with_capacity(alloc, count.min(MOST_BEFORE))?;
    for _ in 0..count {
        let field = F::read(alloc, reader)?;
        fields.push(field)?;
    }
    Ok(fields)
}

/// Puts the bytes of all fields last, in order.
pub(crate) fn write_all<F: Field>(fields: &[F], out: &mut Vec<u8>) -> Result<(), Memory>
    requires { IsTrue (list_all F.is_small fields.now) }
    ensures bytes { OnOk result (out.new.items ≡ out.old.items ++ flat_map F.field fields.now) }
    ensures fit { OnOk result (IsTrue (list_all F.is_field fields.now)) }
{
    for field in fields {
        field.write(out)?;
    }
    Ok(())
}
