ghost use Rattle.std.specs.Prelude.{◌≡◌, ◌==◌, [], length};
ghost use Rattle.std.specs.Int.{w16, w32, w64};
ghost use Rattle.pgs_codec.specs.Reading.{bytes_at, byte_at, number_at};
ghost use Rattle.pgs_codec.specs.Unread.{Sees};

use crate::unread::Unfit;

/// The bytes of a payload that are still to be read. After an error it isn't used again.
#[derive(Drop)]
pub(crate) struct Reader<'a> {
    rest: &'a [u8],
}

impl<'a> Reader<'a> {
    pub(crate) fn new(payload: &'a [u8]) -> Reader<'a>
        ensures { result.rest.now ≡ payload.now }
    {
        Reader { rest: payload }
    }

    /// Whether no byte is left.
    pub(crate) fn is_empty(&self) -> bool
        ensures { result ≡ (length self.now.rest.now == 0) }
    {
        self.rest.is_empty()
    }

    /// All bytes that are left.
    pub(crate) fn rest(&mut self) -> &'a [u8]
        ensures all { result.now ≡ self.old.rest.now }
        ensures none_left { self.new.rest.now ≡ [] }
    {
        let (all, rest) = self.rest.split_at(self.rest.len());
        self.rest = rest;
        all
    }

    /// The next bytes, so many of them.
    #[tactic(auto, unfolding(crate::specs::Reading::bytes_at))]
    pub(crate) fn bytes(&mut self, count: usize) -> Result<&'a [u8], Unfit>
        ensures { Sees (λ taken. taken.now) result self.new.rest.now (bytes_at count self.old.rest.now) }
    {
        if self.rest.len() < count {
            return Err(Unfit);
        }
        let (taken, rest) = self.rest.split_at(count);
        self.rest = rest;
        Ok(taken)
    }

    /// The next byte.
    #[tactic(auto, unfolding(crate::specs::Reading::byte_at))]
    pub(crate) fn byte(&mut self) -> Result<u8, Unfit>
        ensures { Sees (λ byte. byte) result self.new.rest.now (byte_at self.old.rest.now) }
    {
        match self.rest {
            [] => Err(Unfit),
            [byte, rest @ ..] => {
                self.rest = rest;
                Ok(*byte)
            }
        }
    }

    /// A number of two bytes.
    #[tactic(auto, unfolding(crate::specs::Reading::number_at, crate::specs::Reading::bytes_at))]
    pub(crate) fn number16(&mut self) -> Result<u16, Unfit>
        ensures { Sees (λ number. number) result self.new.rest.now (number_at w16 self.old.rest.now) }
    {
        let taken = self.bytes(2)?;
        Ok(u16::from_be_bytes([taken[0], taken[1]]))
    }

    /// A number of four bytes.
    #[tactic(auto, unfolding(crate::specs::Reading::number_at, crate::specs::Reading::bytes_at))]
    pub(crate) fn number32(&mut self) -> Result<u32, Unfit>
        ensures { Sees (λ number. number) result self.new.rest.now (number_at w32 self.old.rest.now) }
    {
        let taken = self.bytes(4)?;
        Ok(u32::from_be_bytes([taken[0], taken[1], taken[2], taken[3]]))
    }

    /// A number of eight bytes.
    #[tactic(auto, unfolding(crate::specs::Reading::number_at, crate::specs::Reading::bytes_at))]
    pub(crate) fn number64(&mut self) -> Result<u64, Unfit>
        ensures { Sees (λ number. number) result self.new.rest.now (number_at w64 self.old.rest.now) }
    {
        let taken = self.bytes(8)?;
        Ok(u64::from_be_bytes([
            taken[0], taken[1], taken[2], taken[3], taken[4], taken[5], taken[6], taken[7],
        ]))
    }
}
