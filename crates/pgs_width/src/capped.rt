ghost use Rattle.std.specs.Prelude.{◌≡◌, ◌+◌, ◌*◌};
ghost use Rattle.pgs_syntax.specs.Width.{Width, one_form, both, either, or_none};
ghost use Rattle.pgs_width.specs.Capped.{capped, capped_width};

/// Every greater number stands as this one. It is one more than the most parts of all types.
pub const CAP: u64 = 4_194_305;

/// The width of a specification or of a type, with each number counted up to the cap.
#[derive(Clone, Copy)]
pub struct CappedWidth {
    pub count: u64,
    pub weight: u64,
}

/// The sum of two numbers, up to the cap.
pub fn capped_sum(a: u64, b: u64) -> u64
    ensures { result ≡ capped (a + b) }
{
    a.saturating_add(b).min(CAP)
}

/// The product of two numbers, up to the cap.
pub fn capped_product(a: u64, b: u64) -> u64
    ensures { result ≡ capped (a * b) }
{
    a.saturating_mul(b).min(CAP)
}

impl CappedWidth {
    /// The width of one form.
    pub fn one_form(weight: u64) -> CappedWidth
        ensures { result ≡ capped_width (one_form weight) }
    {
        CappedWidth {
            count: 1,
            weight: weight.min(CAP),
        }
    }

    /// The width of a specification that has no form.
    pub fn no_form() -> CappedWidth
        ensures { result ≡ capped_width (record { count = 0; weight = 0 }) }
    {
        CappedWidth {
            count: 0,
            weight: 0,
        }
    }

    /// The width of both together.
    #[tactic(auto, using(crate::proofs::Caps::both_capped))]
    pub fn both(self, other: CappedWidth) -> CappedWidth
        ensures { (x y : Width) → self ≡ capped_width x → other ≡ capped_width y → result ≡ capped_width (both x y) }
    {
        CappedWidth {
            count: capped_product(self.count, other.count),
            weight: capped_sum(self.weight, other.weight),
        }
    }

    /// The width of either.
    #[tactic(auto, using(crate::proofs::Caps::either_capped))]
    pub fn either(self, other: CappedWidth) -> CappedWidth
        ensures { (x y : Width) → self ≡ capped_width x → other ≡ capped_width y → result ≡ capped_width (either x y) }
    {
        CappedWidth {
            count: capped_sum(self.count, other.count),
            weight: capped_sum(self.weight, other.weight),
        }
    }

    /// The width of this or nothing.
    #[tactic(auto, using(crate::proofs::Caps::or_none_capped))]
    pub fn or_none(self) -> CappedWidth
        ensures { (x : Width) → self ≡ capped_width x → result ≡ capped_width (or_none x) }
    {
        CappedWidth {
            count: capped_sum(self.count, 1),
            weight: self.weight,
        }
    }
}
