ghost use Rattle.std.specs.Prelude.{◌≡◌, ◌+◌, nat_lt};
ghost use Rattle.pgs_world.specs.declared.area_limit.TheConstants.{AREA_LIMIT};

/// The most bytes of an area, 2^40.
pub const AREA_LIMIT: u64 = 1 << 40;

/// Whether so many bytes from a place on reach past `AREA_LIMIT`.
pub fn passes_limit(at: u64, count: u64) -> bool
    ensures { result ≡ nat_lt AREA_LIMIT (at + count) }
{
    at.saturating_add(count) > AREA_LIMIT
}
