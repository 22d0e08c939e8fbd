ghost use Rattle.std.specs.Prelude.{◌≡◌, true, IfOk, OnOk};
ghost use Rattle.std.specs.Option.{option_copied};
ghost use Rattle.std.specs.List.Sorted.{IsPermutation, IsNonDecreasingBy};
ghost use Rattle.pgs_syntax.specs.Valid.{is_valid};
ghost use Rattle.pgs_syntax.specs.Width.{first_too_wide};
ghost use Rattle.pgs_width.specs.First.{first_past};

use crate::capped::capped_sum;
use crate::sized::{SizedType, sized_types};
use pgs_base::{Copyable, Memory, Name};
use pgs_syntax::Resolved;
use std::alloc::Global;

const MOST_FORMS: u64 = 4096;

const MOST_PARTS: u64 = 4_194_304;

fn sort_by_place(types: &mut Vec<SizedType>) -> Result<(), Memory>
    ensures permutation { IsPermutation types.old.items types.new.items }
    ensures sorted { OnOk result (IsNonDecreasingBy (λ type. type.place) types.new.items) }
{
    types.sort_by_key(|sized: &SizedType| sized.place)?;
    Ok(())
}

// The first of these types that has too many forms, or up to which there are too many parts.
fn first_past(types: &[SizedType]) -> Option<&Name>
    ensures { option_copied result ≡ first_past 0 types.now }
{
    let mut parts = 0;
    for sized in types {
        parts = capped_sum(parts, sized.parts());
        if sized.width.count > MOST_FORMS || parts > MOST_PARTS {
            return Some(&sized.name);
        }
    }
    None
}

/// The name of the first type of a valid schema, by its place in the script, that is too wide: it has over 4,096 forms, or the
/// types up to it have over 4,194,304 parts, count times weight. `None` exactly where there is none. The rule is
/// `first_too_wide` of `pgs_syntax`. Nothing is made of the types.
pub fn first_too_wide(alloc: Global, resolved: &Resolved) -> Result<Option<Name>, Memory>
    requires { is_valid resolved.now ≡ true }
    ensures { IfOk result (λ name. name ≡ first_too_wide resolved.now) }
{
    let mut types = sized_types(alloc, resolved)?;
    sort_by_place(&mut types)?;
    match first_past(&types) {
        Some(name) => Ok(Some(name.copy(alloc)?)),
        None => Ok(None),
    }
}
