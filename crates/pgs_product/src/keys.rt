ghost use Rattle.std.specs.Prelude.{◌≡◌, ◌∷◌, [], ◌++◌, map, IfOk, OnOk};
ghost use Rattle.pgs_product.specs.Merged.{of_first, of_second, merged};

use pgs_base::{Copyable, Memory, Name};
use pgs_conform::{Options, join_options};
use std::alloc::Global;
use std::cmp::Ordering;

fn push_key(
    alloc: Global,
    name: &Name,
    options: Options,
    keys: &mut Vec<(Name, Options)>,
) -> Result<(), Memory>
    ensures { OnOk result (keys.new.items ≡ keys.old.items ++ (name.now, options) ∷ []) }
{
    let name = name.copy(alloc)?;
    keys.push((name, options))?;
    Ok(())
}

// Puts keys that only the first names last.
fn push_first(
    alloc: Global,
    first: &[(Name, Options)],
    second_free: Options,
    keys: &mut Vec<(Name, Options)>,
) -> Result<(), Memory>
    ensures { OnOk result (keys.new.items ≡ keys.old.items ++ map (of_first second_free) first.now) }
{
    for key in first {
        push_key(alloc, &key.0, join_options(key.1, second_free), keys)?;
    }
    Ok(())
}

// Puts keys that only the second names last.
fn push_second(
    alloc: Global,
    first_free: Options,
    second: &[(Name, Options)],
    keys: &mut Vec<(Name, Options)>,
) -> Result<(), Memory>
    ensures { OnOk result (keys.new.items ≡ keys.old.items ++ map (of_second first_free) second.now) }
{
    for key in second {
        push_key(alloc, &key.0, join_options(first_free, key.1), keys)?;
    }
    Ok(())
}

// Puts the keys that either names last, in order.
fn push_joined(
    alloc: Global,
    first: &[(Name, Options)],
    first_free: Options,
    second: &[(Name, Options)],
    second_free: Options,
    keys: &mut Vec<(Name, Options)>,
) -> Result<(), Memory>
    ensures { OnOk result (keys.new.items ≡ keys.old.items ++ merged first_free second_free first.now second.now) }
{
    let mut left = first;
    let mut right = second;
    loop {
        let [x, xs @ ..] = left else {
            return push_second(alloc, first_free, right, keys);
        };
        let [y, ys @ ..] = right else {
            return push_first(alloc, left, second_free, keys);
        };
        match x.0.cmp(&y.0) {
            Ordering::Less => {
                push_key(alloc, &x.0, join_options(x.1, second_free), keys)?;
                left = xs;
            }
            Ordering::Equal => {
                push_key(alloc, &x.0, join_options(x.1, y.1), keys)?;
                left = xs;
                right = ys;
            }
            Ordering::Greater => {
                push_key(alloc, &y.0, join_options(first_free, y.1), keys)?;
                right = ys;
            }
        }
    }
}

/// The keys that either names, with what may stand at each in a join. What may stand at a key that the first doesn't name is
/// `first_free`, and so for the second. Both ascend strictly, and so does the result.
pub fn join_keys(
    alloc: Global,
    first: &[(Name, Options)],
    first_free: Options,
    second: &[(Name, Options)],
    second_free: Options,
) -> Result<Vec<(Name, Options)>, Memory>
    ensures { IfOk result (λ keys. keys.items ≡ merged first_free second_free first.now second.now) }
{
    let mut keys = Vec::with_capacity(alloc, first.len().saturating_add(second.len()))?;
    push_joined(alloc, first, first_free, second, second_free, &mut keys)?;
    Ok(keys)
}
