ghost use Rattle.std.specs.Prelude.{◌≡◌, ◌∷◌, [], ◌++◌, IfOk, OnOk};
ghost use Rattle.pgs_product.specs.Merged.{united};

use pgs_base::{Copyable, Labels, Memory, Name};
use std::alloc::Global;
use std::cmp::Ordering;

fn push_name(alloc: Global, name: &Name, names: &mut Vec<Name>) -> Result<(), Memory>
    ensures { OnOk result (names.new.items ≡ names.old.items ++ name.now ∷ []) }
{
    names.push(name.copy(alloc)?)?;
    Ok(())
}

fn push_names(alloc: Global, names: &[Name], united: &mut Vec<Name>) -> Result<(), Memory>
    ensures { OnOk result (united.new.items ≡ united.old.items ++ names.now) }
{
    for name in names {
        push_name(alloc, name, united)?;
    }
    Ok(())
}

// Puts the names of both last, in order.
fn push_united(
    alloc: Global,
    first: &[Name],
    second: &[Name],
    names: &mut Vec<Name>,
) -> Result<(), Memory>
    ensures { OnOk result (names.new.items ≡ names.old.items ++ united first.now second.now) }
{
    let mut left = first;
    let mut right = second;
    loop {
        let [x, xs @ ..] = left else {
            return push_names(alloc, right, names);
        };
        let [y, ys @ ..] = right else {
            return push_names(alloc, left, names);
        };
        match x.cmp(y) {
            Ordering::Less => {
                push_name(alloc, x, names)?;
                left = xs;
            }
            Ordering::Equal => {
                push_name(alloc, x, names)?;
                left = xs;
                right = ys;
            }
            Ordering::Greater => {
                push_name(alloc, y, names)?;
                right = ys;
            }
        }
    }
}

fn unite_names(alloc: Global, first: &[Name], second: &[Name]) -> Result<Vec<Name>, Memory>
    ensures { IfOk result (λ names. names.items ≡ united first.now second.now) }
{
    let mut names = Vec::with_capacity(alloc, first.len().saturating_add(second.len()))?;
    push_united(alloc, first, second, &mut names)?;
    Ok(names)
}

/// The labels of both.
pub fn unite(alloc: Global, first: &Labels, second: &Labels) -> Result<Labels, Memory>
    ensures { IfOk result (λ labels. labels ≡ united first.now second.now) }
{
    let names = unite_names(alloc, first.as_slice(), second.as_slice())?;
    Ok(Labels::from_vec(names))
}
