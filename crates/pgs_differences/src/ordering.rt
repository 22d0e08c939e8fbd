ghost use Rattle.std.specs.Prelude.{◌≡◌, ◌≤◌, length, take, OnOk, IfOk};
ghost use Rattle.std.specs.List.{position_or_len};
ghost use Rattle.pgs_differences.specs.Nearest.{goes_before, put, by_measure};

use crate::NearType;
use pgs_base::Memory;
use std::alloc::Global;

// Before which one goes, the first of some, or how many there are.
fn place_of(nears: &[NearType], near: &NearType) -> usize
    ensures value { result ≡ position_or_len (goes_before near.now) nears.now }
    ensures within { result ≤ length nears.now }
{
    for (place, other) in nears.iter().enumerate() {
        if near.goes_before(other) {
            return place;
        }
    }
    nears.len()
}

// Puts one among others by measure, of which so many are kept.
fn put(nears: &mut Vec<NearType>, near: NearType, most: usize) -> Result<(), Memory>
    ensures { OnOk result (nears.new.items ≡ take most (put goes_before nears.old.items near)) }
{
    let place = place_of(nears.as_slice(), &near);
    nears.insert(place, near)?;
    nears.truncate(most);
    Ok(())
}

// The first of some by measure, at most so many.
pub(crate) fn first_by_measure(
    alloc: Global,
    nears: Vec<NearType>,
    most: usize,
) -> Result<Vec<NearType>, Memory>
    ensures { IfOk result (λ first. first.items ≡ take most (by_measure nears.items)) }
{
    let mut first = Vec::new(alloc);
    for near in nears {
        put(&mut first, near, most)?;
    }
    Ok(first)
}
