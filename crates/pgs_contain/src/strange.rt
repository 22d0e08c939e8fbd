//! A name that is none of some.

ghost use Rattle.std.specs.Prelude.{◌≡◌, ◌+◌, ◌/◌, ◌<◌, ◌≤◌, true, false, length, IfOk, OnOk};
ghost use Rattle.std.specs.List.{list_all};
ghost use Rattle.pgs_base.specs.Name.{is_name_start};
ghost use Rattle.pgs_base.specs.Pair.{has_name};
ghost use Rattle.pgs_contain.specs.Known.{begins_with, count_beginning};

use pgs_base::{Memory, Name};
use std::alloc::Global;

// Whether a name begins with bytes.
fn begins_with(bytes: &[u8], name: &[u8]) -> bool
    ensures { result ≡ begins_with bytes.now name.now }
{
    let mut left = bytes;
    let mut rest = name;
    while let [byte, bytes_later @ ..] = left {
        let [other, later @ ..] = rest else {
            return false;
        };
        if *byte != *other {
            return false;
        }
        left = bytes_later;
        rest = later;
    }
    true
}

// How many names begin with bytes.
fn count_beginning(bytes: &[u8], names: &[Name]) -> usize
    ensures { result ≡ count_beginning bytes.now names.now }
{
    names
        .iter()
        .filter(|name| begins_with(bytes, name.bytes()))
        .count()
}

// Puts that one of the letters `a` and `b` last with which fewer names go on: at most half of those that begin with the bytes.
fn go_on(alloc: Global, names: &[Name], bytes: &mut Vec<u8>, most: usize) -> Result<(), Memory>
    requires most { count_beginning bytes.old.items names.now ≤ most }
    requires letters { list_all is_name_start bytes.old.items ≡ true }
    ensures fewer { OnOk result ((count_beginning bytes.new.items names.now ≤ most / 2) × (list_all is_name_start bytes.new.items ≡ true)
        × (length bytes.new.items ≡ length bytes.old.items + 1)) }
    ensures in_range { most < 18446744073709551616 }
{
    let mut longer = Vec::from_slice(alloc, bytes.as_slice())?;
    longer.push(b'a')?;
    if count_beginning(longer.as_slice(), names) > most / 2 {
        bytes.push(b'b')?;
        return Ok(());
    }
    bytes.push(b'a')?;
    Ok(())
}

// The first letter.
fn first_letter(alloc: Global, names: &[Name]) -> Result<Vec<u8>, Memory>
    ensures { IfOk result (λ bytes. (count_beginning bytes.items names.now ≤ length names.now / 2) × (list_all is_name_start bytes.items ≡ true)
        × (length bytes.items ≡ 1) × (length names.now < 18446744073709551616)) }
{
    let mut bytes = Vec::new(alloc);
    go_on(alloc, names, &mut bytes, names.len())?;
    Ok(bytes)
}

/// A name that is none of these.
pub(crate) fn strange(alloc: Global, names: &[Name]) -> Result<Name, Memory>
    ensures { IfOk result (λ name. has_name name names.now ≡ false) }
{
    let mut bytes = first_letter(alloc, names)?;
    let mut most = count_beginning(bytes.as_slice(), names);
    while most > 0 {
        go_on(alloc, names, &mut bytes, most)?;
        most = count_beginning(bytes.as_slice(), names);
    }
    match Name::new(alloc, bytes.as_slice())? {
        Some(name) => Ok(name),
        None => unreachable!(),
    }
}
