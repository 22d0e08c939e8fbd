ghost use Rattle.std.specs.Prelude.{◌≡◌, [], false, IfOk};
ghost use Rattle.pgs_syntax.specs.Valid.{is_connected};
ghost use Rattle.pgs_resolve_keys.specs.KeyFaults.{has_no_x, is_apart, cause_of};
ghost use Rattle.pgs_resolve_keys.specs.KeyNames.{AreNamesOf};
ghost use Rattle.pgs_resolve_keys.specs.Patterns.{x_of, pattern_of};

use crate::connected::is_connected;
use crate::key_faults::{KeyNames, is_too_large};
use crate::patterns::pattern_of;
use pgs_base::{Memory, Name};
use pgs_resolve_declared::{Names, Numbering};
use pgs_syntax::{KeyCause, RawKey, RawPath};
use std::alloc::Global;

// Whether all variables of paths are linked through edge places and their ends.
fn is_linked(alloc: Global, x: &Name, paths: &[RawPath]) -> Result<bool, Memory>
    ensures { IfOk result (λ linked. linked ≡ is_connected (pattern_of (record { nodes = []; edges = [] }) x.now paths.now)) }
{
    let no_types = Numbering {
        nodes: Names::new(alloc),
        edges: Names::new(alloc),
    };
    let pattern = pattern_of(alloc, &no_types, x, paths)?;
    is_connected(alloc, &pattern)
}

// Whether the variables of the scope, or of the descriptor, aren't all linked.
fn is_apart(alloc: Global, x: &Name, key: &RawKey) -> Result<bool, Memory>
    requires { x_of key.now ≡ Some x.now }
    ensures { IfOk result (λ apart. apart ≡ is_apart key.now) }
{
    if !is_linked(alloc, x, key.scope.as_slice())? {
        return Ok(true);
    }
    match &key.within {
        Some(paths) => Ok(!is_linked(alloc, x, paths.as_slice())?),
        None => Ok(false),
    }
}

// The first cause of a key that has its x.
fn later_cause(
    alloc: Global,
    number: u64,
    key: &RawKey,
    names: &KeyNames,
    x: &Name,
) -> Result<Option<KeyCause>, Memory>
    requires names { AreNamesOf key.now names.now }
    requires x { x_of key.now ≡ Some x.now }
    requires has_x { has_no_x key.now ≡ false }
    ensures { IfOk result (λ cause. cause ≡ cause_of number key.now) }
{
    if names.has_two_kinds() {
        Ok(Some(KeyCause::TwoKinds))
    } else if names.shares_more() {
        Ok(Some(KeyCause::Shared))
    } else if is_apart(alloc, x, key)? {
        Ok(Some(KeyCause::Disconnected))
    } else if names.reads_unknown(key.exprs.as_slice()) {
        Ok(Some(KeyCause::UnknownVariable))
    } else if is_too_large(number, key) {
        Ok(Some(KeyCause::TooLarge))
    } else {
        Ok(None)
    }
}

/// The first cause for which a key of this number, from 1 in the script, is refused. `None` exactly where it has none.
pub fn cause_of(alloc: Global, number: u64, key: &RawKey) -> Result<Option<KeyCause>, Memory>
    ensures { IfOk result (λ cause. cause ≡ cause_of number key.now) }
{
    let names = KeyNames::new(alloc, key)?;
    match names.x() {
        Some(x) => {
            if names.has_no_x() {
                return Ok(Some(KeyCause::NoX));
            }
            later_cause(alloc, number, key, &names, x)
        }
        None => Ok(Some(KeyCause::NoX)),
    }
}
