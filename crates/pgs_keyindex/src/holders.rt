//! The elements that are listed at digests.

ghost use Rattle.std.specs.Prelude.{◌≡◌, true, cond, [], ◌∷◌, ◌++◌, IfOk};
ghost use Rattle.std.specs.BTreeMap.{is_at};
ghost use Rattle.pgs_tables.specs.Slots.{has_slot};
ghost use Rattle.pgs_keyindex.specs.declared.digest.Digest.{Digest};
ghost use Rattle.pgs_keyindex.specs.Few.{elems_lent};
ghost use Rattle.pgs_keyindex.specs.Members.{digest_cmp};
ghost use Rattle.pgs_keyindex.specs.Table.{has_elem, listed_at};

use crate::digest::Digest;
use crate::few::{Few, Lent};
use pgs_base::{Elem, List, Memory};
use pgs_tables::Numbered;
use std::alloc::Global;

/// The elements that are listed at a digest.
pub(crate) fn elements_at(holders: &Numbered<Digest, Few>, digest: Digest) -> Lent<'_>
    ensures { elems_lent result ≡ listed_at holders.now.rows digest }
{
    match holders.get(digest) {
        Some(few) => few.lend(),
        None => Lent::Many(&[]),
    }
}

/// Lists elements at a digest that has a slot, in place of those that were.
pub(crate) fn relist(holders: &mut Numbered<Digest, Few>, digest: Digest, few: Few)
    requires { has_slot digest_cmp holders.old digest ≡ true }
    ensures { (other : Digest) → listed_at holders.new.rows other ≡ cond (is_at (digest_cmp digest) other) few (listed_at holders.old.rows other) }
{
    if few.is_empty() {
        let _ = holders.take(digest);
    } else {
        holders.put(digest, few);
    }
}

/// Whether an element is among elements.
pub(crate) fn has_elem(elems: &[Elem], elem: Elem) -> bool
    ensures { result ≡ has_elem elem elems.now }
{
    for other in elems {
        if elem.cmp(other).is_eq() {
            return true;
        }
    }
    false
}

/// Elements with one more, last. `Memory` where none was left.
pub(crate) fn with_elem(alloc: Global, elems: &[Elem], elem: Elem) -> Result<Few, Memory>
    ensures { IfOk result (λ few. few ≡ elems.now ++ elem ∷ []) }
{
    if elems.is_empty() {
        return Ok(Few::one(elem));
    }
    let mut more = List::from_slice(alloc, elems)?;
    match more.push(elem) {
        Ok(()) => Few::many(alloc, more),
        Err((_, memory)) => Err(memory),
    }
}
