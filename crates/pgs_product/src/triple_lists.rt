ghost use Rattle.std.specs.Prelude.{◌≡◌, ◌+◌, ◌*◌, ◌^◌, ◌≤◌, ◌||◌, true, length, map, IfOk, OnOk};
ghost use Rattle.std.specs.List.{list_any};
ghost use Rattle.pgs_syntax.specs.Join.{of_triples, joined, joined_all, PairTriple};
ghost use Rattle.pgs_syntax.specs.Triples.{is_triple};
ghost use Rattle.pgs_conform.specs.Shapes.{in_triple, in_some_triple, DenotesTriples};
ghost use Rattle.pgs_product.specs.Counts.{choices};

use crate::empty::empty_shape;
use crate::lists::MOST_HALVINGS;
use crate::triples::{copy_triples, middle_triple, triple_product};
use pgs_base::{List, Memory};
use pgs_conform::Triple;
use std::alloc::Global;

// Puts the products of a triple of shapes with each of others last.
fn push_triple_products(
    alloc: Global,
    first: &Triple,
    second: &[Triple],
    products: &mut Vec<Triple>,
) -> Result<(), Memory>
    ensures denote { OnOk result ((t : PairTriple) → is_triple t ≡ true → in_some_triple products.new.items t
        ≡ (in_some_triple products.old.items t
        || list_any (λ shapes. joined of_triples (in_triple first.now) (in_triple shapes) t) second.now)) }
    ensures count { OnOk result (length products.new.items ≡ length products.old.items + length second.now) }
{
    for triple in second {
        products.push(triple_product(alloc, first, triple)?)?;
    }
    Ok(())
}

/// The products of each of some triples of shapes with each of others: they denote the joins of a triple of the ones with a triple
/// of the others.
pub fn triple_products(
    alloc: Global,
    first: &[Triple],
    second: &[Triple],
) -> Result<List<Triple>, Memory>
    ensures denote { IfOk result (λ products.
        DenotesTriples products (joined of_triples (in_some_triple first.now) (in_some_triple second.now))) }
    ensures count { IfOk result (λ products. length products ≡ length first.now * length second.now) }
{
    let mut products = Vec::new(alloc);
    for triple in first {
        push_triple_products(alloc, triple, second, &mut products)?;
    }
    Ok(List::from_vec(products))
}

// The products of triples of shapes of several lists, which can be halved no more than `further` times: so deep do the calls stand.
fn triple_product_of_halves(
    alloc: Global,
    lists: &[List<Triple>],
    further: u32,
) -> Result<List<Triple>, Memory>
    requires { length lists.now ≤ 2 ^ further }
    ensures denote { IfOk result (λ products. DenotesTriples products (joined_all of_triples (map in_some_triple lists.now))) }
    ensures count { IfOk result (λ products. length products ≡ choices lists.now) }
{
    match lists {
        [] => {
            let mut only = Vec::new(alloc);
            only.push(middle_triple(alloc, empty_shape(alloc)))?;
            Ok(List::from_vec(only))
        }
        [only] => copy_triples(alloc, only.as_slice()),
        _ => {
            let lower = further - 1;
            let (front, back) = lists.split_at(lists.len() / 2);
            let first = triple_product_of_halves(alloc, front, lower)?;
            let second = triple_product_of_halves(alloc, back, lower)?;
            triple_products(alloc, first.as_slice(), second.as_slice())
        }
    }
}

/// The products of triples of shapes of several lists, one of each: they denote the joins of triples, one of each list, and there
/// are as many as ways to take one of each.
pub fn triple_product_of_all(alloc: Global, lists: &[List<Triple>]) -> Result<List<Triple>, Memory>
    ensures denote { IfOk result (λ products. DenotesTriples products (joined_all of_triples (map in_some_triple lists.now))) }
    ensures count { IfOk result (λ products. length products ≡ choices lists.now) }
{
    triple_product_of_halves(alloc, lists, MOST_HALVINGS)
}
