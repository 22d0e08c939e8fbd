ghost use Rattle.std.specs.Prelude.{◌≡◌, ◌+◌, ◌*◌, ◌^◌, ◌≤◌, ◌||◌, true, length, map, IfOk, OnOk};
ghost use Rattle.std.specs.List.{list_any};
ghost use Rattle.pgs_base.specs.declared.row.NodeRow.{NodeRow};
ghost use Rattle.pgs_base.specs.Pair.{is_pair};
ghost use Rattle.pgs_syntax.specs.Join.{of_pairs, joined, joined_all};
ghost use Rattle.pgs_conform.specs.Shapes.{in_shape, in_some, Denotes};
ghost use Rattle.pgs_product.specs.Counts.{choices};

use crate::copies::copy_shapes;
use crate::empty::empty_shape;
use crate::joining::product;
use pgs_base::{List, Memory};
use pgs_conform::Shape;
use std::alloc::Global;

// Lists whose number is a `usize` are halved no more than so many times.
pub const MOST_HALVINGS: u32 = 64;

// Puts the products of a shape with each of others last.
fn push_products(
    alloc: Global,
    first: &Shape,
    second: &[Shape],
    products: &mut Vec<Shape>,
) -> Result<(), Memory>
    ensures denote { OnOk result ((p : NodeRow) → is_pair p ≡ true → in_some products.new.items p
        ≡ (in_some products.old.items p || list_any (λ shape. joined of_pairs (in_shape first.now) (in_shape shape) p) second.now)) }
    ensures count { OnOk result (length products.new.items ≡ length products.old.items + length second.now) }
{
    for shape in second {
        products.push(product(alloc, first, shape)?)?;
    }
    Ok(())
}

/// The products of each of some shapes with each of others: they denote the joins of a pair of the ones with a pair of the others.
pub fn products(alloc: Global, first: &[Shape], second: &[Shape]) -> Result<List<Shape>, Memory>
    ensures denote { IfOk result (λ products. Denotes products (joined of_pairs (in_some first.now) (in_some second.now))) }
    ensures count { IfOk result (λ products. length products ≡ length first.now * length second.now) }
{
    let mut products = Vec::new(alloc);
    for shape in first {
        push_products(alloc, shape, second, &mut products)?;
    }
    Ok(List::from_vec(products))
}

// The products of shapes of several lists, which can be halved no more than `further` times: so deep do the calls stand.
fn product_of_halves(
    alloc: Global,
    lists: &[List<Shape>],
    further: u32,
) -> Result<List<Shape>, Memory>
    requires { length lists.now ≤ 2 ^ further }
    ensures denote { IfOk result (λ products. Denotes products (joined_all of_pairs (map in_some lists.now))) }
    ensures count { IfOk result (λ products. length products ≡ choices lists.now) }
{
    match lists {
        [] => {
            let mut only = Vec::new(alloc);
            only.push(empty_shape(alloc))?;
            Ok(List::from_vec(only))
        }
        [only] => copy_shapes(alloc, only.as_slice()),
        _ => {
            let lower = further - 1;
            let (front, back) = lists.split_at(lists.len() / 2);
            let first = product_of_halves(alloc, front, lower)?;
            let second = product_of_halves(alloc, back, lower)?;
            products(alloc, first.as_slice(), second.as_slice())
        }
    }
}

/// The products of shapes of several lists, one of each: they denote the joins of pairs, one of each list, and there are as many as
/// ways to take one of each. The lists are halved, so that a long chain of single shapes is no more work than a few of them.
pub fn product_of_all(alloc: Global, lists: &[List<Shape>]) -> Result<List<Shape>, Memory>
    ensures denote { IfOk result (λ products. Denotes products (joined_all of_pairs (map in_some lists.now))) }
    ensures count { IfOk result (λ products. length products ≡ choices lists.now) }
{
    product_of_halves(alloc, lists, MOST_HALVINGS)
}
