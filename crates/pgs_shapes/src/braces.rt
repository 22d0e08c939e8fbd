ghost use Rattle.std.specs.Prelude.{◌≡◌, ℕ, ◌^◌, ◌≤◌, List, true, length, map, IfOk};
ghost use Rattle.std.specs.Ordering.{nat_cmp};
ghost use Rattle.std.specs.Cmp.Lexicographic.{slice_cmp};
ghost use Rattle.std.specs.Map.{keys_of, lookup};
ghost use Rattle.pgs_base.specs.declared.row.NodeRow.{NodeRow};
ghost use Rattle.pgs_base.specs.Order.{ascends};
ghost use Rattle.pgs_base.specs.Pair.{same_name, is_pair};
ghost use Rattle.pgs_syntax.specs.Fitting.{is_braced};
ghost use Rattle.pgs_conform.specs.Shapes.{in_shape};
ghost use Rattle.pgs_shapes.specs.Properties.{are_apart, property_options, key_of};

use pgs_base::{Copyable, Kind, Labels, List, Memory, Name};
use pgs_conform::{Options, Shape, free_options};
use pgs_product::join_keys;
use pgs_syntax::{Braces, Property};
use std::alloc::Global;

// Properties whose number is a `usize` are halved no more than so many times.
const MOST_HALVINGS: u32 = 64;

// What may stand at the key of a property.
fn options_of(property: &Property) -> Options
    ensures { result ≡ property_options property.now }
{
    let mut options = Options {
        absent: property.optional,
        text: false,
        int: false,
        boolean: false,
        date: false,
    };
    match property.kind {
        Kind::Text => options.text = true,
        Kind::Int => options.int = true,
        Kind::Bool => options.boolean = true,
        Kind::Date => options.date = true,
    }
    options
}

// The keys of properties, in order. The properties are halved, no more than `further` times, so that the calls stand no deeper, and
// the halves merged; where they name no key twice, each key has what its property says.
fn keys_of(
    alloc: Global,
    properties: &[Property],
    further: u32,
) -> Result<Vec<(Name, Options)>, Memory>
    requires { length properties.now ≤ 2 ^ further }
    ensures ascending { IfOk result (λ keys. ascends (slice_cmp nat_cmp) (keys_of keys.items) ≡ true) }
    ensures same { IfOk result (λ keys. are_apart properties.now ≡ true → (k : List ℕ) →
        lookup (same_name k) keys.items ≡ lookup (same_name k) (map key_of properties.now)) }
{
    match properties {
        [] => Ok(Vec::new(alloc)),
        [only] => {
            let mut keys = Vec::new(alloc);
            let name = only.key.copy(alloc)?;
            keys.push((name, options_of(only)))?;
            Ok(keys)
        }
        _ => {
            let lower = further - 1;
            let (front, back) = properties.split_at(properties.len() / 2);
            let first = keys_of(alloc, front, lower)?;
            let second = keys_of(alloc, back, lower)?;
            let closed = free_options(false);
            join_keys(alloc, &first, closed, &second, closed)
        }
    }
}

/// The shape of the pairs that are as braces say, which name no key twice.
pub fn braces_shape(alloc: Global, braces: &Braces) -> Result<Shape, Memory>
    ensures { IfOk result (λ shape. are_apart braces.now.properties ≡ true → (p : NodeRow) → is_pair p ≡ true →
        in_shape shape p ≡ is_braced braces.now p) }
{
    let keys = keys_of(alloc, braces.properties.as_slice(), MOST_HALVINGS)?;
    Ok(Shape {
        labels: Labels::new(alloc),
        more_labels: false,
        keys: List::from_vec(keys),
        more_keys: braces.more,
    })
}
