//! Shapes against all 216 pairs of three labels and three keys, beside a plain program over the bits of a pair.

use crate::shapes::pairs::{Owned, is_pair, labels_of, name};
use pgs_base::{List, Name, Rows};
use pgs_conform::{Options, Shape};
use std::alloc::Global;
use std::test::Fail;

/// A key, the bits of what stands there, and what may: 1 for nothing, 2 for a text, 4 for a number, and their sums.
type Key = (&'static str, u32, u32);

/// The bits of labels, keys, and whether further labels and further keys are free.
type Form = (u32, &'static [Key], bool, bool);

// What stands where these bits are.
fn sort_of(found: u32) -> u32 {
    if found == 0 {
        1
    } else if found & 56 == found {
        2
    } else {
        4
    }
}

// Whether a pair is in a shape.
fn plain_has(form: &Form, pair: u32) -> bool {
    let labels = form.0;
    let mut further = pair & !labels;
    for (_, bits, allowed) in form.1 {
        if sort_of(pair & bits) & allowed == 0 {
            return false;
        }
        further &= !bits;
    }
    pair & labels == labels && (form.2 || further & 7 == 0) && (form.3 || further & 504 == 0)
}

fn options_of(allowed: u32) -> Options {
    Options {
        absent: allowed & 1 != 0,
        text: allowed & 2 != 0,
        int: allowed & 4 != 0,
        boolean: false,
        date: false,
    }
}

fn shape(alloc: Global, form: &Form) -> Result<Shape, Fail> {
    let mut keys: Rows<Name, Options> = Rows::new(alloc);
    for (text, _, allowed) in form.1 {
        keys.set(name(alloc, text)?, options_of(*allowed))?;
    }
    let labels = labels_of(alloc, form.0)?;
    let keys = keys.into_vec();
    Ok(Shape {
        labels,
        more_labels: form.2,
        keys: List::from_vec(keys),
        more_keys: form.3,
    })
}

// How many pairs are answered alike, and how many are in the shape.
fn count_alike(alloc: Global, form: &Form) -> Result<(u32, u32), Fail> {
    let shape = shape(alloc, form)?;
    let mut alike: u32 = 0;
    let mut inside: u32 = 0;
    for pair in 0..512 {
        if is_pair(pair) {
            let has = shape.has(&Owned::of(alloc, pair)?.lent());
            alike = alike.saturating_add(u32::from(has == plain_has(form, pair)));
            inside = inside.saturating_add(u32::from(has));
        }
    }
    Ok((alike, inside))
}

/// Shapes, and how many of the pairs are in each.
const SHAPES: &[(Form, u32)] = &[
    ((1, &[("k", 72, 2), ("m", 288, 5)], false, false), 2),
    ((5, &[], true, true), 54),
    (
        (
            0,
            &[("k", 72, 5), ("l", 144, 6), ("m", 288, 1)],
            false,
            true,
        ),
        4,
    ),
    ((2, &[("l", 144, 2)], true, false), 4),
];

#[test]
fn a_walk_answers_as_looking_each_name_up_does(rt: HostRuntime) -> Result<(), Fail> {
    for (form, inside) in SHAPES {
        assert_eq!(rt; count_alike(rt.alloc(), form)?, (216, *inside));
    }
    Ok(())
}
