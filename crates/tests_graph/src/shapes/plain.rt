//! A plain program of the definition of fitting, over the pairs below 128: a set of them has a bit for each.

use super::pairs::is_pair;
use pgs_base::{Kind, Name};
use pgs_syntax::{Braces, Leaf, Property, Spec};

/// Whether a set has the pair of a number.
pub fn has(set: u128, number: u32) -> bool {
    number < 128 && set >> number & 1 == 1
}

fn with(set: u128, number: u32) -> u128 {
    if number < 128 { set | 1 << number } else { set }
}

fn bit_of(label: &Name) -> u32 {
    if label.bytes() == b"A".as_slice() {
        1
    } else {
        2
    }
}

// The bits of what stands at a key.
fn bits_at(key: &Name) -> u32 {
    if key.bytes() == b"k".as_slice() {
        72
    } else {
        144
    }
}

fn meets(property: &Property, pair: u32) -> bool {
    let found = pair & bits_at(&property.key);
    let texts = found & 56;
    match (found, property.kind) {
        (0, _) => property.optional,
        (_, Kind::Text) => texts == found,
        _ => texts == 0,
    }
}

fn fits_braces(braces: &Braces, pair: u32) -> bool {
    let mut further = pair;
    for property in braces.properties.as_slice() {
        if !meets(property, pair) {
            return false;
        }
        further &= !bits_at(&property.key);
    }
    further == 0 || (braces.more && further & 7 == 0)
}

// Whether a pair fits a specification without parts.
fn fits(spec: &Spec<Leaf>, pair: u32) -> bool {
    match spec {
        Spec::Empty => pair == 0,
        Spec::Word(Leaf::Label(label)) => pair == bit_of(label),
        Spec::OpenLabels => pair < 8,
        Spec::Braces(braces) => fits_braces(braces, pair),
        _ => false,
    }
}

fn fitting(spec: &Spec<Leaf>) -> u128 {
    let mut set = 0;
    for pair in 0..128 {
        if is_pair(pair) && fits(spec, pair) {
            set = with(set, pair);
        }
    }
    set
}

// The joins of a pair with each of a set.
fn joins_of(first: u32, others: u128) -> u128 {
    let mut set = 0;
    for second in 0..128 {
        if has(others, second) && is_pair(first | second) {
            set = with(set, first | second);
        }
    }
    set
}

fn joins(firsts: u128, others: u128) -> u128 {
    let mut set = 0;
    for first in 0..128 {
        if has(firsts, first) {
            set |= joins_of(first, others);
        }
    }
    set
}

/// The pairs that fit a specification, where those that fit each named type are given.
pub fn set_of(spec: &Spec<Leaf>, named: &[u128]) -> u128 {
    match spec {
        Spec::Word(Leaf::Named(number)) => match named.get(*number as usize) {
            Some(set) => *set,
            None => 0,
        },
        Spec::And(parts) => {
            let mut set = 1;
            for part in parts.as_slice() {
                set = joins(set, set_of(part, named));
            }
            set
        }
        Spec::Or(parts) => {
            let mut set = 0;
            for part in parts.as_slice() {
                set |= set_of(part, named);
            }
            set
        }
        Spec::Opt(part) => set_of(part.get(), named) | 1,
        _ => fitting(spec),
    }
}
