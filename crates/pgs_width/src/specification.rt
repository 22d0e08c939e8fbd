ghost use Rattle.std.specs.Prelude.{◌≡◌, ◌+◌, List, length, map, unwrap_or, slice_get};
ghost use Rattle.pgs_syntax.specs.declared.specification.Leaf.{Leaf};
ghost use Rattle.pgs_syntax.specs.declared.specification.Spec.{Word};
ghost use Rattle.pgs_syntax.specs.Width.{Width, one_form, width_of};
ghost use Rattle.pgs_width.specs.Capped.{capped_width, both_of, either_of};

use crate::capped::CappedWidth;
use pgs_syntax::{Leaf, Spec};

fn leaf_width(named: &[CappedWidth], leaf: &Leaf) -> CappedWidth
    ensures { (exact : List Width) → named.now ≡ map capped_width exact → result ≡ capped_width (width_of exact (Word leaf.now)) }
{
    match leaf {
        Leaf::Label(_) => CappedWidth::one_form(1),
        Leaf::Named(number) => match named.get(*number as usize) {
            Some(width) => *width,
            None => CappedWidth::one_form(1),
        },
    }
}

/// The width of a specification, where those of the types that it may name are given.
#[cycle(widths)]
pub fn width_of(named: &[CappedWidth], spec: &Spec<Leaf>) -> CappedWidth
    ensures { (exact : List Width) → named.now ≡ map capped_width exact → result ≡ capped_width (width_of exact spec.now) }
{
    match spec {
        Spec::Empty | Spec::OpenLabels => CappedWidth::one_form(1),
        Spec::Word(leaf) => leaf_width(named, leaf),
        Spec::Braces(braces) => {
            CappedWidth::one_form((braces.properties.len() as u64).saturating_add(1))
        }
        Spec::And(parts) => width_of_all(named, parts.as_slice()),
        Spec::Or(parts) => width_of_some(named, parts.as_slice()),
        Spec::Opt(part) => width_of(named, part.get()).or_none(),
    }
}

#[cycle(widths)]
fn width_of_all(named: &[CappedWidth], parts: &[Spec<Leaf>]) -> CappedWidth
    ensures { (exact : List Width) → named.now ≡ map capped_width exact →
        result ≡ capped_width (both_of (map (width_of exact) parts.now)) }
{
    let mut width = CappedWidth::one_form(0);
    let mut left = parts.len();
    while left > 0 {
        left -= 1;
        width = width_of(named, &parts[left]).both(width);
    }
    width
}

#[cycle(widths)]
fn width_of_some(named: &[CappedWidth], parts: &[Spec<Leaf>]) -> CappedWidth
    ensures { (exact : List Width) → named.now ≡ map capped_width exact →
        result ≡ capped_width (either_of (map (width_of exact) parts.now)) }
{
    let mut width = CappedWidth::no_form();
    let mut left = parts.len();
    while left > 0 {
        left -= 1;
        width = width_of(named, &parts[left]).either(width);
    }
    width
}
