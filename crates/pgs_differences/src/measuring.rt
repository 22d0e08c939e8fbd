ghost use Rattle.std.specs.Prelude.{◌≡◌, ◌<◌, count_by};
ghost use Rattle.pgs_syntax.specs.Join.{is_empty};
ghost use Rattle.pgs_differences.specs.Nearest.{is_of_label, is_of_key, differs, measure_of, goes_before, is_edge_type, has_fitting_ends};

use crate::{Difference, Measure, NearType};
use pgs_syntax::TypeNo;

impl Difference {
    // Whether it is one in labels.
    fn is_of_label(&self) -> bool
        ensures { result ≡ is_of_label self.now }
    {
        match self {
            Difference::LacksLabel(_) => true,
            Difference::FurtherLabel(_) => true,
            _ => false,
        }
    }
}

// How many are in labels.
pub(crate) fn label_count(found: &[Difference]) -> usize
    ensures { result ≡ count_by is_of_label found.now }
{
    found.iter().filter(|one| one.is_of_label()).count()
}

// How many are in keys.
fn key_count(found: &[Difference]) -> usize
    ensures { result ≡ count_by is_of_key found.now }
{
    found.iter().filter(|one| !one.is_of_label()).count()
}

// 1 of an end that differs.
fn differs(found: &[Difference]) -> u32
    ensures value { result ≡ differs found.now }
    ensures small { result < 2 }
{
    match found {
        [] => 0,
        _ => 1,
    }
}

fn is_edge_type(type_no: TypeNo) -> bool
    ensures { result ≡ is_edge_type type_no }
{
    match type_no {
        TypeNo::Node(_) => false,
        TypeNo::Edge(_) => true,
    }
}

fn is_none(found: &[Difference]) -> bool
    ensures { result ≡ is_empty found.now }
{
    match found {
        [] => true,
        _ => false,
    }
}

impl NearType {
    /// How far the element is from the type.
    pub fn measure(&self) -> Measure
        ensures { result ≡ measure_of self.now }
    {
        let source = self.source.as_slice();
        let own = self.own.as_slice();
        let target = self.target.as_slice();
        Measure {
            own_labels: label_count(own),
            ends: differs(source) + differs(target),
            own_keys: key_count(own),
            end_labels: label_count(source) as u128 + label_count(target) as u128,
            end_keys: key_count(source) as u128 + key_count(target) as u128,
        }
    }

    // Whether it goes before another.
    #[tactic(auto, unfolding(crate::specs::Nearest::goes_before))]
    pub(crate) fn goes_before(&self, other: &NearType) -> bool
        ensures { result ≡ goes_before self.now other.now }
    {
        self.measure().compare(other.measure()).is_lt()
    }

    // Whether it is a type of edges and the ends fit.
    pub(crate) fn has_fitting_ends(&self) -> bool
        ensures { result ≡ has_fitting_ends self.now }
    {
        is_edge_type(self.type_no)
            && is_none(self.source.as_slice())
            && is_none(self.target.as_slice())
    }
}
