ghost use Rattle.std.specs.Prelude.{◌≡◌, ◌==◌};
ghost use Rattle.pgs_base.specs.Value.{kind_rank};
ghost use Rattle.std.specs.List.{list_all, zip};
ghost use Rattle.std.specs.Cmp.Lexicographic.{pointwise};
ghost use Rattle.pgs_schema_changes.specs.Unfolded.{same_property, same_braces, same_form};

use crate::form::Form;
use crate::same::same_name;
use pgs_base::Kind;
use pgs_syntax::{Braces, Property};

fn same_kind(a: Kind, b: Kind) -> bool
    ensures { result ≡ (kind_rank a == kind_rank b) }
{
    matches!(
        (a, b),
        (Kind::Text, Kind::Text)
            | (Kind::Int, Kind::Int)
            | (Kind::Bool, Kind::Bool)
            | (Kind::Date, Kind::Date)
    )
}

fn same_property(a: &Property, b: &Property) -> bool
    ensures { result ≡ same_property a.now b.now }
{
    same_name(&a.key, &b.key) && same_kind(a.kind, b.kind) && a.optional == b.optional
}

fn pair_properties(a: &[Property], b: &[Property]) -> bool
    ensures { result ≡ list_all (λ pair. same_property pair.0 pair.1) (zip a.now b.now) }
{
    a.iter().zip(b).all(|(a, b)| same_property(a, b))
}

#[tactic(auto, using(crate::proofs::Pairs::by_pairs))]
fn same_properties(a: &[Property], b: &[Property]) -> bool
    ensures { result ≡ pointwise same_property a.now b.now }
{
    a.len() == b.len() && pair_properties(a, b)
}

fn same_braces(a: &Braces, b: &Braces) -> bool
    ensures { result ≡ same_braces a.now b.now }
{
    same_properties(a.properties.as_slice(), b.properties.as_slice()) && a.more == b.more
}

/// Whether two forms are one.
pub(crate) fn same_form(a: &Form, b: &Form) -> bool
    ensures { result ≡ same_form a.now b.now }
{
    match (a, b) {
        (Form::Empty, Form::Empty) => true,
        (Form::Label(a), Form::Label(b)) => same_name(a, b),
        (Form::OpenLabels, Form::OpenLabels) => true,
        (Form::Braces(a), Form::Braces(b)) => same_braces(a, b),
        (Form::And, Form::And) => true,
        (Form::Or, Form::Or) => true,
        (Form::Opt, Form::Opt) => true,
        (Form::Parts, Form::Parts) => true,
        (Form::Edge, Form::Edge) => true,
        (Form::Ends, Form::Ends) => true,
        _ => false,
    }
}
