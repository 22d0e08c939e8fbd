//! What a pattern asks of one variable: of the pair that its element carries, and of its type.

ghost use Rattle.std.specs.Prelude.{◌≡◌, true, false, Some};
ghost use Rattle.std.specs.Option.{option_map_or};
ghost use Rattle.std.specs.List.{list_any, list_all};
ghost use Rattle.pgs_base.specs.Pair.{pair_of, value_at};
ghost use Rattle.pgs_conform.specs.Shapes.{triple_of};
ghost use Rattle.pgs_syntax.specs.Matches.{same_value};
ghost use Rattle.pgs_syntax.specs.Valid.{names_types};
ghost use Rattle.pgs_match.specs.Tests.{pair_meets, node_meets, triple_meets, node_passes};
ghost use Rattle.pgs_match.specs.Asks.{asks_edge_type};

use pgs_base::{Labels, Name, Props, Value};
use pgs_conform::{Compiled, Pair, edge_fits, node_fits};
use pgs_syntax::Atom;

// Whether a property is present with a value.
fn has_value(props: &Props, key: &Name, value: &Value) -> bool
    ensures { result ≡ option_map_or (same_value value.now) (value_at key.now props.now) false }
{
    match props.get(key) {
        Some(own) => value.cmp(own).is_eq(),
        None => false,
    }
}

// Whether the label or the property that an atom asks of a variable, if it does, is there.
fn pair_meets(atom: &Atom, var: u32, labels: &Labels, props: &Props) -> bool
    ensures { result ≡ pair_meets var (pair_of labels.now props.now) atom.now }
{
    match atom {
        Atom::HasLabel { var: of, label } => *of != var || labels.contains(label),
        Atom::Equals {
            var: of,
            key,
            value,
        } => *of != var || has_value(props, key, value),
        Atom::Ends { .. } | Atom::FitsNode { .. } | Atom::FitsEdge { .. } => true,
    }
}

// Whether a node has what an atom asks of a variable, its node type included.
fn node_meets(compiled: &Compiled, atom: &Atom, var: u32, labels: &Labels, props: &Props) -> bool
    requires { names_types compiled.now atom.now ≡ true }
    ensures { result ≡ node_meets compiled.now var (pair_of labels.now props.now) atom.now }
{
    match atom {
        Atom::FitsNode { var: of, number } => {
            *of != var || node_fits(compiled, *number, labels, props)
        }
        _ => pair_meets(atom, var, labels, props),
    }
}

/// Whether a node has all that is asked of a variable.
pub(crate) fn node_passes(
    compiled: &Compiled,
    atoms: &[Atom],
    var: u32,
    labels: &Labels,
    props: &Props,
) -> bool
    requires { list_all (names_types compiled.now) atoms.now ≡ true }
    ensures { result ≡ node_passes compiled.now atoms.now var (pair_of labels.now props.now) }
{
    for atom in atoms {
        if !node_meets(compiled, atom, var, labels, props) {
            return false;
        }
    }
    true
}

/// Whether an edge has all labels and properties that are asked of a variable.
pub(crate) fn pair_passes(atoms: &[Atom], var: u32, labels: &Labels, props: &Props) -> bool
    ensures { result ≡ list_all (pair_meets var (pair_of labels.now props.now)) atoms.now }
{
    for atom in atoms {
        if !pair_meets(atom, var, labels, props) {
            return false;
        }
    }
    true
}

// Whether an atom asks an edge type of a variable.
fn asks_edge_type(atom: &Atom, var: u32) -> bool
    ensures { result ≡ asks_edge_type var atom.now }
{
    match atom {
        Atom::FitsEdge { var: of, .. } => *of == var,
        _ => false,
    }
}

/// Whether some edge type is asked of a variable.
pub(crate) fn asks_some_edge_type(atoms: &[Atom], var: u32) -> bool
    ensures { result ≡ list_any (asks_edge_type var) atoms.now }
{
    for atom in atoms {
        if asks_edge_type(atom, var) {
            return true;
        }
    }
    false
}

// Whether an edge fits the edge type that an atom asks of a variable, by the pairs of its source, of itself and of its target.
fn triple_meets(
    compiled: &Compiled,
    atom: &Atom,
    var: u32,
    source: &Pair<'_>,
    middle: &Pair<'_>,
    target: &Pair<'_>,
) -> bool
    requires { names_types compiled.now atom.now ≡ true }
    ensures { result ≡ triple_meets compiled.now var (Some (triple_of source.now middle.now target.now)) atom.now }
{
    match atom {
        Atom::FitsEdge { var: of, number } => {
            *of != var || edge_fits(compiled, *number, source, middle, target)
        }
        _ => true,
    }
}

/// Whether an edge fits all edge types that are asked of a variable.
pub(crate) fn triple_passes(
    compiled: &Compiled,
    atoms: &[Atom],
    var: u32,
    source: &Pair<'_>,
    middle: &Pair<'_>,
    target: &Pair<'_>,
) -> bool
    requires { list_all (names_types compiled.now) atoms.now ≡ true }
    ensures { result ≡ list_all (triple_meets compiled.now var (Some (triple_of source.now middle.now target.now))) atoms.now }
{
    for atom in atoms {
        if !triple_meets(compiled, atom, var, source, middle, target) {
            return false;
        }
    }
    true
}
