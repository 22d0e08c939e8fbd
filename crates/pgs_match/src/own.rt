//! What a pattern asks of the element of one variable, as far as the element's own row tells.

ghost use Rattle.std.specs.Prelude.{◌≡◌, true};
ghost use Rattle.std.specs.List.{list_all};
ghost use Rattle.pgs_syntax.specs.Valid.{names_types};
ghost use Rattle.pgs_match.specs.Tests.{own_passes};

use crate::asked::{node_passes, pair_passes};
use pgs_base::Elem;
use pgs_conform::{Compiled, Pair};
use pgs_syntax::Pattern;

/// Whether an element is of the kind of a variable, and its own labels and properties are such as the pattern asks of the variable.
/// An edge type isn't tested, since it is asked of the ends too. The pattern's types are those of the schema.
///
/// No match has an element at a variable where this is false. It takes no look-up and no memory. The rule is `own_passes` in
/// `specs/Tests.antt` of `pgs_match`.
pub fn own_passes(
    compiled: &Compiled,
    pattern: &Pattern,
    var: u32,
    elem: Elem,
    own: &Pair<'_>,
) -> bool
    requires { list_all (names_types compiled.now) pattern.now.atoms ≡ true }
    ensures { result ≡ own_passes compiled.now pattern.now var elem own.now }
{
    let atoms = pattern.atoms.as_slice();
    match (elem, pattern.edge_vars.at(var as usize)) {
        (Elem::Node(_), Some(false)) => node_passes(compiled, atoms, var, own.labels, own.props),
        (Elem::Edge(_), Some(true)) => pair_passes(atoms, var, own.labels, own.props),
        _ => false,
    }
}
