ghost use Rattle.std.specs.Prelude.{ℕ, IfOk};
ghost use Rattle.pgs_syntax.specs.declared.specification.Spec.{Word};
ghost use Rattle.pgs_schema_changes.specs.Unfolded.{Tree, unfolded};
ghost use Rattle.pgs_schema_changes.specs.Numbers.{AreNamed, IsNumbered, Puts};
ghost use Rattle.pgs_schema_changes.specs.Parts.{parts_tree};

use crate::braces::copy_braces;
use crate::form::Form;
use crate::trees::Trees;
use pgs_base::{Copyable, Memory};
use pgs_syntax::{Leaf, Spec};
use std::alloc::Global;

fn number_leaf(
    alloc: Global,
    trees: &mut Trees,
    named: &[usize],
    leaf: &Leaf,
) -> Result<usize, Memory>
    ensures { (names : ℕ → Tree) → IsNumbered trees.old.entries.items → AreNamed trees.old.entries.items named.now names
        → IfOk result (λ number. Puts trees.old.entries.items trees.new.entries.items number (unfolded names (Word leaf.now))) }
{
    match leaf {
        Leaf::Label(label) => {
            let label = label.copy(alloc)?;
            trees.put(Form::Label(label), 0, 0)
        }
        Leaf::Named(number) => match named.get(*number as usize) {
            Some(number) => Ok(*number),
            None => Ok(0),
        },
    }
}

/// The number of a specification, unfolded by the numbers of the types that it may name. `Memory` where there was none left.
#[cycle(trees)]
pub(crate) fn number_of(
    alloc: Global,
    trees: &mut Trees,
    named: &[usize],
    spec: &Spec<Leaf>,
) -> Result<usize, Memory>
    ensures { (names : ℕ → Tree) → IsNumbered trees.old.entries.items → AreNamed trees.old.entries.items named.now names
        → IfOk result (λ number. Puts trees.old.entries.items trees.new.entries.items number (unfolded names spec.now)) }
{
    match spec {
        Spec::Empty => trees.put(Form::Empty, 0, 0),
        Spec::Word(leaf) => number_leaf(alloc, trees, named, leaf),
        Spec::OpenLabels => trees.put(Form::OpenLabels, 0, 0),
        Spec::Braces(braces) => {
            let braces = copy_braces(alloc, braces)?;
            trees.put(Form::Braces(braces), 0, 0)
        }
        Spec::And(parts) => {
            let parts = number_of_parts(alloc, trees, named, parts.as_slice())?;
            trees.put(Form::And, parts, 0)
        }
        Spec::Or(parts) => {
            let parts = number_of_parts(alloc, trees, named, parts.as_slice())?;
            trees.put(Form::Or, parts, 0)
        }
        Spec::Opt(part) => {
            let part = number_of(alloc, trees, named, part.get())?;
            let parts = trees.put(Form::Parts, part, 0)?;
            trees.put(Form::Opt, parts, 0)
        }
    }
}

// The number of parts, from the last.
#[cycle(trees)]
fn number_of_parts(
    alloc: Global,
    trees: &mut Trees,
    named: &[usize],
    parts: &[Spec<Leaf>],
) -> Result<usize, Memory>
    ensures { (names : ℕ → Tree) → IsNumbered trees.old.entries.items → AreNamed trees.old.entries.items named.now names
        → IfOk result (λ number. Puts trees.old.entries.items trees.new.entries.items number (parts_tree names parts.now)) }
{
    let mut rest = 0;
    let mut left = parts.len();
    while left > 0 {
        left -= 1;
        let first = number_of(alloc, trees, named, &parts[left])?;
        rest = trees.put(Form::Parts, first, rest)?;
    }
    Ok(rest)
}
