//! The lines of the types of a guard.

ghost use Rattle.std.specs.Prelude.{◌≡◌, ◌∷◌, [], true, Some, MatchOption, IfOk, OnOk};
ghost use Rattle.pgs_contain.specs.Contained.{has_type};
ghost use Rattle.pgs_run_contain.specs.Answers.{listed_name};
ghost use Rattle.pgs_run_check_schema.specs.Examples.{example_line, HasTypes};

use pgs_advice_lines::{Line, never_line, tell, type_line, warn};
use pgs_answer::txn_line;
use pgs_base::{Memory, Name};
use pgs_conform::Compiled;
use pgs_contain::Outside;
use pgs_run_contain::{listed_name, txn_of};
use pgs_standing::example_of;
use pgs_syntax::TypeNo;
use std::alloc::Global;

// The line of the answer to a type: an example, or none.
fn example_line(alloc: Global, name: &Name, answer: Option<Outside>) -> Result<Line, Memory>
    ensures { IfOk result (λ line. line ≡ example_line name.now answer) }
{
    match answer {
        Some(example) => {
            let txn = txn_of(alloc, example)?;
            let transaction = txn_line(alloc, &txn)?;
            Ok(tell(type_line(alloc, name, transaction.as_slice())?))
        }
        None => Ok(warn(never_line(alloc, name)?)),
    }
}

// Puts the line of a type last that has this name.
fn push_example(
    alloc: Global,
    schema: &Compiled,
    number: TypeNo,
    name: &Name,
    lines: &mut Vec<Line>,
) -> Result<(), Memory>
    requires there { has_type schema.now number ≡ true }
    requires named { listed_name schema.now number ≡ Some name.now }
    ensures { OnOk result (HasTypes schema.now (number ∷ []) lines.old.items lines.new.items) }
{
    let answer = example_of(alloc, schema, number)?;
    let line = example_line(alloc, name, answer)?;
    lines.push(line)?;
    Ok(())
}

// Puts the line of a type last, where it isn't abstract.
fn push_type(
    alloc: Global,
    schema: &Compiled,
    number: TypeNo,
    lines: &mut Vec<Line>,
) -> Result<(), Memory>
    ensures { OnOk result (HasTypes schema.now (number ∷ []) lines.old.items lines.new.items) }
{
    match listed_name(schema.resolved(), number) {
        Some(name) => push_example(alloc, schema, number, name, lines),
        None => Ok(()),
    }
}

/// Puts the lines of types last that aren't abstract, in order: each has an example of what can stand, or says that there is none.
pub(crate) fn push_types(
    alloc: Global,
    schema: &Compiled,
    numbers: &[TypeNo],
    lines: &mut Vec<Line>,
) -> Result<(), Memory>
    ensures { OnOk result (HasTypes schema.now numbers.now lines.old.items lines.new.items) }
{
    for number in numbers {
        push_type(alloc, schema, *number, lines)?;
    }
    Ok(())
}
