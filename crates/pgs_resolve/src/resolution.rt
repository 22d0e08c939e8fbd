ghost use Rattle.std.specs.Prelude.{◌≡◌, slice_get, IfOk, IfErr, Ok, Err, ◌⊎◌, true, List};
ghost use Rattle.pgs_lexer.specs.Token.{Lexeme};
ghost use Rattle.pgs_parser.specs.Statements.{IsScript};
ghost use Rattle.pgs_syntax.specs.declared.script.Script.{Script};
ghost use Rattle.pgs_syntax.specs.Valid.{is_valid};
ghost use Rattle.pgs_resolve.specs.declared.fault.ResolveFault.TheVariants as faults;
ghost use Rattle.pgs_resolve.specs.Resolution.{refusals, resolved, resolution};
ghost use Rattle.pgs_resolve.specs.Keyed.{AreKeyed};
ghost use Rattle.pgs_resolve_declared.specs.Tables.{AreOf};

use crate::ResolveFault;
use crate::guard::guarding;
use crate::key_refusals::first_bad_key;
use crate::resolved_types::{resolve_edges, resolve_nodes};
use pgs_base::{Copyable, Memory};
use pgs_resolve_declared::{Declarations, first_duplicate, first_unknown, first_wrong};
use pgs_resolve_order::{least_on_cycle, numbering};
use pgs_syntax::{Resolved, Script};
use std::alloc::Global;

// The first refusal of a script. `None` exactly where it has none.
fn first_refusal(
    alloc: Global,
    script: &Script,
    declarations: &Declarations<'_>,
) -> Result<Option<ResolveFault>, Memory>
    requires { AreOf script.now declarations.now }
    ensures { IfOk result (λ fault. fault ≡ slice_get (refusals script.now) 0) }
{
    if declarations.graphs.is_empty() {
        return Ok(Some(ResolveFault::NoGraphType));
    }
    if let Some(name) = first_duplicate(alloc, script)? {
        return Ok(Some(ResolveFault::Duplicate { name }));
    }
    if let Some(name) = first_unknown(declarations) {
        let name = name.copy(alloc)?;
        return Ok(Some(ResolveFault::Unknown { name }));
    }
    if let Some(name) = first_wrong(alloc, declarations, script)? {
        return Ok(Some(ResolveFault::Kind { name }));
    }
    if let Some(name) = least_on_cycle(alloc, declarations)? {
        return Ok(Some(ResolveFault::Cycle { name }));
    }
    first_bad_key(alloc, declarations)
}

// The schema of a script, the scope of each of whose keys names a variable.
fn resolution_of(alloc: Global, declarations: &Declarations<'_>) -> Result<Resolved, Memory>
    requires { AreKeyed declarations.now }
    ensures { (script : Script) → AreOf script declarations.now → IfOk result (λ schema. schema ≡ resolved script) }
{
    let numbering = numbering(alloc, declarations)?;
    let nodes = resolve_nodes(alloc, declarations, &numbering)?;
    let edges = resolve_edges(alloc, declarations, &numbering)?;
    let guard = guarding(alloc, declarations, &numbering)?;
    Ok(Resolved {
        nodes,
        edges,
        guard,
    })
}

/// The schema of a script, or the first of its refusals, in the order of the variants of [`ResolveFault`]; both are
/// computed by `resolution` of `specs/Resolution.antt`. A schema is valid where the script is that of tokens. `Memory`
/// says nothing of the script. Names are shared with the script, not copied byte by byte.
pub fn resolve(alloc: Global, script: &Script) -> Result<Resolved, ResolveFault>
    ensures schema { IfOk result (λ schema. resolution script.now ≡ Ok schema) }
    ensures refusal { IfErr result (λ fault. (fault ≡ faults.Memory) ⊎ (resolution script.now ≡ Err fault)) }
    ensures valid { IfOk result (λ schema. (tokens : List Lexeme) → IsScript script.now tokens → is_valid schema ≡ true) }
{
    let declarations = Declarations::new(alloc, script)?;
    if let Some(fault) = first_refusal(alloc, script, &declarations)? {
        return Err(fault);
    }
    Ok(resolution_of(alloc, &declarations)?)
}
