ghost use Rattle.std.specs.Prelude.{◌≡◌, ◌≤◌, List, length, true, Ok, None, IfOk, IfErr, OnOk};
ghost use Rattle.pgs_base.specs.declared.text_limit.TheConstants.{TEXT_LIMIT};
ghost use Rattle.pgs_lexer.specs.Token.{Lexeme};
ghost use Rattle.pgs_lexer.specs.Cut.{tokens_of};
ghost use Rattle.pgs_parser.specs.Text.{found_in};
ghost use Rattle.pgs_parser.specs.Statements.{IsScript};
ghost use Rattle.pgs_parser.specs.StatementReaders.{script_of};
ghost use Rattle.pgs_resolve.specs.Resolution.{resolution};
ghost use Rattle.pgs_resolve.specs.SchemaOf.{answer_of_finding, answer_of_script, answer_of_schema, schema, schema_of};
ghost use Rattle.pgs_syntax.specs.Valid.{is_valid};
ghost use Rattle.pgs_syntax.specs.Width.{first_too_wide};
ghost use Rattle.pgs_schema.specs.Told.{IsRefused, IsUnresolved};

use crate::{SchemaFault, SchemaUnread};
use pgs_base::TEXT_LIMIT;
use pgs_conform::Compiled;
use pgs_lexer::{LexFault, Tokens, lex};
use pgs_parser::{ParseFault, parse};
use pgs_resolve::{ResolveFault, resolve};
use pgs_shapes::{CompileFault, compile};
use pgs_syntax::{Resolved, Script};
use std::alloc::Global;

// The tokens of a text.
fn tokens_of(alloc: Global, text: &[u8]) -> Result<Tokens<'_>, SchemaUnread>
    requires { length text.now ≤ TEXT_LIMIT }
    ensures tokens { IfOk result (λ tokens. tokens_of text.now ≡ Ok tokens) }
    ensures refused { IfErr result (IsRefused (answer_of_finding (found_in (tokens_of text.now)))) }
{
    match lex(alloc, text) {
        Ok(tokens) => Ok(tokens),
        Err(LexFault::Memory) => Err(SchemaUnread::Memory),
        Err(LexFault::Lex { line }) => Err(SchemaUnread::Schema(SchemaFault::Lex { line })),
    }
}

// The script that tokens are.
fn script_of(alloc: Global, tokens: &Tokens<'_>) -> Result<Script, SchemaUnread>
    ensures script { IfOk result (λ script. IsScript script tokens.now) }
    ensures computed { IfOk result (λ script. script_of tokens.now ≡ Ok script) }
    ensures refused { IfErr result (IsRefused (answer_of_finding (found_in (Ok tokens.now)))) }
{
    match parse(alloc, tokens) {
        Ok(script) => Ok(script),
        Err(ParseFault::Memory) => Err(SchemaUnread::Memory),
        Err(ParseFault::Syntax { statement }) => {
            Err(SchemaUnread::Schema(SchemaFault::Syntax { statement }))
        }
    }
}

// What a script that doesn't resolve is refused for.
fn unread_of(fault: ResolveFault) -> SchemaUnread
    ensures { IsUnresolved fault result }
{
    match fault {
        ResolveFault::Memory => SchemaUnread::Memory,
        ResolveFault::NoGraphType => SchemaUnread::Schema(SchemaFault::NoGraphType),
        ResolveFault::Duplicate { name } => SchemaUnread::Schema(SchemaFault::Duplicate { name }),
        ResolveFault::Unknown { name } => SchemaUnread::Schema(SchemaFault::Unknown { name }),
        ResolveFault::Kind { name } => SchemaUnread::Schema(SchemaFault::Kind { name }),
        ResolveFault::Cycle { name } => SchemaUnread::Schema(SchemaFault::Cycle { name }),
        ResolveFault::BadKey { key, cause } => {
            SchemaUnread::Schema(SchemaFault::BadKey { key, cause })
        }
    }
}

// The schema of a script.
fn resolution_of(alloc: Global, script: &Script) -> Result<Resolved, SchemaUnread>
    ensures schema { IfOk result (λ schema. resolution script.now ≡ Ok schema) }
    ensures valid { IfOk result (λ schema. (tokens : List Lexeme) → IsScript script.now tokens → is_valid schema ≡ true) }
    ensures refused { IfErr result (IsRefused (answer_of_script (resolution script.now))) }
{
    match resolve(alloc, script) {
        Ok(schema) => Ok(schema),
        Err(fault) => Err(unread_of(fault)),
    }
}

// A schema with its types compiled.
fn compiled_of(alloc: Global, resolved: Resolved) -> Result<Compiled, SchemaUnread>
    requires { is_valid resolved ≡ true }
    ensures kept { IfOk result (λ compiled. compiled ≡ resolved) }
    ensures narrow { OnOk result (first_too_wide resolved ≡ None) }
    ensures refused { IfErr result (IsRefused (answer_of_schema resolved)) }
{
    match compile(alloc, resolved) {
        Ok(compiled) => Ok(compiled),
        Err(CompileFault::Memory) => Err(SchemaUnread::Memory),
        Err(CompileFault::TooWide { name }) => {
            Err(SchemaUnread::Schema(SchemaFault::TooWide { name }))
        }
    }
}

/// The schema of a text, with its types compiled. `Schema` exactly where `schema_of` of `pgs_resolve` refuses the text, with that
/// refusal, the first in the order in which they are tested: 19, 10 to 16, 18, 17. `Memory` where there was none left.
pub fn read_schema(alloc: Global, text: &[u8]) -> Result<Compiled, SchemaUnread>
    ensures schema { IfOk result (λ compiled. schema_of text.now ≡ schema compiled) }
    ensures valid { IfOk result (λ compiled. is_valid compiled ≡ true) }
    ensures refused { IfErr result (IsRefused (schema_of text.now)) }
{
    if text.len() > TEXT_LIMIT {
        return Err(SchemaUnread::Schema(SchemaFault::TooLong));
    }
    let tokens = tokens_of(alloc, text)?;
    let script = script_of(alloc, &tokens)?;
    let resolved = resolution_of(alloc, &script)?;
    compiled_of(alloc, resolved)
}
