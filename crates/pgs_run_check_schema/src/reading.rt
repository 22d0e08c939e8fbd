//! A text that is a schema, with its tokens and its script.

ghost use Rattle.std.specs.Prelude.{◌≡◌, ◌≤◌, length, Ok, IfOk};
ghost use Rattle.pgs_base.specs.declared.text_limit.TheConstants.{TEXT_LIMIT};
ghost use Rattle.pgs_lexer.specs.Cut.{tokens_of};
ghost use Rattle.pgs_parser.specs.StatementReaders.{script_of};
ghost use Rattle.pgs_run_check_schema.specs.Read.{tokens_in, script_in};

use pgs_base::Memory;
use pgs_lexer::{LexFault, Tokens, lex};
use pgs_parser::{ParseFault, parse};
use pgs_syntax::Script;
use std::alloc::Global;

/// The tokens of a text that is a schema.
pub(crate) fn tokens_in(alloc: Global, text: &[u8]) -> Result<Tokens<'_>, Memory>
    requires short { length text.now ≤ TEXT_LIMIT }
    requires tokens { tokens_of text.now ≡ Ok (tokens_in text.now) }
    ensures { IfOk result (λ tokens. tokens ≡ tokens_in text.now) }
{
    match lex(alloc, text) {
        Ok(tokens) => Ok(tokens),
        Err(LexFault::Memory) => Err(Memory),
        Err(LexFault::Lex { .. }) => unreachable!(),
    }
}

/// The script of a text that is a schema, by its tokens.
pub(crate) fn script_in(alloc: Global, text: &[u8], tokens: &Tokens<'_>) -> Result<Script, Memory>
    requires tokens { tokens.now ≡ tokens_in text.now }
    requires script { script_of (tokens_in text.now) ≡ Ok (script_in text.now) }
    ensures { IfOk result (λ script. script ≡ script_in text.now) }
{
    match parse(alloc, tokens) {
        Ok(script) => Ok(script),
        Err(ParseFault::Memory) => Err(Memory),
        Err(ParseFault::Syntax { .. }) => unreachable!(),
    }
}
