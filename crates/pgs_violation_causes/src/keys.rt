//! The causes of the violation of a key.

ghost use Rattle.std.specs.Prelude.{◌≡◌, ◌≤◌, length, Ok, IfOk};
ghost use Rattle.pgs_base.specs.declared.text_limit.TheConstants.{TEXT_LIMIT};
ghost use Rattle.pgs_lexer.specs.Cut.{tokens_of};
ghost use Rattle.pgs_lexer.specs.Token.{Lexeme};
ghost use Rattle.pgs_parser.specs.StatementReaders.{script_of};
ghost use Rattle.pgs_resolve.specs.SchemaOf.{schema, schema_of};
ghost use Rattle.pgs_syntax.specs.declared.script.Script.{Script as Statements};
ghost use Rattle.pgs_violation_causes.specs.Keys.{AreCausesOfKey};

use pgs_base::{Bytes, List, Memory, Steps};
use pgs_conform::Compiled;
use pgs_graph::GraphRead;
use pgs_key_causes::{KeyGuide, key_causes};
use pgs_lexer::{LexFault, Tokens, lex};
use pgs_parser::{ParseFault, parse};
use pgs_resolve_declared::Declarations;
use pgs_syntax::Script;
use pgs_violation::Violation;
use std::alloc::Global;
use std::sync::ledger::Ledger;

// The tokens of a text that has some.
fn lexed(alloc: Global, text: &[u8]) -> Result<Tokens<'_>, Memory>
    requires short { length text.now ≤ TEXT_LIMIT }
    requires some { (tokens : List Lexeme) × (tokens_of text.now ≡ Ok tokens) }
    ensures { IfOk result (λ tokens. tokens_of text.now ≡ Ok tokens) }
{
    match lex(alloc, text) {
        Ok(tokens) => Ok(tokens),
        Err(LexFault::Memory) => Err(Memory),
        Err(LexFault::Lex { .. }) => unreachable!(),
    }
}

// The script of tokens that are one.
fn parsed(alloc: Global, tokens: &Tokens<'_>) -> Result<Script, Memory>
    requires { (script : Statements) × (script_of tokens.now ≡ Ok script) }
    ensures { IfOk result (λ script. script_of tokens.now ≡ Ok script) }
{
    match parse(alloc, tokens) {
        Ok(script) => Ok(script),
        Err(ParseFault::Memory) => Err(Memory),
        Err(ParseFault::Syntax { .. }) => unreachable!(),
    }
}

/// The causes of the violation of a key in the schema of a text. The text is cut and parsed anew for it.
pub(crate) fn causes_of_key<G: GraphRead, L: Ledger>(
    alloc: Global,
    graph: &G,
    compiled: &Compiled,
    text: &[u8],
    violation: &Violation,
    steps: &mut Steps<L>,
) -> Result<List<Bytes>, Memory>
    requires { schema_of text.now ≡ schema compiled.now }
    ensures causes { IfOk result (AreCausesOfKey text.now compiled.now (G.meaning graph.now) violation.now) }
    ensures no_step_back { steps.old ≤ steps.new }
{
    let tokens = lexed(alloc, text)?;
    let script = parsed(alloc, &tokens)?;
    let declarations = Declarations::new(alloc, &script)?;
    let guide = KeyGuide::new(alloc, &tokens, &declarations)?;
    key_causes(alloc, graph, compiled, &guide, violation, steps)
}
