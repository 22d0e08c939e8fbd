ghost use Rattle.std.specs.Prelude.{◌≡◌, ◌+◌, ◌-◌, ◌<◌, ◌≤◌, ◌^◌, ◌∷◌, ℕ, length, drop, slice_get, IfSome, IfOk, IsErrOf, Ok, Err};
ghost use Rattle.std.specs.List.{slice_range};
ghost use Rattle.pgs_parser.specs.Parsed.{Parses};
ghost use Rattle.pgs_syntax.specs.declared.script.Script.{Script as ScriptTree};
ghost use Rattle.pgs_parser.specs.declared.fault.ParseFault.TheVariants as faults;
ghost use Rattle.pgs_parser.specs.Statements.{pieces_of, is_semicolon, IsScript, IsNoScriptFrom};
ghost use Rattle.pgs_parser.specs.StatementReaders.{script_of, statement_of, statements_of};
ghost use Rattle.pgs_parser.specs.Gives.{Gives};

use crate::ParseFault;
use crate::parser::Parser;
use crate::statement_productions::declared_in;
use crate::unread::Unread;
use pgs_base::List;
use pgs_lexer::Tokens;
use pgs_syntax::{Script, Statement};
use std::alloc::Global;

/// Whether the token at a place is a semicolon.
fn is_semicolon_at(tokens: &Tokens<'_>, place: usize) -> bool
    requires { place < length tokens.now }
    ensures { IfSome (slice_get tokens.now place) (λ token. result ≡ is_semicolon token) }
{
    match tokens.at(place) {
        Some(token) => token.slice == b";".as_slice(),
        None => false,
    }
}

/// The place after the first semicolon from a place on, or after the last token.
fn end_of_piece(tokens: &Tokens<'_>, start: usize) -> usize
    requires { start < length tokens.now }
    ensures after { start < result }
    ensures within { result ≤ length tokens.now }
    ensures piece { pieces_of (drop start tokens.now) ≡ slice_range tokens.now start result ∷ pieces_of (drop result tokens.now) }
{
    let mut place = start;
    while place < tokens.len() {
        if is_semicolon_at(tokens, place) {
            return place + 1;
        }
        place += 1;
    }
    place
}

/// The statement that the tokens from a place to another are, with its declarations numbered from a number on.
fn statement_between(
    alloc: Global,
    tokens: &Tokens<'_>,
    start: usize,
    end: usize,
    place: u32,
) -> Result<Statement, Unread>
    requires order { start ≤ end }
    requires within { end ≤ length tokens.now }
    requires numbers { place + (end - start) < 2 ^ 32 }
    ensures { Gives (λ statement. statement) result (statement_of place (slice_range tokens.now start end)) }
{
    let mut parser = Parser::new(alloc, tokens, start, end);
    parser.only_statement(place)
}

/// The statements that all tokens are.
fn statements(alloc: Global, tokens: &Tokens<'_>) -> Result<List<Statement>, ParseFault>
    ensures { Parses (λ statements. statements) result (statements_of 1 1 (pieces_of tokens.now)) }
{
    let mut statements = Vec::new(alloc);
    let mut place = 1;
    let mut start = 0;
    while start < tokens.len() {
        let end = end_of_piece(tokens, start);
        match statement_between(alloc, tokens, start, end, place) {
            Ok(statement) => {
                place += declared_in(&statement);
                statements.push(statement)?;
            }
            Err(Unread::Memory) => return Err(ParseFault::Memory),
            Err(Unread::OtherForm) => {
                let statement = statements.len() as u64 + 1;
                return Err(ParseFault::Syntax { statement });
            }
        }
        start = end;
    }
    Ok(List::from_vec(statements))
}

/// The script that tokens are, by the function `script_of`.
#[tactic(auto, unfolding(crate::specs::StatementReaders::script_of))]
fn script(alloc: Global, tokens: &Tokens<'_>) -> Result<Script, ParseFault>
    ensures { Parses (λ script. script) result (script_of tokens.now) }
{
    let statements = statements(alloc, tokens)?;
    Ok(Script { statements })
}

/// The script that tokens are, by the grammar in `specs/Statements.antt`. Declarations are numbered from 1 in the order
/// of their first tokens. Names and texts are copied out of the tokens once.
///
/// - `Syntax { statement }` exactly where the tokens up to the semicolon of this number, from 1, or those after the last
///   semicolon, are no statement, and all earlier ones are.
/// - `Memory` where there is none for the tree.
pub fn parse(alloc: Global, tokens: &Tokens<'_>) -> Result<Script, ParseFault>
    // What is returned is what the tokens are by the grammar.
    ensures script { IfOk result (λ script. IsScript script tokens.now) }
    ensures statement { (n : ℕ) → IsErrOf result (faults.Syntax n) → IsNoScriptFrom n tokens.now }

    // And what they are is returned, unless memory runs out.
    ensures only_script { (script : ScriptTree) → IsScript script tokens.now → Parses (λ script. script) result (Ok script) }
    ensures only_statement { (n : ℕ) → IsNoScriptFrom n tokens.now → Parses (λ script. script) result (Err n) }

    // What is given, as a function of the tokens.
    ensures computed { Parses (λ script. script) result (script_of tokens.now) }
{
    script(alloc, tokens)
}
