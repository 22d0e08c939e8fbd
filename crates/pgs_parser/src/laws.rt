//! Laws of the grammar. The functions do nothing; their contracts are the statements.

ghost use Rattle.std.specs.Prelude.{◌≡◌, ◌↔◌, ℕ, List, Ok, Err};
ghost use Rattle.pgs_lexer.specs.Token.{Lexeme};
ghost use Rattle.pgs_syntax.specs.declared.script.Script.{Script};
ghost use Rattle.pgs_parser.specs.Statements.{IsScript, IsNoScriptFrom};
ghost use Rattle.pgs_parser.specs.Text.{Found, IsFound, found};
ghost use Rattle.pgs_parser.specs.StatementReaders.{script_of};

/// A text is found to be one thing: too long, a line, a number, or one script.
pub fn one_finding()
    ensures { (text : List ℕ) (one other : Found) → IsFound text one → IsFound text other → one ≡ other }
{}

/// The function `script_of` answers what the grammar says: the script that tokens are, or the number of their first
/// statement that is none.
pub fn computed_scripts()
    ensures scripts { (tokens : List Lexeme) (script : Script) → (script_of tokens ≡ Ok script) ↔ IsScript script tokens }
    ensures none { (tokens : List Lexeme) (n : ℕ) → (script_of tokens ≡ Err n) ↔ IsNoScriptFrom n tokens }
{}

/// The function `found` answers what a text is found to be.
pub fn computed_findings()
    ensures { (text : List ℕ) (finding : Found) → (found text ≡ finding) ↔ IsFound text finding }
{}

/// Tokens are at most one script.
pub fn one_script()
    ensures { (tokens : List Lexeme) (one other : Script) → IsScript one tokens → IsScript other tokens → one ≡ other }
{}
