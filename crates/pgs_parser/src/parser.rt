ghost use Rattle.std.specs.Prelude.{◌≡◌, ◌↔◌, ℕ, ◌<◌, ◌≤◌, List, [], IsTrue, length, drop, slice_get, option_map, IfSome, Some};
ghost use Rattle.std.specs.List.{slice_range};
ghost use Rattle.pgs_base.specs.declared.value.Value.{Value as Held};
ghost use Rattle.pgs_lexer.specs.Token.{IsWellFormed, Lexeme};
ghost use Rattle.pgs_lexer.specs.Tokens.{lexeme_of};
ghost use Rattle.pgs_parser.specs.Reader.{a_name, a_keyword, the_keyword, the_sign, next, second, after, name_at, keyword_if_at, comma_unless};
ghost use Rattle.pgs_parser.specs.KeyReaders.{value_at, day_at};
ghost use Rattle.pgs_parser.specs.Gives.{Gives};
ghost use Rattle.pgs_parser.specs.Progress.{Passes, Moves, Reads};

use crate::literal::{day_of, name_of, value_of};
use crate::unread::Unread;
use pgs_base::{Name, Value};
use pgs_lexer::{Token, TokenKind, Tokens};
use std::alloc::Global;
use std::marker::Model;

/// Reads trees from tokens. Contracts see the tokens that are left to read.
#[derive(Drop)]
pub struct Parser<'a> {
    pub(crate) alloc: Global,
    tokens: &'a Tokens<'a>,
    at: usize,
    end: usize,
}

impl<'a> Model for Parser<'a> {
    ghost use Rattle.std.specs.Prelude.{List, ◌≤◌, length};
    ghost use Rattle.std.specs.List.{slice_range};
    ghost use Rattle.pgs_lexer.specs.Token.{Lexeme};

    ghost Value = { List Lexeme };

    ghost view = { λ parser. slice_range parser.tokens.now parser.at parser.end };

    ghost invariant = { λ parser. (parser.at ≤ parser.end) × (parser.end ≤ length parser.tokens.now) };
}

impl<'a> Parser<'a> {
    /// Reads the tokens from a place to another.
    pub fn new(alloc: Global, tokens: &'a Tokens<'a>, at: usize, end: usize) -> Parser<'a>
        requires order { at ≤ end }
        requires within { end ≤ length tokens.now }
        ensures { result ≡ slice_range tokens.now at end }
    {
        Parser {
            alloc,
            tokens,
            at,
            end,
        }
    }
}

impl Parser<'_> {
    /// The next token.
    fn next(&self) -> Option<Token<'_>>
        ensures token { option_map lexeme_of result ≡ slice_get self.now 0 }
        ensures form { IfSome result (λ token. IsWellFormed (lexeme_of token)) }
    {
        if self.at < self.end {
            self.tokens.at(self.at)
        } else {
            None
        }
    }

    /// The token after the next one.
    fn second(&self) -> Option<Token<'_>>
        ensures { option_map lexeme_of result ≡ slice_get self.now 1 }
    {
        if self.end - self.at < 2 {
            return None;
        }
        self.tokens.at(self.at + 1)
    }

    /// Goes past the next token.
    fn advance(&mut self)
        requires { 0 < length self.old }
        ensures { self.new ≡ drop 1 self.old }
    {
        self.at += 1;
    }

    pub fn is_at_end(&self) -> bool
        ensures { IsTrue result ↔ (self.now ≡ []) }
    {
        self.at == self.end
    }

    pub fn is_at_sign(&self, text: &[u8]) -> bool
        ensures { result ≡ next (the_sign text.now) self.now }
    {
        match self.next() {
            Some(token) => token.kind == TokenKind::Sign && token.slice == text,
            None => false,
        }
    }

    pub fn is_at_keyword(&self, text: &[u8]) -> bool
        ensures { result ≡ next (the_keyword text.now) self.now }
    {
        match self.next() {
            Some(token) => token.kind == TokenKind::Keyword && token.slice == text,
            None => false,
        }
    }

    pub fn is_at_name(&self) -> bool
        ensures { result ≡ next a_name self.now }
    {
        match self.next() {
            Some(token) => token.kind == TokenKind::Name,
            None => false,
        }
    }

    pub fn is_at_any_keyword(&self) -> bool
        ensures { result ≡ next a_keyword self.now }
    {
        match self.next() {
            Some(token) => token.kind == TokenKind::Keyword,
            None => false,
        }
    }

    pub fn is_second_keyword(&self, text: &[u8]) -> bool
        ensures { result ≡ second (the_keyword text.now) self.now }
    {
        match self.second() {
            Some(token) => token.kind == TokenKind::Keyword && token.slice == text,
            None => false,
        }
    }

    pub fn is_second_name(&self) -> bool
        ensures { result ≡ second a_name self.now }
    {
        match self.second() {
            Some(token) => token.kind == TokenKind::Name,
            None => false,
        }
    }

    /// Whether the sign is next, and then goes past it.
    pub fn passes_sign(&mut self, text: &[u8]) -> bool
        ensures { Moves result self.old self.new (after (the_sign text.now) self.old) }
    {
        let there = self.is_at_sign(text);
        if there {
            self.advance();
        }
        there
    }

    pub fn sign(&mut self, text: &[u8]) -> Result<(), Unread>
        ensures { Passes result self.new (after (the_sign text.now) self.old) }
    {
        if self.passes_sign(text) {
            Ok(())
        } else {
            Err(Unread::OtherForm)
        }
    }

    /// Whether the keyword is next, and then goes past it.
    pub fn passes_keyword(&mut self, text: &[u8]) -> bool
        ensures { Moves result self.old self.new (after (the_keyword text.now) self.old) }
    {
        let there = self.is_at_keyword(text);
        if there {
            self.advance();
        }
        there
    }

    pub fn keyword(&mut self, text: &[u8]) -> Result<(), Unread>
        ensures { Passes result self.new (after (the_keyword text.now) self.old) }
    {
        if self.passes_keyword(text) {
            Ok(())
        } else {
            Err(Unread::OtherForm)
        }
    }

    /// Whether the keyword stands here, where it may be left out.
    #[tactic(auto, unfolding(crate::specs::Reader::keyword_if_at))]
    pub fn keyword_if(&mut self, text: &[u8]) -> bool
        ensures { keyword_if_at text.now self.old ≡ Some (result, self.new) }
    {
        self.passes_keyword(text)
    }

    fn next_name(&self) -> Result<Name, Unread>
        ensures { Gives (λ name. name) result (option_map (λ (found : List ℕ × List Lexeme). found.0) (name_at self.now)) }
    {
        match self.next() {
            Some(token) if token.kind == TokenKind::Name => name_of(self.alloc, token.slice),
            _ => Err(Unread::OtherForm),
        }
    }

    pub fn name(&mut self) -> Result<Name, Unread>
        ensures { Reads result self.new (name_at self.old) }
    {
        let name = self.next_name()?;
        self.advance();
        Ok(name)
    }

    fn next_value(&self) -> Result<Value, Unread>
        ensures { Gives (λ value. value) result (option_map (λ (found : Held × List Lexeme). found.0) (value_at self.now)) }
    {
        match self.next() {
            Some(token) => value_of(self.alloc, token.kind, token.slice),
            None => Err(Unread::OtherForm),
        }
    }

    pub fn value(&mut self) -> Result<Value, Unread>
        ensures { Reads result self.new (value_at self.old) }
    {
        let value = self.next_value()?;
        self.advance();
        Ok(value)
    }

    fn next_day(&self) -> Result<Value, Unread>
        ensures { Gives (λ value. value) result (option_map (λ (found : Held × List Lexeme). found.0) (day_at self.now)) }
    {
        match self.next() {
            Some(token) => {
                let day = day_of(self.alloc, token.kind, token.slice)?;
                Ok(Value::Date(day))
            }
            None => Err(Unread::OtherForm),
        }
    }

    pub fn day(&mut self) -> Result<Value, Unread>
        ensures { Reads result self.new (day_at self.old) }
    {
        let day = self.next_day()?;
        self.advance();
        Ok(day)
    }

    /// Whether a comma stands here and other than this keyword after it, and then goes past the comma.
    pub fn passes_comma_unless(&mut self, text: &[u8]) -> bool
        ensures { Moves result self.old self.new (comma_unless text.now self.old) }
    {
        let goes_on = self.is_at_sign(b",") && !self.is_second_keyword(text);
        if goes_on {
            self.advance();
        }
        goes_on
    }
}
