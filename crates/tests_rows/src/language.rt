//! What `lex`, `parse` and `resolve` make of a text, told as one text.

mod schema;
mod tokens;
mod tree;

use pgs_base::{Memory, Name, TEXT_LIMIT};
use pgs_lexer::{LexFault, Tokens, lex};
use pgs_parser::{ParseFault, parse};
use schema::put_resolved;
use std::alloc::{AllocError, Global};
use tokens::put_tokens;
use tree::put_script;

/// What is told of a text.
#[derive(Clone, Copy)]
pub enum View {
    Tokens,
    Tree,
    Schema,
}

type Put = Result<(), AllocError>;

fn put(out: &mut String, words: &[&str]) -> Put {
    for word in words {
        out.push_str(word)?;
    }
    Ok(())
}

fn put_number(out: &mut String, before: &str, number: i64) -> Put {
    write!(out, "{before}{number}").map_err(|_| AllocError)
}

fn put_count(out: &mut String, before: &str, count: u64) -> Put {
    write!(out, "{before}{count}").map_err(|_| AllocError)
}

fn word_of(name: &Name) -> &str {
    str::from_utf8(name.bytes()).unwrap_or("?")
}

fn word_if<'a>(holds: bool, word: &'a str) -> &'a str {
    if holds { word } else { "" }
}

// The trees, or a minus sign and the number of the first statement that is none; of the trees the schema, where it is asked for.
fn put_parsed(
    alloc: Global,
    out: &mut String,
    view: View,
    tokens: &Tokens<'_>,
) -> Result<(), Memory> {
    let script = match parse(alloc, tokens) {
        Ok(script) => script,
        Err(ParseFault::Memory) => return Err(Memory),
        Err(ParseFault::Syntax { statement }) => {
            return Ok(put_count(out, "-", statement as u64)?);
        }
    };
    match view {
        View::Schema => put_resolved(alloc, out, &script)?,
        _ => put_script(out, &script)?,
    }
    Ok(())
}

/// What is made of a text: its tokens, its trees or its schema, or the first fault on the way there.
pub fn told(alloc: Global, view: View, text: &[u8]) -> Result<Vec<u8>, Memory> {
    let mut out = String::new(alloc);
    if text.len() > TEXT_LIMIT {
        put(&mut out, &["too long"])?;
        return Ok(out.into_bytes());
    }
    match lex(alloc, text) {
        Err(LexFault::Memory) => return Err(Memory),
        Err(LexFault::Lex { line }) => put_count(&mut out, "line ", line as u64)?,
        Ok(tokens) => match view {
            View::Tokens => put_tokens(&mut out, text, &tokens)?,
            _ => put_parsed(alloc, &mut out, view, &tokens)?,
        },
    }
    Ok(out.into_bytes())
}
