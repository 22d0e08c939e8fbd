//! The schema of a script, `ok a=&A b=&0&B -e loose n0 e0 keys 1`, or the number and the words of its refusal.

use super::{Put, put, put_count, put_number, word_of};
use pgs_resolve::{KeyCause, ResolveFault, resolve};
use pgs_syntax::{Guarding, Leaf, NodeType, Resolved, Script, Spec, TypeNo};
use std::alloc::{AllocError, Global};

/// `&A` for a label, `&1` for the type of a number, and nothing for the rest.
fn put_part(out: &mut String, part: &Spec<Leaf>) -> Put {
    match part {
        Spec::Word(Leaf::Label(label)) => put(out, &["&", word_of(label)]),
        Spec::Word(Leaf::Named(number)) => put_number(out, "&", i64::from(*number)),
        _ => Ok(()),
    }
}

/// ` a=&A&1`, of the parts of its specification that are words.
fn put_node(out: &mut String, node: &NodeType<Leaf>) -> Put {
    put(out, &[" ", word_of(&node.name), "="])?;
    if let Spec::And(parts) = &node.spec {
        for part in parts.as_slice() {
            put_part(out, part)?;
        }
    }
    put_part(out, &node.spec)
}

/// ` loose n0 e0 keys 1`
fn put_guard(out: &mut String, guard: &Guarding) -> Put {
    put(out, &[if guard.strict { " strict" } else { " loose" }])?;
    for number in guard.types.as_slice() {
        match number {
            TypeNo::Node(number) => put_number(out, " n", i64::from(*number))?,
            TypeNo::Edge(number) => put_number(out, " e", i64::from(*number))?,
        }
    }
    put_count(out, " keys ", guard.keys.len() as u64)
}

fn put_schema(out: &mut String, schema: &Resolved) -> Put {
    put(out, &["ok"])?;
    for node in schema.nodes.as_slice() {
        put_node(out, node)?;
    }
    for edge in schema.edges.as_slice() {
        put(out, &[" -", word_of(&edge.name)])?;
    }
    put_guard(out, &schema.guard)
}

fn cause_word(cause: KeyCause) -> &'static str {
    match cause {
        KeyCause::NoX => " no x",
        KeyCause::TwoKinds => " two kinds",
        KeyCause::Shared => " shared",
        KeyCause::Disconnected => " disconnected",
        KeyCause::UnknownVariable => " unknown variable",
        KeyCause::TooLarge => " too large",
    }
}

fn put_fault(out: &mut String, fault: &ResolveFault) -> Put {
    match fault {
        ResolveFault::Memory => Err(AllocError),
        ResolveFault::NoGraphType => put(out, &["12"]),
        ResolveFault::Duplicate { name } => put(out, &["13 ", word_of(name)]),
        ResolveFault::Unknown { name } => put(out, &["14 ", word_of(name)]),
        ResolveFault::Kind { name } => put(out, &["15 ", word_of(name)]),
        ResolveFault::Cycle { name } => put(out, &["16 ", word_of(name)]),
        ResolveFault::BadKey { key, cause } => {
            put_count(out, "18 key ", *key as u64)?;
            put(out, &[cause_word(*cause)])
        }
    }
}

/// The schema of a script, or its refusal.
pub fn put_resolved(alloc: Global, out: &mut String, script: &Script) -> Put {
    match resolve(alloc, script) {
        Ok(schema) => put_schema(out, &schema),
        Err(fault) => put_fault(out, &fault),
    }
}
