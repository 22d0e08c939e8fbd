//! How many look-ups one more transaction takes on a great graph: no more than on a small one.

ghost use Rattle.std.specs.Prelude.{◌≡◌, ◌<◌};

use crate::store::scenario::PROGRAM;
use pgs_base::{EdgeId, Labels, List, Memory, Name, NodeId, Props, Steps, Text, Value};
use pgs_graph::{Op, Txn};
use pgs_store::{Guard, GuardFault, GuardRefusal};
use std::alloc::Global;
use std::marker::Brand;
use std::sync::ledger::{Blank, Ledger};
use std::test::Fail;

const PERSONS: &str =
    "CREATE GRAPH TYPE g STRICT {(p: Person {mail STRING}), FOR (x:p) EXCLUSIVE x.mail};";

const CHAIN: &str =
    "CREATE GRAPH TYPE g LOOSE {FOR (x:A) MANDATORY z.v WITHIN (x)-[:r]->()-[:r]->(z)};";

fn name(alloc: Global, text: &str) -> Result<Name, Fail> {
    match Name::new(alloc, text.as_bytes())? {
        Some(name) => Ok(name),
        None => Err(Fail::new("no name")),
    }
}

fn label(alloc: Global, text: &str) -> Result<Labels, Fail> {
    let mut labels = Labels::new(alloc);
    labels.insert(name(alloc, text)?)?;
    Ok(labels)
}

fn prop(alloc: Global, key: &str, value: Value) -> Result<Props, Fail> {
    let mut props = Props::new(alloc);
    props.set(name(alloc, key)?, value)?;
    Ok(props)
}

/// A mail that no other number has.
fn mail(alloc: Global, number: u64) -> Result<Value, Fail> {
    let text = format!(in alloc; "u{number}@x.org")?;
    match Text::new(alloc, text.as_str())? {
        Some(text) => Ok(Value::Text(text)),
        None => Err(Fail::new("no text")),
    }
}

fn person(alloc: Global, number: u64) -> Result<Op, Fail> {
    Ok(Op::AddNode {
        id: NodeId(number),
        labels: label(alloc, "Person")?,
        props: prop(alloc, "mail", mail(alloc, number)?)?,
    })
}

/// A node of the chain. That of number 500 has a label, by which it is in the scope of the key.
fn link(alloc: Global, number: u64) -> Result<Op, Fail> {
    let labels = match number {
        500 => label(alloc, "A")?,
        _ => Labels::new(alloc),
    };
    Ok(Op::AddNode {
        id: NodeId(number),
        labels,
        props: prop(alloc, "v", Value::Int(1))?,
    })
}

/// The edge from the node of a number to the next one.
fn forward(alloc: Global, number: u64) -> Result<Op, Fail> {
    Ok(Op::AddEdge {
        id: EdgeId(number),
        source: NodeId(number),
        target: NodeId(number.saturating_add(1)),
        labels: label(alloc, "r")?,
        props: Props::new(alloc),
    })
}

/// A graph that grows by like transactions.
#[derive(Clone, Copy)]
enum Growth {
    /// Persons, 5,000 in each.
    Persons,
    /// A chain of nodes, 1,000 in each.
    Chain,
}

impl Growth {
    fn schema(self) -> &'static str {
        match self {
            Growth::Persons => PERSONS,
            Growth::Chain => CHAIN,
        }
    }

    fn count(self) -> u64 {
        match self {
            Growth::Persons => 5_000,
            Growth::Chain => 1_000,
        }
    }
}

/// Adds the operations of a number, from 1 on: a person, or a node and the edge to it from the one before.
fn add_number(ops: &mut Vec<Op>, alloc: Global, growth: Growth, number: u64) -> Result<(), Fail> {
    match growth {
        Growth::Persons => ops.push(person(alloc, number)?)?,
        Growth::Chain => {
            ops.push(link(alloc, number)?)?;
            if number > 1 {
                ops.push(forward(alloc, number.saturating_sub(1))?)?;
            }
        }
    }
    Ok(())
}

/// The transaction that adds so many numbers behind a number.
fn growing(alloc: Global, growth: Growth, behind: u64, count: u64) -> Result<Txn, Fail> {
    let mut ops = Vec::new(alloc);
    for place in 1..=count {
        add_number(&mut ops, alloc, growth, behind.saturating_add(place))?;
    }
    Ok(Txn {
        ops: List::from_vec(ops),
    })
}

/// The transaction that gives node 502 another value.
fn other_value(alloc: Global) -> Result<Txn, Fail> {
    let mut ops = Vec::new(alloc);
    ops.push(Op::SetNode {
        id: NodeId(502),
        key: name(alloc, "v")?,
        value: Value::Int(2),
    })?;
    Ok(Txn {
        ops: List::from_vec(ops),
    })
}

fn guard(alloc: Global, schema: &str) -> Result<Guard, Fail> {
    match Guard::new(alloc, schema.as_bytes(), PROGRAM) {
        Ok(guard) => Ok(guard),
        Err(GuardFault::Memory) => Err(Fail::from(Memory)),
        Err(GuardFault::Schema(_)) => Err(Fail::new("no schema")),
    }
}

/// How many look-ups a transaction takes, which has to be accepted.
fn taken<L: Ledger>(guard: &mut Guard, txn: &Txn, steps: &mut Steps<L>) -> Result<u64, Fail> {
    if guard.commits() == u64::MAX {
        return Err(Fail::new("too many commits"));
    }
    let before = steps.shown();
    match guard.apply(txn, steps) {
        Ok(_) => Ok(steps.shown().saturating_sub(before)),
        Err(GuardRefusal::Memory) => Err(Fail::from(Memory)),
        Err(GuardRefusal::Rejected(_)) => Err(Fail::new("refused")),
    }
}

/// How many look-ups one person more, or another value of one node, takes after so many transactions.
fn counted_by<L: Ledger>(
    alloc: Global,
    guard: &mut Guard,
    growth: Growth,
    times: u64,
    blank: Blank,
) -> Result<u64, Fail>
    requires name { blank.name ≡ L.name }
    requires parts { blank.parts ≡ L.parts }
    requires some { 0 < blank.parts }
{
    let mut steps: Steps<L> = Steps::begin(blank);
    let count = growth.count();
    for place in 0..times {
        let txn = growing(alloc, growth, place.saturating_mul(count), count)?;
        taken(guard, &txn, &mut steps)?;
    }
    let txn = match growth {
        Growth::Persons => growing(alloc, growth, times.saturating_mul(count), 1)?,
        Growth::Chain => other_value(alloc)?,
    };
    taken(guard, &txn, &mut steps)
}

fn counted(alloc: Global, growth: Growth, times: u64) -> Result<u64, Fail> {
    let mut guard = guard(alloc, growth.schema())?;
    counted_by::<Brand>(alloc, &mut guard, growth, times, Blank::new(1))
}

#[test]
fn one_person_more(rt: HostRuntime) -> Result<(), Fail> {
    assert!(rt; counted(rt.alloc(), Growth::Persons, 40)? <= 147_456);
    Ok(())
}

#[test]
fn another_value_on_a_chain(rt: HostRuntime) -> Result<(), Fail> {
    let great = counted(rt.alloc(), Growth::Chain, 100)?;
    assert!(rt; great <= counted(rt.alloc(), Growth::Chain, 1)?);
    Ok(())
}
