//! The guard inside a program of one's own: a schema, three transactions, and what is said of the one that is refused.
#![tactic(auto)]

ghost use Rattle.std.specs.Prelude.{◌≡◌, ◌<◌};

use pgs_base::{Limits, Steps};
use pgs_graph::Txn;
use pgs_json::read_txn;
use pgs_store::{Guard, GuardRefusal};
use pgs_violation::{Rejection, Violation};
use std::marker::Brand;
use std::sync::ledger::{Blank, Ledger};

const SCHEMA: &[u8] =
    b"CREATE GRAPH TYPE g STRICT {(person: Person {mail STRING}), FOR (x:person) EXCLUSIVE x.mail};";

const LINES: [&[u8]; 3] = [
    br#"{"ops":[{"add_node":1,"labels":["Person"],"props":{"mail":"ann@x.org"}}]}"#,
    br#"{"ops":[{"add_node":2,"labels":["Person"],"props":{"mail":"ann@x.org"}}]}"#,
    br#"{"ops":[{"add_node":2,"labels":["Person"],"props":{"mail":"bob@x.org"}}]}"#,
];

// Applies a transaction, and counts look-ups on the ledger of the blank.
fn apply<L: Ledger>(guard: &mut Guard, txn: &Txn, blank: Blank) -> Result<u64, GuardRefusal>
    requires blank { (blank.name ≡ L.name) × (blank.parts ≡ L.parts) × (0 < blank.parts) }
    requires number { guard.old.commits < 18446744073709551615 }
{
    let mut steps: Steps<L> = Steps::begin(blank);
    guard.apply(txn, &mut steps)
}

// What is told of a refusal: a caller goes by the variants that it cares for.
fn reason(refusal: &GuardRefusal) -> &'static str {
    match refusal {
        GuardRefusal::Rejected(Rejection::Violation(Violation::Exclusive { .. })) =>
            "mail is taken",
        GuardRefusal::Rejected(_) => "not so",
        GuardRefusal::Memory => "no memory",
    }
}

fn main(rt: HostRuntime) -> std::io::Result<()> {
    let Ok(mut guard) = Guard::new(rt.alloc(), SCHEMA, Limits::standard()) else {
        return Ok(());
    };
    for line in LINES {
        match read_txn(rt.alloc(), line) {
            Ok(txn) if guard.commits() < u64::MAX => match apply::<Brand>(
                &mut guard,
                &txn,
                Blank::new(1),
            ) {
                Ok(number) => println!(rt; "committed {number}")?,
                Err(refusal) => println!(rt; "refused: {}", reason(&refusal))?,
            },
            _ => println!(rt; "no transaction")?,
        }
    }
    Ok(())
}
