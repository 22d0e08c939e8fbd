//! Worked transactions: what they answer, and what is read then.

ghost use Rattle.std.specs.Prelude.{◌≡◌, ◌<◌};

use super::drawn::STANDARD;
use super::filled::{fill, txn_of};
use super::forms::{Answer, Forms};
use super::listing::Range;
use crate::told::Told;
use pgs_base::{Memory, Steps};
use std::alloc::Global;
use std::marker::Brand;
use std::sync::ledger::{Blank, Ledger};
use std::test::Fail;

/// Which numbers are read, and the limits.
type Bounds = (Range, (u32, u64));

const SMALL: Bounds = ((9, 9), STANDARD);

const ONE: Bounds = ((9, 9), (1, 1));

const HUB: Bounds = ((2_000, 4_000), STANDARD);

/// The bounds; transactions, one a line, of which each is applied once or as often as is said behind them; and what is told: for each line
/// how often it was done and, where it was refused the last time, why; then all nodes and edges, how many they are, and what is read.
/// In the i-th transaction of a line, from 0, `#` stands for i, `&` for i + 1, `@` for i + 2001, `%` for 3 i, and `$` for 65 labels.
type Row = (Bounds, &'static str, &'static [u64], &'static str);

const ROWS: &[Row] = &[
    // Three edges, of which one is a loop, and what a node carries.
    (
        SMALL,
        r#"{"add_node":1,"labels":["p0"]},{"add_node":2},{"add_node":3},{"add_edge":4,"from":1,"to":2},{"add_edge":5,"from":2,"to":2},{"add_edge":6,"from":1,"to":3}"#,
        &[],
        "1; 1 2 3 | 4 5 6 | 6 | n1 :p0 >4 >6 n2 >5 <4 <5 n3 <6 e4 1 2 e5 2 2 e6 1 3",
    ),
    // Then node 1 replaced, 3 taken out and 5 put in; edge 4 turned, and 6 taken out.
    (
        SMALL,
        r#"{"add_node":1,"labels":["p0"]},{"add_node":2},{"add_node":3},{"add_edge":4,"from":1,"to":2},{"add_edge":5,"from":2,"to":2},{"add_edge":6,"from":1,"to":3}
{"detach_node":3},{"detach_node":1},{"add_node":1},{"add_node":5},{"add_edge":4,"from":5,"to":2}"#,
        &[],
        "1;1; 1 2 5 | 4 5 | 5 | n1 n2 >5 <4 <5 n5 >4 e4 5 2 e5 2 2",
    ),
    // A loop.
    (
        SMALL,
        r#"{"add_node":1},{"add_edge":7,"from":1,"to":1}"#,
        &[],
        "1; 1 | 7 | 2 | n1 >7 <7 e7 1 1",
    ),
    // Parallel edges, of which the first comes last.
    (
        SMALL,
        r#"{"add_node":1},{"add_node":2},{"add_edge":5,"from":1,"to":2}
{"add_edge":3,"from":1,"to":2}"#,
        &[],
        "1;1; 1 2 | 3 5 | 4 | n1 >3 >5 n2 <3 <5 e3 1 2 e5 1 2",
    ),
    // A node detached and added again at once.
    (
        SMALL,
        r#"{"add_node":1},{"add_node":2},{"add_edge":3,"from":1,"to":2},{"add_edge":4,"from":2,"to":1},{"add_edge":5,"from":2,"to":2}
{"detach_node":1},{"add_node":1}"#,
        &[],
        "1;1; 1 2 | 5 | 3 | n1 n2 >5 <5 e5 2 2",
    ),
    // A node detached, and later added again with an edge of an old number.
    (
        SMALL,
        r#"{"add_node":1},{"add_node":2},{"add_edge":3,"from":1,"to":2}
{"detach_node":1}
{"add_node":1},{"add_edge":3,"from":2,"to":1}"#,
        &[],
        "1;1;1; 1 2 | 3 | 3 | n1 <3 n2 >3 e3 2 1",
    ),
    // An edge that is turned.
    (
        SMALL,
        r#"{"add_node":1},{"add_node":2},{"add_edge":3,"from":1,"to":2}
{"remove_edge":3},{"add_edge":3,"from":2,"to":1}"#,
        &[],
        "1;1; 1 2 | 3 | 3 | n1 <3 n2 >3 e3 2 1",
    ),
    // A node is not removed while it has an edge, and is detached with it.
    (
        SMALL,
        r#"{"add_node":1},{"add_edge":1,"from":1,"to":1}
{"remove_node":1}
{"detach_node":1}"#,
        &[],
        "1;0 BadOp { op: 1, cause: HasEdges(NodeId(1), EdgeId(1)) };1; | | 0 |",
    ),
    // Ends that aren't there, a node that comes, goes and comes, a property that isn't there, and an edge that isn't.
    (
        SMALL,
        r#"{"add_edge":1,"from":1,"to":2}
{"add_node":1},{"remove_node":1},{"add_node":1}
{"set_node":1,"key":"p0","value":7},{"unset_node":1,"key":"p1"}
{"remove_edge":7}"#,
        &[],
        "0 BadOp { op: 1, cause: NoNode(NodeId(1)) };1;1;0 BadOp { op: 1, cause: NoEdge(EdgeId(7)) }; 1 | | 1 | n1 p0=7",
    ),
    // Two operations, 65 labels, a second element, and 65 labels on a node that is there.
    (
        ONE,
        r#"{"add_node":0},{"add_node":2}
{"add_node":0,"labels":[$]}
{"add_node":0}
{"add_node":2}
{"add_node":0,"labels":[$]}"#,
        &[],
        "0 TooManyOps { count: 2 };0 ElementTooLarge { op: 1 };1;0 TooManyElements { count: 2 };0 BadOp { op: 1, cause: AlreadyThere(Node(NodeId(0))) }; 0 | | 1 | n0",
    ),
    // A node of many edges: when it has them, after every third is taken out, when it is gone, and when all are.
    (
        HUB,
        r#"{"add_node":#}
{"add_edge":&,"from":0,"to":&}
{"add_edge":@,"from":&,"to":0}
{"remove_edge":%}
{"detach_node":0}
{"remove_node":&}"#,
        &[2_000, 1_999, 1_999, 2_000, 1, 1_999],
        "2000;1999;1999;1333 BadOp { op: 1, cause: NoEdge(EdgeId(5997)) };1;1999; | | 0 |",
    ),
];

/// Applies a line so often, looks at the last time, and tells what came of it.
fn tell_line<L: Ledger>(
    alloc: Global,
    forms: &mut Forms,
    line: &str,
    times: u64,
    told: &mut Told,
    steps: &mut Steps<L>,
) -> Result<(), Memory> {
    let mut done = 0u64;
    let mut answer = Answer::Done;
    for i in 0..times {
        let next = i.saturating_add(1);
        let mut ops = Told::new(alloc);
        fill(
            line,
            [i, next, next.saturating_add(2_000), i.saturating_mul(3)],
            &mut ops,
        );
        let txn = txn_of(alloc, ops.text()?)?;
        answer = forms.apply(alloc, &txn, next == times, steps)?;
        done = done.saturating_add(u64::from(answer == Answer::Done));
        if answer == Answer::Apart {
            break;
        }
    }
    told.number("", done);
    tell_answer(alloc, answer, told)
}

fn tell_answer(alloc: Global, answer: Answer, told: &mut Told) -> Result<(), Memory> {
    match answer {
        Answer::Done => told.word(";"),
        Answer::Apart => told.word(" apart;"),
        Answer::Refused(structural) => {
            told.word(format!(in alloc; " {structural:?};")?.as_str());
        }
    }
    Ok(())
}

fn tell_row<L: Ledger>(
    alloc: Global,
    row: &Row,
    told: &mut Told,
    steps: &mut Steps<L>,
) -> Result<(), Memory> {
    let (bounds, lines, times, _) = *row;
    let mut forms = Forms::new(alloc, bounds.0, bounds.1)?;
    for (place, line) in lines.lines().enumerate() {
        let times = times.get(place).copied().unwrap_or(1);
        tell_line(alloc, &mut forms, line, times, told, steps)?;
    }
    forms.plain.tell(alloc, told)
}

fn told_by<L: Ledger>(alloc: Global, row: &Row, blank: Blank) -> Result<Told, Memory>
    requires name { blank.name ≡ L.name }
    requires parts { blank.parts ≡ L.parts }
    requires some { 0 < blank.parts }
{
    let mut steps: Steps<L> = Steps::begin(blank);
    let mut told = Told::new(alloc);
    tell_row(alloc, row, &mut told, &mut steps)?;
    Ok(told)
}

/// The same without a name for the ledger.
fn told(alloc: Global, row: &Row) -> Result<Told, Memory> {
    told_by::<Brand>(alloc, row, Blank::new(1))
}

#[test]
fn worked_transactions_are_answered_and_read(rt: HostRuntime) -> Result<(), Fail> {
    for row in ROWS {
        assert_eq!(rt; told(rt.alloc(), row)?.text()?, row.3);
    }
    Ok(())
}
