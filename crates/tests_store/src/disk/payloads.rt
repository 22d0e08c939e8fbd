//! Commands as payloads: worked bytes, a transaction of all operations, and the nearest misses of each field.

use pgs_base::Memory;
use pgs_codec::{Command, decode, encode, frame};
use pgs_graph::Op;
use std::alloc::Global;
use std::test::Fail;

/// What is damaged, a payload, and the payload with that damage, as `bytes_of` reads them. Written by hand from the table of fields.
const MISSES: &str = r#"a kind of command | 01 | 00
a kind past the last | 03 00000000 | 04 00000000
nothing at all | 01 |
a count without its last byte | 03 00000000 | 03 000000
a byte after the last operation | 03 00000001 01 :1 0000 0000 | 03 00000001 01 :1 0000 0000 00
a count one too many | 03 00000001 01 :1 0000 0000 | 03 00000002 01 :1 0000 0000
a count one too few | 03 00000002 01 :1 0000 0000 01 :1 0000 0000 | 03 00000001 01 :1 0000 0000 01 :1 0000 0000
a count of all there is | 03 00000000 | 03 ffffffff 00000000 00000000 00000000 000000
an operation of kind 0 | 03 00000001 03 :1 | 03 00000001 00 :1
an operation of kind 14 | 03 00000001 0d :1 01 =a | 03 00000001 0e :1 01 =a
a number of seven bytes | 03 00000001 05 :1 | 03 00000001 05 00000000000000
an operation with another field | 03 00000001 04 :1 | 03 00000001 04 :1 01 =a
an empty name | 03 00000001 08 :1 01 =a | 03 00000001 08 :1 00
a name that begins with a digit | 03 00000001 08 :1 02 =a1 | 03 00000001 08 :1 02 =1a
a name with a space | 03 00000001 09 :1 03 =a_b | 03 00000001 09 :1 03 612062
a name of 65 bytes | 03 00000001 07 :1 40 =nnnnnnnnnnnnnnnnnnnnnnnnnnnnnnnnnnnnnnnnnnnnnnnnnnnnnnnnnnnnnnnn | 03 00000001 07 :1 41 =nnnnnnnnnnnnnnnnnnnnnnnnnnnnnnnnnnnnnnnnnnnnnnnnnnnnnnnnnnnnnnnnn
a name longer than what is left | 03 00000001 0c :1 02 =ab | 03 00000001 0c :1 03 =ab
labels that descend | 03 00000001 01 :1 0002 01 =A 01 =B 0000 | 03 00000001 01 :1 0002 01 =B 01 =A 0000
a label twice | 03 00000001 01 :1 0002 01 =A 02 =AA 0000 | 03 00000001 01 :1 0002 01 =A 01 =A 0000
fewer labels than counted | 03 00000001 01 :1 0001 01 =A 0000 | 03 00000001 01 :1 0002 01 =A 0000
keys that descend | 03 00000001 01 :1 0000 0002 01 =a 03 00 01 =b 03 01 | 03 00000001 01 :1 0000 0002 01 =b 03 01 01 =a 03 00
a key twice | 03 00000001 01 :1 0000 0002 01 =a 03 00 02 =ab 03 01 | 03 00000001 01 :1 0000 0002 01 =a 03 00 01 =a 03 01
properties without their count | 03 00000001 01 :1 0000 0000 | 03 00000001 01 :1 0000
a property without its value | 03 00000001 01 :1 0000 0001 01 =a 03 01 | 03 00000001 01 :1 0000 0001 01 =a
a value of kind 0 | 03 00000001 06 :1 01 =a 03 01 | 03 00000001 06 :1 01 =a 00 01
a value of kind 5 | 03 00000001 06 :1 01 =a 04 0001 01 01 | 03 00000001 06 :1 01 =a 05 0001 01 01
a truth value of 2 | 03 00000001 0a :1 01 =a 03 01 | 03 00000001 0a :1 01 =a 03 02
a text longer than what is left | 03 00000001 06 :1 01 =a 01 0002 =ab | 03 00000001 06 :1 01 =a 01 0003 =ab
a text shorter than what is left | 03 00000001 06 :1 01 =a 01 0002 =ab | 03 00000001 06 :1 01 =a 01 0001 =a 62
a text that is cut inside a character | 03 00000001 06 :1 01 =a 01 0002 c3a9 | 03 00000001 06 :1 01 =a 01 0001 c3
a text with an overlong character | 03 00000001 06 :1 01 =a 01 0001 2f | 03 00000001 06 :1 01 =a 01 0002 c0af
half of a surrogate pair | 03 00000001 06 :1 01 =a 01 0003 ed9fbf | 03 00000001 06 :1 01 =a 01 0003 eda080
a whole number of seven bytes | 03 00000001 06 :1 01 =a 02 fffffffffffffffe | 03 00000001 06 :1 01 =a 02 ffffffffffffff
the 30 February | 03 00000001 06 :1 01 =a 04 07e8 02 1d | 03 00000001 06 :1 01 =a 04 07e8 02 1e
the 29 February of no leap year | 03 00000001 06 :1 01 =a 04 07d0 02 1d | 03 00000001 06 :1 01 =a 04 076c 02 1d
the month 13 | 03 00000001 06 :1 01 =a 04 07e7 0c 1f | 03 00000001 06 :1 01 =a 04 07e7 0d 01
the day 0 | 03 00000001 06 :1 01 =a 04 0001 01 01 | 03 00000001 06 :1 01 =a 04 0001 01 00
the year 0 | 03 00000001 06 :1 01 =a 04 0001 01 01 | 03 00000001 06 :1 01 =a 04 0000 01 01
the year 10000 | 03 00000001 06 :1 01 =a 04 270f 0c 1f | 03 00000001 06 :1 01 =a 04 2710 01 01
nodes that descend | 02 :9 :2 :1 0000 0000 :2 0000 0000 :0 | 02 :9 :2 :2 0000 0000 :1 0000 0000 :0
a node twice | 02 :9 :2 :1 0000 0000 :2 0000 0000 :0 | 02 :9 :2 :1 0000 0000 :1 0000 0000 :0
edges that descend | 02 :9 :1 :1 0000 0000 :2 :1 :1 :1 0000 0000 :2 :1 :1 0000 0000 | 02 :9 :1 :1 0000 0000 :2 :2 :1 :1 0000 0000 :1 :1 :1 0000 0000
an edge whose source is no node | 02 :9 :1 :1 0000 0000 :1 :1 :1 :1 0000 0000 | 02 :9 :1 :1 0000 0000 :1 :1 :2 :1 0000 0000
an edge whose target is no node | 02 :9 :1 :1 0000 0000 :1 :1 :1 :1 0000 0000 | 02 :9 :1 :1 0000 0000 :1 :1 :1 :2 0000 0000
more nodes than there are | 02 :9 :0 :0 | 02 :9 :1 :0
a count of all numbers | 02 :9 :0 :0 | 02 :9 ffffffffffffffff :0
a byte after the edges | 02 :9 :0 :0 | 02 :9 :0 :0 00"#;

/// The value of a hexadecimal digit.
fn digit(byte: u8) -> u8 {
    byte.wrapping_sub(if byte < b'a' { b'0' } else { b'a' - 10 })
}

/// Adds the bytes of a word: behind `:` a number, as eight bytes; behind `=` the letters themselves; else pairs of hexadecimal digits.
fn add_word(bytes: &mut Vec<u8>, word: &str) -> Result<(), Memory> {
    if let Some(number) = word.strip_prefix(':') {
        let number = u64::from_str_radix(number, 10).unwrap_or(0);
        bytes.extend_from_slice(&number.to_be_bytes())?;
    } else if let Some(letters) = word.strip_prefix('=') {
        bytes.extend_from_slice(letters.as_bytes())?;
    } else {
        add_pairs(bytes, word.as_bytes())?;
    }
    Ok(())
}

/// Adds the bytes of pairs of digits. Sixteen times sixteen is no byte, so what is left of earlier digits falls out.
fn add_pairs(bytes: &mut Vec<u8>, digits: &[u8]) -> Result<(), Memory> {
    let mut byte: u8 = 0;
    for (place, of) in digits.iter().enumerate() {
        byte = byte.wrapping_mul(16).wrapping_add(digit(*of));
        if place % 2 == 1 {
            bytes.push(byte)?;
        }
    }
    Ok(())
}

/// The bytes of words.
fn bytes_of(alloc: Global, text: &str) -> Result<Vec<u8>, Memory> {
    let mut bytes = Vec::new(alloc);
    for word in text.split_ascii_whitespace() {
        add_word(&mut bytes, word)?;
    }
    Ok(bytes)
}

/// 1 where bytes are a command's payload, 0 where they are none, and 2 where their command is encoded to other bytes.
fn taken(alloc: Global, payload: &[u8]) -> Result<u8, Memory> {
    match decode(alloc, payload)? {
        Some(command) => {
            let again = encode(alloc, &command)?;
            Ok(if again.as_slice() == payload { 1 } else { 2 })
        }
        None => Ok(0),
    }
}

/// The same of both payloads of a line.
fn both_taken(alloc: Global, line: &str) -> Result<(u8, u8), Memory> {
    let (_, both) = line.split_once('|').unwrap_or(("", ""));
    let (whole, damaged) = both.split_once('|').unwrap_or(("", ""));
    let whole = bytes_of(alloc, whole)?;
    let damaged = bytes_of(alloc, damaged)?;
    Ok((
        taken(alloc, whole.as_slice())?,
        taken(alloc, damaged.as_slice())?,
    ))
}

#[test]
fn each_field_is_kept_from_its_nearest_misses(rt: HostRuntime) -> Result<(), Fail> {
    for line in MISSES.split_terminator('\n') {
        assert_eq!(rt; both_taken(rt.alloc(), line)?, (1, 0), "{line}");
    }
    Ok(())
}

/// One operation of each kind, and a value of each kind.
const OF_ALL_KINDS: &str = "03 0000000d
    01 :1 0002 01 =A 01 =B 0004 01 =a 01 0002 c3a9 01 =b 02 fffffffffffffffe 01 =c 03 01 01 =d 04 07e8 02 1d
    02 :2 :1 :1 0001 05 =knows 0000
    03 :3 04 :4 05 :5 06 :6 01 =k 02 7fffffffffffffff 07 :7 01 =k 08 :8 01 =A 09 :9 01 =A
    0a :10 01 =k 02 8000000000000000 0b :11 01 =k 0c :12 01 =A 0d :18446744073709551615 01 =A";

/// How many fronts of a payload, but for itself, are payloads.
fn fronts_taken(alloc: Global, payload: &[u8]) -> Result<usize, Memory> {
    let mut count: usize = 0;
    for len in 0..payload.len() {
        if taken(alloc, &payload[..len])? > 0 {
            count = count.saturating_add(1);
        }
    }
    Ok(count)
}

/// A transaction that adds a node with so many labels, or so many properties that are true.
fn wide(alloc: Global, labels: u8, props: u16) -> Result<Vec<u8>, Memory> {
    let mut payload = Vec::from_slice(alloc, b"\x03\0\0\0\x01\x01\0\0\0\0\0\0\0\x07\0")?;
    payload.push(labels)?;
    for label in 0..labels {
        payload.extend_from_slice(&[2, b'a' + label / 16, b'a' + label % 16])?;
    }
    payload.extend_from_slice(&props.to_be_bytes())?;
    for key in 0..props {
        let low = (key % 16) as u8;
        let high = (key / 16 % 26) as u8;
        payload.extend_from_slice(&[2, b'a' + high, b'a' + low, 3, 1])?;
    }
    Ok(payload)
}

/// Whether a transaction with so many is taken.
fn wide_taken(alloc: Global, labels: u8, props: u16) -> Result<u8, Memory> {
    let payload = wide(alloc, labels, props)?;
    taken(alloc, payload.as_slice())
}

/// What is taken of the transaction of all operations, and of its fronts; of 64 and 65 labels; of 256 and 257 properties.
fn greatest_taken(alloc: Global) -> Result<(u8, usize, [u8; 4]), Memory> {
    let all = bytes_of(alloc, OF_ALL_KINDS)?;
    let wide = [
        wide_taken(alloc, 64, 0)?,
        wide_taken(alloc, 65, 0)?,
        wide_taken(alloc, 0, 256)?,
        wide_taken(alloc, 0, 257)?,
    ];
    Ok((
        taken(alloc, all.as_slice())?,
        fronts_taken(alloc, all.as_slice())?,
        wide,
    ))
}

#[test]
fn all_operations_are_taken_only_whole_and_rows_up_to_their_limits(
    rt: HostRuntime,
) -> Result<(), Fail> {
    assert_eq!(rt; greatest_taken(rt.alloc())?, (1, 0, [1, 0, 1, 0]));
    Ok(())
}

/// A command in numbers: of a schema its length, of a transaction that adds a node its number and how many labels and properties it
/// has, of a snapshot its commits and how many nodes and edges it has.
fn numbers(command: &Command) -> (u64, usize, usize) {
    match command {
        Command::Schema(text) => (0, text.len(), 0),
        Command::Txn(txn) => match txn.ops.as_slice() {
            [Op::AddNode { id, labels, props }] => (id.0, labels.len(), props.len()),
            _ => (0, 0, 0),
        },
        Command::Snapshot {
            commits,
            nodes,
            edges,
        } => (*commits, nodes.len(), edges.len()),
    }
}

fn numbers_in(alloc: Global, payload: &[u8]) -> Result<Option<(u64, usize, usize)>, Memory> {
    match decode(alloc, payload)? {
        Some(command) => Ok(Some(numbers(&command))),
        None => Ok(None),
    }
}

const SCHEMA: &[u8] = b"\x01CREATE GRAPH TYPE g LOOSE {};";

/// The node 1 is added, and carries nothing.
const TXN: &[u8] = b"\x03\0\0\0\x01\x01\0\0\0\0\0\0\0\x01\0\0\0\0";

/// After one commit: the node 1, which carries nothing.
const SNAPSHOT: &[u8] =
    b"\x02\0\0\0\0\0\0\0\x01\0\0\0\0\0\0\0\x01\0\0\0\0\0\0\0\x01\0\0\0\0\0\0\0\0\0\0\0\0";

/// A payload, its command in numbers, and the number of a record, or none, and what stands before the payload in its frame then.
type Framed = (
    &'static [u8],
    (u64, usize, usize),
    Option<u64>,
    &'static [u8],
);

const FRAMED: [Framed; 4] = [
    (SCHEMA, (0, 29, 0), None, b"\0\0\0\0\0\0\0\x1e"),
    (
        SCHEMA,
        (0, 29, 0),
        Some(258),
        b"\0\0\0\0\0\0\x01\x02\0\0\0\0\0\0\0\x1e",
    ),
    (TXN, (1, 0, 0), None, b"\0\0\0\0\0\0\0\x12"),
    (
        SNAPSHOT,
        (1, 1, 0),
        Some(2),
        b"\0\0\0\0\0\0\0\x02\0\0\0\0\0\0\0\x25",
    ),
];

/// Whether a payload is taken as this command, and framed so.
fn is_framed(alloc: Global, row: &Framed) -> Result<bool, Memory> {
    let (payload, wanted, number, before) = *row;
    let mut bytes = Vec::from_slice(alloc, before)?;
    bytes.extend_from_slice(payload)?;
    bytes.push(0)?;
    let found = frame(alloc, payload, number)?;
    Ok(
        taken(alloc, payload)? == 1
            && numbers_in(alloc, payload)? == Some(wanted)
            && found.as_slice() == bytes.as_slice(),
    )
}

#[test]
fn worked_commands_have_their_bytes(rt: HostRuntime) -> Result<(), Fail> {
    for row in &FRAMED {
        assert!(rt; is_framed(rt.alloc(), row)?, "{:?}", row.2);
    }
    Ok(())
}
