//! Which of two areas is chosen: every pair of fifteen images, of both formats, beside the rule on what the images are.

use pgs_base::{Bytes, List, Memory};
use pgs_snapshot::{ChooseFault, choose_area};
use pgs_world::{Area, MemWorld};
use std::alloc::Global;
use std::test::Fail;

/// What stands behind a head: the record of a schema and a closed gate.
const SCHEMA: &str = "\x01\0\0\0\0\0\0\0\x1e\x01CREATE GRAPH TYPE g LOOSE {};\0";

/// A schema, and an open record that isn't whole.
const SCHEMA_TORN: &str = "\x01\0\0\0\0\0\0\0\x1e\x01CREATE GRAPH TYPE g LOOSE {};\x01\0\0";

/// A schema, a transaction of no operations, and an open record that isn't whole.
const TWO_TORN: &str =
    "\x01\0\0\0\0\0\0\0\x1e\x01CREATE GRAPH TYPE g LOOSE {};\x01\0\0\0\0\0\0\0\x05\x03\0\0\0\0\x01\0\0";

/// The same schema twice, which the first format doesn't have.
const SCHEMA_TWICE: &str =
    "\x01\0\0\0\0\0\0\0\x1e\x01CREATE GRAPH TYPE g LOOSE {};\x01\0\0\0\0\0\0\0\x1e\x01CREATE GRAPH TYPE g LOOSE {};\0";

/// In the second format the record of a schema and a closed gate.
const NUMBERED: &str =
    "\x01\0\0\0\0\0\0\0\x01\0\0\0\0\0\0\0\x1e\x01CREATE GRAPH TYPE g LOOSE {};\0";

/// There the same schema twice.
const NUMBERED_TWICE: &str =
    "\x01\0\0\0\0\0\0\0\x01\0\0\0\0\0\0\0\x1e\x01CREATE GRAPH TYPE g LOOSE {};\x01\0\0\0\0\0\0\0\x02\0\0\0\0\0\0\0\x1e\x01CREATE GRAPH TYPE g LOOSE {};\0";

/// There a schema whose record bears the number 2.
const MISNUMBERED: &str =
    "\x01\0\0\0\0\0\0\0\x02\0\0\0\0\0\0\0\x1e\x01CREATE GRAPH TYPE g LOOSE {};\0";

/// An area: the seven bytes of its format and the epoch of its store, or, with 0 for the epoch, all bytes of an area that is no
/// store; what stands behind its head; and the record at which the store is damaged, or 1 for a foreign area, else 0.
type Image = (&'static str, u64, &'static str, u64);

const IMAGES: [Image; 15] = [
    ("", 0, "", 0),
    ("", 0, "\x01", 0),
    ("", 0, "\0xxxxxxxxxxxxxxxxxxxxxxxxxxxxxxxxxxxxxxx", 0),
    ("", 0, "\x01xxxxxxxxxxxxxxxxxxxxxxxxxxxxxxxxxxxxxxx", 1),
    ("PGSGRD1", 1, SCHEMA, 0),
    ("PGSGRD1", 2, SCHEMA, 0),
    ("PGSGRD1", 16_777_215, SCHEMA, 0),
    ("PGSGRD1", 3, "\0", 1),
    ("PGSGRD1", 2, SCHEMA_TORN, 2),
    ("PGSGRD1", 1, TWO_TORN, 3),
    ("PGSGRD1", 4, SCHEMA_TWICE, 2),
    ("PGSGRD2", 1, NUMBERED, 0),
    ("PGSGRD2", 3, NUMBERED, 0),
    ("PGSGRD2", 2, NUMBERED_TWICE, 0),
    ("PGSGRD2", 4, MISNUMBERED, 1),
];

/// The bytes of an image.
fn bytes_of(alloc: Global, image: &Image) -> Result<Bytes, Memory> {
    let mut bytes = Vec::new(alloc);
    if image.1 > 0 {
        bytes.push(1)?;
        bytes.extend_from_slice(image.0.as_bytes())?;
        bytes.extend_from_slice(&image.1.to_be_bytes())?;
    }
    bytes.extend_from_slice(image.2.as_bytes())?;
    Ok(List::from_vec(bytes))
}

/// An answer as a kind and a number: 0 for no store, 1 for foreign, 2 for a damaged record of this number, 3 and 4 for the store of
/// this epoch in area A and B.
pub type Answer = (u8, u64);

/// What the rule says of two images.
fn rule(a: &Image, b: &Image) -> Answer {
    let (kind, epoch, number) = if b.1 > a.1 {
        (4, b.1, b.3)
    } else {
        (3, a.1, a.3)
    };
    if epoch == 0 {
        (if a.3 == 1 || b.3 == 1 { 1 } else { 0 }, 0)
    } else if number > 0 {
        (2, number)
    } else {
        (kind, epoch)
    }
}

/// What is chosen of two areas, and the number of its records.
pub fn chosen(alloc: Global, a: Bytes, b: Bytes) -> Result<(Answer, u64), Memory> {
    let mut world = MemWorld::new(alloc, a, b, 256, List::new(alloc))?;
    match choose_area(alloc, &mut world) {
        Ok(chosen) => {
            let kind = if chosen.area == Area::A { 3 } else { 4 };
            Ok(((kind, chosen.epoch), chosen.payloads.len() as u64))
        }
        Err(ChooseFault::NoStore) => Ok(((0, 0), 0)),
        Err(ChooseFault::Foreign) => Ok(((1, 0), 0)),
        Err(ChooseFault::BadRecord { number }) => Ok(((2, number), 0)),
        Err(ChooseFault::DiskFault) => Ok(((99, 0), 0)),
        Err(ChooseFault::Memory) => Err(Memory),
    }
}

#[test]
fn each_pair_is_chosen_by_the_rule(rt: HostRuntime) -> Result<(), Fail> {
    let alloc = rt.alloc();
    for a in &IMAGES {
        for b in &IMAGES {
            let (found, _) = chosen(alloc, bytes_of(alloc, a)?, bytes_of(alloc, b)?)?;
            assert_eq!(rt; found, rule(a, b));
        }
    }
    Ok(())
}
