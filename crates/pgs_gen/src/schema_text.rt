ghost use Rattle.std.specs.Prelude.{◌≡◌, IfOk};
ghost use Rattle.pgs_gen.specs.Generated.{schema_text};

use pgs_base::{Bytes, List, Memory};
use std::alloc::Global;

const SCHEMA: &[u8] =
    b"CREATE GRAPH TYPE g STRICT {(p: Person {id INT, mail STRING}), (:p)-[k: knows]->(:p), FOR (x:p) IDENTIFIER x.mail, FOR (x:p) IDENTIFIER x.id};";

/// The text of the schema under which the transactions are made, without a line feed.
pub fn schema(alloc: Global) -> Result<Bytes, Memory>
    ensures { IfOk result (λ text. text ≡ schema_text) }
{
    List::from_slice(alloc, SCHEMA)
}
