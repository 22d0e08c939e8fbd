ghost use Rattle.std.specs.Prelude.{◌≡◌, ◌≤◌, IfOk, IfErr, true, length};
ghost use Rattle.pgs_resolve.specs.SchemaOf.{schema, schema_of};
ghost use Rattle.pgs_syntax.specs.Valid.{is_valid};
ghost use Rattle.pgs_schema.specs.Told.{IsRefused};

use crate::{SchemaUnread, read_schema};
use pgs_base::{Bytes, List, Memory};
use pgs_conform::Compiled;
use pgs_match::{PlannedKey, plan_key};
use std::alloc::Global;
use std::marker::Model;

/// The schema of a text with all that judging by it takes: its types compiled, and its guard's keys planned. Contracts see the text and
/// the resolved schema, which is that of the text.
pub struct Schema {
    text: Bytes,
    compiled: Compiled,
    keys: List<PlannedKey>,
}

// Dropped by one function of this crate, so that those above need not prove anew how a schema is taken apart.
impl Drop for Schema {
    fn drop(self) {
        let Schema {
            text: _,
            compiled: _,
            keys: _,
        } = self;
    }
}

impl Model for Schema {
    ghost use Rattle.std.specs.Coded.{codes};
    ghost use Rattle.pgs_syntax.specs.contracts.resolved.Resolved as schemas;
    ghost use Rattle.pgs_schema.specs.State.{SchemaState, IsSchema};

    ghost Value = { SchemaState };

    ghost coded = { Prim.hlevel (codes, schemas.the_row.coded) };

    ghost view = { λ schema. record { text = schema.text; resolved = schema.compiled } };

    ghost invariant = { λ schema. IsSchema schema.text schema.compiled schema.keys };
}

// The plans of a guard's keys, in order.
fn plan_keys(alloc: Global, compiled: &Compiled) -> Result<List<PlannedKey>, Memory>
    ensures { IfOk result (λ planned. planned ≡ compiled.now.guard.keys) }
{
    let keys = compiled.resolved().guard.keys.as_slice();
    let mut planned = Vec::with_capacity(alloc, keys.len())?;
    for key in keys {
        let plan = plan_key(alloc, key)?;
        planned.push(plan)?;
    }
    Ok(List::from_vec(planned))
}

impl Schema {
    /// Reads a schema text, of which it keeps a copy. It refuses what [`read_schema`] refuses, with the same refusal.
    pub fn read(alloc: Global, text: &[u8]) -> Result<Schema, SchemaUnread>
        ensures text { IfOk result (λ read. read.text ≡ text.now) }
        ensures schema { IfOk result (λ read. schema_of text.now ≡ schema read.resolved) }
        ensures refused { IfErr result (IsRefused (schema_of text.now)) }
    {
        let compiled = read_schema(alloc, text)?;
        let keys = plan_keys(alloc, &compiled)?;
        let text = List::from_slice(alloc, text)?;
        Ok(Schema {
            text,
            compiled,
            keys,
        })
    }

    /// The text.
    pub fn text(&self) -> &[u8]
        ensures text { result.now ≡ self.now.text }
        ensures schema { schema_of self.now.text ≡ schema self.now.resolved }
    {
        self.text.as_slice()
    }

    /// The resolved schema, with its types compiled.
    pub fn compiled(&self) -> &Compiled
        ensures schema { result.now ≡ self.now.resolved }
        ensures valid { is_valid self.now.resolved ≡ true }
    {
        let _resolved = self.compiled.resolved();
        &self.compiled
    }

    /// The plans of the guard's keys, in order.
    pub fn keys(&self) -> &List<PlannedKey>
        ensures { result.now ≡ self.now.resolved.guard.keys }
    {
        &self.keys
    }
}
