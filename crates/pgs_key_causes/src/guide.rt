//! What the causes of refusals by keys are told from.

ghost use Rattle.std.specs.Prelude.{◌≡◌, ◌++◌, map, flat_map, IfOk, OnOk};
ghost use Rattle.pgs_syntax.specs.declared.script.Script.{Script};
ghost use Rattle.pgs_resolve_declared.specs.Tables.{AreOf};
ghost use Rattle.pgs_key_causes.specs.Causes.{IsGuideOf};

use pgs_base::{Bytes, List, Memory};
use pgs_lexer::Tokens;
use pgs_resolve_declared::{Declarations, Numbering, guard_graphs};
use pgs_resolve_order::numbering;
use pgs_schema_places::{PartTexts, guard_key_texts, guard_part_texts};
use pgs_syntax::{GraphType, RawKey};
use std::alloc::Global;

/// The guard's keys as they are written, with their texts and those of their parts, and the numbers of the types that they name. It is made
/// once for a schema, and lends the keys of its script.
#[derive(Drop)]
pub struct KeyGuide<'a> {
    pub keys: Vec<&'a RawKey>,
    pub texts: List<Bytes>,
    pub parts: List<PartTexts>,
    pub numbering: Numbering,
}

fn push_keys<'a>(written: &'a [RawKey], keys: &mut Vec<&'a RawKey>) -> Result<(), Memory>
    ensures { OnOk result (map (λ key. key.now) keys.new.items ≡ map (λ key. key.now) keys.old.items ++ written.now) }
{
    for key in written {
        keys.push(key)?;
    }
    Ok(())
}

// The keys of graph types, in order.
fn keys_of<'a>(alloc: Global, graphs: &[&'a GraphType]) -> Result<Vec<&'a RawKey>, Memory>
    ensures { IfOk result (λ keys. map (λ key. key.now) keys.items ≡ flat_map (λ graph. graph.now.keys) graphs.now) }
{
    let mut keys = Vec::new(alloc);
    for graph in graphs {
        push_keys(graph.keys.as_slice(), &mut keys)?;
    }
    Ok(keys)
}

impl<'a> KeyGuide<'a> {
    /// The guide of a script, which these tokens are. `Memory` is free.
    pub fn new(
        alloc: Global,
        tokens: &Tokens<'_>,
        declarations: &Declarations<'a>,
    ) -> Result<KeyGuide<'a>, Memory>
        ensures { (script : Script) → AreOf script declarations.now → IfOk result (IsGuideOf tokens.now script) }
    {
        let graphs = guard_graphs(alloc, declarations)?;
        let keys = keys_of(alloc, &graphs)?;
        let texts = guard_key_texts(alloc, tokens, declarations)?;
        let parts = guard_part_texts(alloc, tokens, declarations)?;
        let numbering = numbering(alloc, declarations)?;
        Ok(KeyGuide {
            keys,
            texts,
            parts,
            numbering,
        })
    }
}
