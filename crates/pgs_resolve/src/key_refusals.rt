ghost use Rattle.std.specs.Prelude.{◌≡◌, ◌++◌, map, filter_map, slice_get, IfOk, OnOk};
ghost use Rattle.std.specs.List.{enumerate_from};
ghost use Rattle.pgs_syntax.specs.declared.script.Script.{Script};
ghost use Rattle.pgs_resolve_declared.specs.Declarations.{keys_of};
ghost use Rattle.pgs_resolve.specs.Resolution.{bad_key};
ghost use Rattle.pgs_resolve_declared.specs.Tables.{AreOf};

use crate::ResolveFault;
use pgs_base::Memory;
use pgs_resolve_declared::Declarations;
use pgs_resolve_keys::cause_of;
use pgs_syntax::RawKey;
use std::alloc::Global;

fn push_keys<'a>(written: &'a [RawKey], keys: &mut Vec<&'a RawKey>) -> Result<(), Memory>
    ensures { OnOk result (map (λ key. key.now) keys.new.items ≡ map (λ key. key.now) keys.old.items ++ written.now) }
{
    for key in written {
        keys.push(key)?;
    }
    Ok(())
}

// All keys of a script, in order.
fn keys_of<'a>(alloc: Global, declarations: &Declarations<'a>) -> Result<Vec<&'a RawKey>, Memory>
    ensures { (script : Script) → AreOf script declarations.now → IfOk result (λ keys. map (λ key. key.now) keys.items ≡ keys_of script) }
{
    let mut keys = Vec::new(alloc);
    for graph in &declarations.graphs {
        push_keys(graph.keys.as_slice(), &mut keys)?;
    }
    Ok(keys)
}

// The refusal of the first of the keys of a script that has a fault.
fn first_bad_of(alloc: Global, keys: &[&RawKey]) -> Result<Option<ResolveFault>, Memory>
    ensures { IfOk result (λ fault. fault ≡ slice_get (filter_map bad_key (enumerate_from 1 (map (λ key. key.now) keys.now))) 0) }
{
    for (place, key) in keys.iter().enumerate() {
        let number = place as u64 + 1;
        if let Some(cause) = cause_of(alloc, number, key)? {
            return Ok(Some(ResolveFault::BadKey { key: number, cause }));
        }
    }
    Ok(None)
}

/// The refusal of the first key that has a fault, in the order of the script.
pub fn first_bad_key(
    alloc: Global,
    declarations: &Declarations<'_>,
) -> Result<Option<ResolveFault>, Memory>
    ensures { (script : Script) → AreOf script declarations.now →
        IfOk result (λ fault. fault ≡ slice_get (filter_map bad_key (enumerate_from 1 (keys_of script))) 0) }
{
    let keys = keys_of(alloc, declarations)?;
    first_bad_of(alloc, &keys)
}
