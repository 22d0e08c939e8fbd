ghost use Rattle.std.specs.Prelude.{◌≡◌, ℕ, List, ◌++◌, flat_map, OnOk};
ghost use Rattle.std.specs.List.{list_any};
ghost use Rattle.std.specs.Map.{keys_of};
ghost use Rattle.pgs_base.specs.Pair.{same_name, has_name, value_at};
ghost use Rattle.pgs_conform.specs.declared.options.Options.{Options};
ghost use Rattle.pgs_differences.specs.Differences.{of_absent, of_present, of_key};

use crate::Difference;
use pgs_base::{Memory, Name, Props, Value};
use pgs_conform::Options;

// Puts last, of keys that a shape names, those that are absent and may not be.
pub(crate) fn push_absent(
    keys: &[(Name, Options)],
    props: &Props,
    found: &mut Vec<Difference>,
) -> Result<(), Memory>
    ensures { OnOk result (found.new.items
        ≡ found.old.items ++ flat_map (λ (key : List ℕ × Options). of_absent key (value_at key.0 props.now)) keys.now) }
{
    for key in keys {
        if !key.1.absent && props.get(&key.0).is_none() {
            found.push(Difference::LacksKey(key.0.share()?, key.1))?;
        }
    }
    Ok(())
}

// Puts last the difference that a value at a key makes, where it is of a kind that may not stand there.
fn push_kind(
    key: &(Name, Options),
    value: &Value,
    found: &mut Vec<Difference>,
) -> Result<(), Memory>
    ensures { OnOk result (found.new.items ≡ found.old.items ++ of_present key.now (Some value.now)) }
{
    let kind = value.kind();
    if !key.1.admits(kind) {
        found.push(Difference::OtherKind(key.0.share()?, kind, key.1))?;
    }
    Ok(())
}

// Puts last, of keys that a shape names, those with a value of a kind that may not stand there.
pub(crate) fn push_other_kinds(
    keys: &[(Name, Options)],
    props: &Props,
    found: &mut Vec<Difference>,
) -> Result<(), Memory>
    ensures { OnOk result (found.new.items
        ≡ found.old.items ++ flat_map (λ (key : List ℕ × Options). of_present key (value_at key.0 props.now)) keys.now) }
{
    for key in keys {
        if let Some(value) = props.get(&key.0) {
            push_kind(key, value, found)?;
        }
    }
    Ok(())
}

fn is_at(key: &(Name, Options), name: &Name) -> bool
    ensures { result ≡ same_name name.now key.now.0 }
{
    name.cmp(&key.0).is_eq()
}

fn some_is_at(keys: &[(Name, Options)], name: &Name) -> bool
    ensures { result ≡ list_any (λ (key : List ℕ × Options). same_name name.now key.0) keys.now }
{
    keys.iter().any(|key| is_at(key, name))
}

// Whether a shape names a key.
fn names_key(keys: &[(Name, Options)], name: &Name) -> bool
    ensures { result ≡ has_name name.now (keys_of keys.now) }
{
    some_is_at(keys, name)
}

// Puts last, of keys that are there, those that a shape doesn't name, unless more are free.
pub(crate) fn push_further(
    keys: &[(Name, Options)],
    more: bool,
    props: &[(Name, Value)],
    found: &mut Vec<Difference>,
) -> Result<(), Memory>
    ensures { OnOk result (found.new.items ≡ found.old.items ++ flat_map (of_key more keys.now) props.now) }
{
    for entry in props {
        if !more && !names_key(keys, &entry.0) {
            found.push(Difference::FurtherKey(entry.0.share()?))?;
        }
    }
    Ok(())
}
