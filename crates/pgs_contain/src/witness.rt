//! The plainest pair of a region.

ghost use Rattle.std.specs.Prelude.{◌≡◌, ◌++◌, [], true, IfOk, OnOk};
ghost use Rattle.pgs_base.specs.Pair.{is_pair};
ghost use Rattle.pgs_contain.specs.Contained.{pair_in};
ghost use Rattle.pgs_contain.specs.Regions.{plainest};
ghost use Rattle.pgs_contain.specs.Rows.{row_before, plain_rows};

use crate::OwnedPair;
use crate::frame::Frame;
use pgs_base::{Copyable, Day, Labels, Memory, Name, Props, Text, Value, pair_facts};
use pgs_conform::Options;
use std::alloc::Global;

// The empty text.
fn empty_text(alloc: Global) -> Result<Text, Memory>
    ensures { IfOk result (λ text. text ≡ []) }
{
    match Text::new(alloc, "")? {
        Some(text) => Ok(text),
        None => unreachable!(),
    }
}

// The first day.
fn first_day() -> Day
    ensures { result ≡ (1, 1, 1) }
{
    match Day::new(1, 1, 1) {
        Some(day) => day,
        None => unreachable!(),
    }
}

/// The plainest that may stand at a key, by its options: nothing, else the empty text, 0, `false` or the first day. `Memory` where
/// there was none left.
pub fn plainest(alloc: Global, options: Options) -> Result<Option<Value>, Memory>
    ensures { IfOk result (λ value. value ≡ plainest options) }
{
    if options.absent {
        Ok(None)
    } else if options.text {
        let text = empty_text(alloc)?;
        Ok(Some(Value::Text(text)))
    } else if options.int {
        Ok(Some(Value::Int(0)))
    } else if options.boolean {
        Ok(Some(Value::Bool(false)))
    } else if options.date {
        Ok(Some(Value::Date(first_day())))
    } else {
        Ok(None)
    }
}

// Puts the plainest that may stand at a key last.
fn push_plainest(
    alloc: Global,
    key: &Name,
    options: &Options,
    rows: &mut Vec<(Name, Value)>,
) -> Result<(), Memory>
    ensures { OnOk result (rows.new.items ≡ rows.old.items ++ row_before key.now (plainest options.now) []) }
{
    if let Some(value) = plainest(alloc, *options)? {
        let name = key.copy(alloc)?;
        rows.push((name, value))?;
    }
    Ok(())
}

// The plainest that may stand at keys.
fn plain_rows(
    alloc: Global,
    keys: &[Name],
    region: &[Options],
) -> Result<Vec<(Name, Value)>, Memory>
    ensures { IfOk result (λ rows. rows.items ≡ plain_rows keys.now region.now) }
{
    let mut rows = Vec::new(alloc);
    let mut left = keys;
    let mut right = region;
    while let [key, keys_later @ ..] = left {
        let [options, later @ ..] = right else {
            return Ok(rows);
        };
        push_plainest(alloc, key, options, &mut rows)?;
        left = keys_later;
        right = later;
    }
    Ok(rows)
}

// The plainest properties of a region, which gives what may stand at keys.
fn plain_props(alloc: Global, keys: &Labels, region: &[Options]) -> Result<Props, Memory>
    ensures { IfOk result (λ props. props ≡ plain_rows keys.now region.now) }
{
    let rows = plain_rows(alloc, keys.as_slice(), region)?;
    Ok(Props::from_vec(rows))
}

/// The plainest pair of a frame, of what is left of its region.
pub(crate) fn plain_pair(
    alloc: Global,
    frame: &Frame,
    region: &[Options],
) -> Result<OwnedPair, Memory>
    ensures { IfOk result (λ own. (is_pair (pair_in own) ≡ true) × (own.labels ≡ frame.now.labels)
        × (own.props ≡ plain_rows frame.now.keys region.now)) }
{
    let labels = frame.labels.copy(alloc)?;
    let props = plain_props(alloc, &frame.keys, region)?;
    pair_facts(&labels, &props);
    Ok(OwnedPair { labels, props })
}
