//! Labels, properties, lists of operations and transactions, each of a JSON value.

ghost use Rattle.std.specs.Prelude.{◌≡◌, ◌≤◌, ◌<◌, [], ◌∷◌, ◌++◌, length, option_map, option_and_then, Some, Err, IfOk, OnOk, OnErr};
ghost use Rattle.std.specs.Ordering.{nat_cmp};
ghost use Rattle.std.specs.Cmp.Lexicographic.{slice_cmp};
ghost use Rattle.std.specs.BTreeSet.{insert_key};
ghost use Rattle.pgs_json.specs.Sets.{label_set, pair_map};
ghost use Rattle.pgs_json.specs.Form.{form_or_empty, each_item, each_member, pair_of, name_of, labels_of, props_of, op_of, ops_of, form};
ghost use Rattle.pgs_json.specs.Kinds.{op_told};
ghost use Rattle.pgs_json.specs.Tree.{view, items_view, members_view};
ghost use Rattle.pgs_json.specs.Unread.{Gives};
ghost use Rattle.pgs_json.specs.declared.unread.Unread.TheVariants.{Memory as OutOfMemory};

use crate::json_part::{has_only, name, value};
use crate::kind::kind_in;
use crate::op_of_kind::op_as;
use crate::tree::{Json, Member};
use crate::unread::Unread;
use pgs_base::{Labels, List, Memory, Name, Props, Value};
use pgs_graph::{Op, Txn};
use std::alloc::Global;
use std::collections::BTreeSet;

/// How many labels are put in one after the other: as many as an element may have.
const FEW_LABELS: usize = 64;

/// For so many operations room is taken at once: as many as a transaction may have.
const MOST_ROOM: usize = 10_000;

/// Labels that are put in one after the other: few, since each one moves those behind it.
fn few_labels(alloc: Global, items: &[Json<'_>]) -> Result<Labels, Unread>
    requires { length items.now ≤ 64 }
    ensures { Gives (λ x. x) result (option_and_then (λ names. Some (label_set names)) (each_item name_of (items_view items.now))) }
{
    let mut labels = Labels::new(alloc);
    for item in items {
        let name = name(alloc, item)?;
        labels.insert(name)?;
    }
    Ok(labels)
}

fn put_name(names: &mut BTreeSet<Name>, name: Name) -> Result<(), Unread>
    ensures ok { OnOk result (names.new.keys ≡ insert_key (slice_cmp nat_cmp) names.old.keys name) }
    ensures err { OnErr result (result ≡ Err OutOfMemory) }
{
    match names.insert(name) {
        Ok(_) => Ok(()),
        Err(refused) => {
            drop(refused);
            Err(Unread::Memory)
        }
    }
}

fn label_names(alloc: Global, items: &[Json<'_>]) -> Result<BTreeSet<Name>, Unread>
    ensures { Gives (λ names. names.keys) result (option_and_then (λ names. Some (label_set names)) (each_item name_of (items_view items.now))) }
{
    let mut names = BTreeSet::new(alloc);
    for item in items {
        let name = name(alloc, item)?;
        put_name(&mut names, name)?;
    }
    Ok(names)
}

/// Labels that are sorted first.
fn many_labels(alloc: Global, items: &[Json<'_>]) -> Result<Labels, Unread>
    requires { 64 < length items.now }
    ensures { Gives (λ x. x) result (option_and_then (λ names. Some (label_set names)) (each_item name_of (items_view items.now))) }
{
    let names = label_names(alloc, items)?;
    Ok(sorted_labels(alloc, names)?)
}

fn sorted_labels(alloc: Global, names: BTreeSet<Name>) -> Result<Labels, Memory>
    ensures { IfOk result (λ labels. labels ≡ names.keys) }
{
    let names = names.into_iter().collect(alloc)?;
    Ok(Labels::from_vec(names))
}

fn some_labels(alloc: Global, items: &[Json<'_>]) -> Result<Labels, Unread>
    ensures { Gives (λ x. x) result (option_and_then (λ names. Some (label_set names)) (each_item name_of (items_view items.now))) }
{
    if items.len() <= FEW_LABELS {
        few_labels(alloc, items)
    } else {
        many_labels(alloc, items)
    }
}

#[tactic(auto, unfolding(crate::specs::Form::labels_of))]
fn labels(alloc: Global, value: &Json<'_>) -> Result<Labels, Unread>
    ensures { Gives (λ x. x) result (labels_of (view value.now)) }
{
    match value.as_array() {
        Some(items) => some_labels(alloc, items),
        None => Err(Unread::Unfit),
    }
}

/// The labels that a member is, or none where it is absent.
pub fn labels_part(alloc: Global, part: Option<&Json<'_>>) -> Result<Labels, Unread>
    ensures { Gives (λ x. x) result (form_or_empty labels_of (option_map (λ value. view value.now) part.entry)) }
{
    match part {
        Some(part) => labels(alloc, part),
        None => Ok(Labels::new(alloc)),
    }
}

fn pair(alloc: Global, key: &str, part: &Json<'_>) -> Result<(Name, Value), Unread>
    ensures { Gives (λ x. x) result (pair_of key.now (view part.now)) }
{
    match Name::new(alloc, key.as_bytes())? {
        Some(name) => {
            let value = value(alloc, part)?;
            Ok((name, value))
        }
        None => Err(Unread::Unfit),
    }
}

fn some_props(alloc: Global, members: &[Member<'_>]) -> Result<Props, Unread>
    ensures { Gives (λ x. x) result (option_and_then (λ pairs. Some (pair_map pairs)) (each_member pair_of (members_view members.now))) }
{
    let mut props = Props::new(alloc);
    for (key, part) in members {
        let (name, value) = pair(alloc, key, part)?;
        props.set(name, value)?;
    }
    Ok(props)
}

#[tactic(auto, unfolding(crate::specs::Form::props_of))]
fn props(alloc: Global, value: &Json<'_>) -> Result<Props, Unread>
    ensures { Gives (λ x. x) result (props_of (view value.now)) }
{
    match value.as_object() {
        Some(members) => some_props(alloc, members),
        None => Err(Unread::Unfit),
    }
}

/// The properties that a member is, or none where it is absent.
pub fn props_part(alloc: Global, part: Option<&Json<'_>>) -> Result<Props, Unread>
    ensures { Gives (λ x. x) result (form_or_empty props_of (option_map (λ value. view value.now) part.entry)) }
{
    match part {
        Some(part) => props(alloc, part),
        None => Ok(Props::new(alloc)),
    }
}

fn told_op(alloc: Global, value: &Json<'_>) -> Result<Op, Unread>
    ensures { Gives (λ x. x) result (op_told (view value.now)) }
{
    let members = value.as_object().ok_or(Unread::Unfit)?;
    let kind = kind_in(members).ok_or(Unread::Unfit)?;
    op_as(alloc, kind, members)
}

#[tactic(auto, using(crate::proofs::ToldKinds::op_of_told))]
fn op(alloc: Global, value: &Json<'_>) -> Result<Op, Unread>
    ensures { Gives (λ x. x) result (op_of (view value.now)) }
{
    told_op(alloc, value)
}

/// Puts an operation last.
pub fn put_last(ops: &mut List<Op>, op: Op) -> Result<(), Unread>
    ensures ok { OnOk result (ops.new ≡ ops.old ++ op ∷ []) }
    ensures err { OnErr result (result ≡ Err OutOfMemory) }
{
    match ops.push(op) {
        Ok(()) => Ok(()),
        Err(refused) => {
            drop(refused);
            Err(Unread::Memory)
        }
    }
}

fn room_for(alloc: Global, count: usize) -> Result<List<Op>, Memory>
    ensures { IfOk result (λ ops. ops ≡ []) }
{
    let ops = Vec::with_capacity(alloc, count.min(MOST_ROOM))?;
    Ok(List::from_vec(ops))
}

fn some_ops(alloc: Global, items: &[Json<'_>]) -> Result<List<Op>, Unread>
    ensures { Gives (λ x. x) result (each_item op_of (items_view items.now)) }
{
    let mut ops = room_for(alloc, items.len())?;
    for item in items {
        let op = op(alloc, item)?;
        put_last(&mut ops, op)?;
    }
    Ok(ops)
}

/// The operations that a JSON value is.
#[tactic(auto, unfolding(crate::specs::Form::ops_of))]
pub fn ops(alloc: Global, value: &Json<'_>) -> Result<List<Op>, Unread>
    ensures { Gives (λ x. x) result (ops_of (view value.now)) }
{
    match value.as_array() {
        Some(items) => some_ops(alloc, items),
        None => Err(Unread::Unfit),
    }
}

/// The transaction that a JSON value is.
#[tactic(auto, unfolding(crate::specs::Form::form))]
pub fn txn(alloc: Global, value: &Json<'_>) -> Result<Txn, Unread>
    ensures { Gives (λ x. x) result (form (view value.now)) }
{
    if !has_only(value, &["ops"]) {
        return Err(Unread::Unfit);
    }
    match value.get("ops") {
        Some(part) => {
            let ops = ops(alloc, part)?;
            Ok(Txn { ops })
        }
        None => Err(Unread::Unfit),
    }
}
