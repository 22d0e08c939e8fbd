//! The members of an object in the order of their names.

ghost use Rattle.std.specs.Prelude.{◌≡◌, ◌≤◌, ◌<◌, IfOk, vec_len};
ghost use Rattle.serde_json.specs.Data.{no_members};
ghost use Rattle.pgs_json.specs.Tree.{ascend, ascend_after, members_view, put_all};

use crate::tree::Member;
use pgs_base::{Memory, Rows};
use std::alloc::Global;
use std::collections::BTreeMap;

/// How many members are sorted without a tree: each one that is put in moves those behind it.
const FEW: usize = 64;

fn ascend_after(name: &str, members: &[Member<'_>]) -> bool
    ensures { result ≡ ascend_after name.now (members_view members.now) }
{
    let mut last = name;
    for (next, _) in members {
        if !last.cmp(next).is_lt() {
            return false;
        }
        last = next;
    }
    true
}

/// Whether the names ascend strictly.
fn ascend(members: &[Member<'_>]) -> bool
    ensures { result ≡ ascend (members_view members.now) }
{
    match members {
        [] => true,
        [first, others @ ..] => ascend_after(first.0, others),
    }
}

fn few_sorted<'a>(alloc: Global, members: Vec<Member<'a>>) -> Result<Vec<Member<'a>>, Memory>
    requires { vec_len members ≤ 64 }
    ensures { IfOk result (λ found. members_view found.items ≡ put_all (members_view members.entry.items) no_members) }
{
    let mut found = Rows::from_vec(Vec::with_capacity(alloc, members.len())?);
    for (name, part) in members {
        drop(found.set(name, part)?);
    }
    Ok(found.into_vec())
}

fn many_sorted<'a>(alloc: Global, members: Vec<Member<'a>>) -> Result<Vec<Member<'a>>, Memory>
    requires { 64 < vec_len members }
    ensures { IfOk result (λ found. members_view found.items ≡ put_all (members_view members.entry.items) no_members) }
{
    let mut found = BTreeMap::new(alloc);
    for (name, part) in members {
        drop(found.insert(name, part)?);
    }
    Ok(found.into_iter().collect(alloc)?)
}

/// The members put in the order of their names. Of a name that stands twice the last value counts.
#[tactic(auto, using(crate::proofs::Trees::in_order_already))]
pub fn in_order<'a>(alloc: Global, members: Vec<Member<'a>>) -> Result<Vec<Member<'a>>, Memory>
    ensures { IfOk result (λ found. members_view found.items ≡ put_all (members_view members.entry.items) no_members) }
{
    if ascend(members.as_slice()) {
        Ok(members)
    } else if members.len() <= FEW {
        few_sorted(alloc, members)
    } else {
        many_sorted(alloc, members)
    }
}
