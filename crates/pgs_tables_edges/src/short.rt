ghost use Rattle.std.specs.Prelude.{◌≡◌, ◌<◌, ◌≤◌, ◌+◌, ◌++◌, [], ◌∷◌, length, take, drop, IfSome};

use pgs_base::EdgeId;
use std::marker::Model;

/// The most ids that stand in the list itself: with them it is as large as a block.
pub const MOST: usize = 3;

/// At most three ids, which take no memory beside the list, while they are gathered. Contracts see the list of them.
#[derive(Drop)]
pub struct Short {
    len: u32,
    ids: [EdgeId; MOST],
}

impl Model for Short {
    ghost use Rattle.std.specs.Prelude.{◌≤◌, List, take};
    ghost use Rattle.pgs_base.specs.declared.element.EdgeId.{EdgeId};

    ghost Value = { List EdgeId };

    ghost view = { λ short. take short.len short.ids };

    ghost invariant = { λ short. short.len ≤ 3 };
}

impl Short {
    /// No ids.
    pub fn new() -> Short
        ensures { result ≡ [] }
    {
        Short {
            len: 0,
            ids: [EdgeId(0); MOST],
        }
    }

    /// How many ids there are, and an array that begins with them.
    pub fn into_parts(self) -> (u32, [EdgeId; MOST])
        ensures value { take result.0 result.1 ≡ self }
        ensures few { result.0 ≤ 3 }
    {
        let Short { len, ids } = self;
        (len, ids)
    }

    // Puts an id last.
    fn push(&mut self, id: EdgeId)
        requires { length self.old < 3 }
        ensures { self.new ≡ self.old ++ id ∷ [] }
    {
        self.ids[self.len as usize] = id;
        self.len += 1;
    }

    // Puts ids last.
    fn append(&mut self, ids: &[EdgeId])
        requires { length self.old + length ids.now ≤ 3 }
        ensures { self.new ≡ self.old ++ ids.now }
    {
        for id in ids {
            self.push(*id);
        }
    }
}

/// At most three ids.
pub fn short_of(ids: &[EdgeId]) -> Short
    requires { length ids.now ≤ 3 }
    ensures { result ≡ ids.now }
{
    let mut short = Short::new();
    short.append(ids);
    short
}

/// Some ids with others in the place of a range, where these are at most three in all.
pub fn spliced_short(block: &[EdgeId], range: (usize, usize), ids: &[EdgeId]) -> Option<Short>
    ensures { IfSome result (λ short. short ≡ take range.0 block.now ++ (ids.now ++ drop range.1 block.now)) }
{
    let (from, to) = range;
    let before = &block[..from.min(block.len())];
    let after = &block[to.min(block.len())..];
    let count = before
        .len()
        .saturating_add(ids.len())
        .saturating_add(after.len());
    if MOST < count {
        return None;
    }
    let mut short = short_of(before);
    short.append(ids);
    short.append(after);
    Some(short)
}
