ghost use Rattle.std.specs.Prelude.{◌≡◌, ◌+◌, ◌*◌, ◌^◌, cond};
ghost use Rattle.std.specs.Hash as fed;
ghost use Rattle.std.specs.Cmp.Rules.{hashing};
ghost use Rattle.std.proofs.Common.{rules};
ghost use Rattle.pgs_keyindex.specs.Members.{member_of};
ghost use Rattle.pgs_keyindex.specs.MemberLaws.{exact_member};

use pgs_base::Elem;
use pgs_tables::{Number, Numeric};
use std::hash::{Hash, Hasher};

/// An element as a member of the scope of a key, in 16 bytes.
#[derive(Clone, Copy, PartialEq, Eq, PartialOrd, Ord)]
pub(crate) struct Member {
    key: u32,
    edge: bool,
    id: u64,
}

impl Member {
    /// The element as a member of the scope of the key of a number.
    pub(crate) fn new(key: u32, elem: Elem) -> Member
        ensures { result ≡ member_of key elem }
    {
        match elem {
            Elem::Node(id) => Member {
                key,
                edge: false,
                id: id.0,
            },
            Elem::Edge(id) => Member {
                key,
                edge: true,
                id: id.0,
            },
        }
    }
}

// One write of two words, where a derived impl makes three of other lengths, which the hasher takes byte by byte. Members that differ are
// written apart: the number is the low word, and the key and the kind are the high one. So whoever chooses numbers finds none that collide
// without the hasher's own keys.
impl Hash for Member {
    ghost hash_input = { λ m. fed.u128 (m.id + (m.key * 2 + cond m.edge 1 0) * 2 ^ 64) };

    ghost respects_eq = { Prim.search (hashing, rules) };

    fn hash<H: Hasher>(&self, state: &mut H) {
        let scope = u128::from(self.key) * 2 + u128::from(self.edge);
        state.write_u128(u128::from(self.id) + scope * (1 << 64));
    }
}

impl Numeric for Member {
    // The last bits of one element's numbers under several keys differ, as those of elements that follow one another do.
    fn number(&self) -> u64 {
        self.id.wrapping_add(u64::from(self.key) * 5)
    }
}

impl Number for Member {
    ghost exact = { exact_member };
}
