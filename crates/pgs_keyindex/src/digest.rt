ghost use Rattle.std.specs.Prelude.{◌≡◌, ◌+◌, ◌*◌, ◌^◌};
ghost use Rattle.std.specs.Hash as fed;
ghost use Rattle.std.specs.Cmp.Rules.{hashing};
ghost use Rattle.std.proofs.Common.{rules};
ghost use Rattle.pgs_keyindex.specs.Digests.{digest_of, fed_part, fed_value, hash_of};
ghost use Rattle.pgs_keyindex.specs.MemberLaws.{exact_digest};

use pgs_base::{Elem, Part, Seed, Tuple, Value};
use pgs_tables::{Number, Numeric};
use std::hash::{BuildHasher, DefaultHasher, Hash, Hasher};

/// The digest of a tuple under a key. Others may have the same.
#[derive(Clone, Copy, PartialEq, Eq, PartialOrd, Ord)]
pub(crate) struct Digest {
    pub(crate) key: u32,
    pub(crate) hash: u32,
}

impl Digest {
    /// The digest of a tuple, hashed by a seed.
    #[tactic(auto, unfolding(crate::specs::Digests::digest_of))]
    pub(crate) fn of(seed: Seed, key: u32, tuple: &Tuple) -> Digest
        ensures { result ≡ digest_of seed key tuple.now }
    {
        let hash = hash_of(seed, tuple) % (1 << 32);
        Digest {
            key,
            hash: hash as u32,
        }
    }
}

/// What a tuple hashes to by a seed: a number that equal tuples have in common, and others hardly ever.
pub fn hash_of(seed: Seed, tuple: &Tuple) -> u64
    ensures { result ≡ hash_of seed tuple.now }
{
    let mut hasher = seed.build_hasher();
    let parts = tuple.parts();
    for part in parts {
        feed(part, &mut hasher);
    }
    hasher.finish()
}

fn feed(part: &Part, hasher: &mut DefaultHasher)
    ensures { hasher.new ≡ fed_part hasher.old part.now }
{
    match part {
        Part::Value(value) => feed_value(value, hasher),
        Part::Elem(Elem::Node(id)) => id.0.hash(hasher),
        Part::Elem(Elem::Edge(id)) => id.0.hash(hasher),
    }
}

fn feed_value(value: &Value, hasher: &mut DefaultHasher)
    ensures { hasher.new ≡ fed_value hasher.old value.now }
{
    match value {
        Value::Text(text) => text.text().hash(hasher),
        Value::Int(number) => number.hash(hasher),
        Value::Bool(truth) => truth.hash(hasher),
        Value::Date(day) => {
            day.year().hash(hasher);
            day.month().hash(hasher);
            day.day().hash(hasher);
        }
    }
}

// One write of one word. Digests that differ are written apart: the key is the high half, and the hash the low one.
impl Hash for Digest {
    ghost hash_input = { λ d. fed.u64 (d.key * 2 ^ 32 + d.hash) };

    ghost respects_eq = { Prim.search (hashing, rules) };

    fn hash<H: Hasher>(&self, state: &mut H) {
        state.write_u64(u64::from(self.key) * (1 << 32) + u64::from(self.hash));
    }
}

impl Numeric for Digest {
    fn number(&self) -> u64 {
        u64::from(self.hash)
    }
}

impl Number for Digest {
    ghost exact = { exact_digest };
}
