//! Answers that were noted of nodes at variables.

ghost use Rattle.std.specs.Prelude.{◌≡◌, ℕ, cond, true, false, Some, None};
ghost use Rattle.pgs_base.specs.declared.element.NodeId.{NodeId};
ghost use Rattle.pgs_match.specs.Answers.{noted, is_same_place};

use pgs_base::NodeId;
use std::alloc::Global;
use std::collections::BTreeMap;

/// Of nodes at variables, as far as it was noted: whether each is admitted there and can be given all that hangs there.
#[derive(Drop)]
pub(crate) struct Answers {
    by_place: BTreeMap<(u32, u64), bool>,
    // Some answer wasn't noted for want of memory.
    pub(crate) is_full: bool,
}

impl Answers {
    /// Nothing is noted. It takes no memory.
    pub(crate) fn new(alloc: Global) -> Answers
        ensures none { (var : ℕ) (id : NodeId) → noted result var id ≡ None }
        ensures room { result.is_full ≡ false }
    {
        Answers {
            by_place: BTreeMap::new(alloc),
            is_full: false,
        }
    }

    /// What was noted of a node at a variable, if anything was.
    pub(crate) fn of(&self, var: u32, id: NodeId) -> Option<bool>
        ensures { result ≡ noted self.now var id }
    {
        self.by_place.get(&(var, id.0)).copied()
    }

    /// Notes an answer of a node at a variable. Where there is no memory for it nothing more is noted.
    pub(crate) fn note(&mut self, var: u32, id: NodeId, answer: bool)
        ensures noted { self.new.is_full ≡ false → (of : ℕ) (other : NodeId) →
            noted self.new of other ≡ cond (is_same_place var id of other) (Some answer) (noted self.old of other) }
        ensures full { self.new.is_full ≡ true → (of : ℕ) (other : NodeId) → noted self.new of other ≡ noted self.old of other }
        ensures stays { self.old.is_full ≡ true → self.new.is_full ≡ true }
    {
        if self.is_full {
            return;
        }
        match self.by_place.insert((var, id.0), answer) {
            Ok(_) => {}
            Err(_) => self.is_full = true,
        }
    }
}
