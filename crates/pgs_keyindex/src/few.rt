ghost use Rattle.std.specs.Prelude.{◌≡◌, ◌↔◌, [], ◌∷◌, IfOk, IsTrue};
ghost use Rattle.pgs_keyindex.specs.Few.{elems_lent};

use pgs_base::{Boxed, EdgeId, Elem, List, Memory, NodeId};
use std::alloc::Global;
use std::marker::Model;
use std::slice;

/// Elements in order. None or one of them, as nearly everywhere, takes no memory.
pub(crate) struct Few {
    kept: Kept,
}

// No more than an `Elem` takes: there is one for each value of an exclusive key, and hardly any has several elements.
const _: () = prove!(size_of::<Few>() == 16);

// Several stand in a box, and one by the number of its kind, so that each kind is one word beside the tag.
#[derive(Drop)]
pub(crate) enum Kept {
    Nothing,
    Node(NodeId),
    Edge(EdgeId),
    Many(Boxed<List<Elem>>),
}

impl Model for Few {
    ghost use Rattle.std.specs.Prelude.{List as Items};
    ghost use Rattle.pgs_base.specs.declared.element.Elem.{Elem};
    ghost use Rattle.pgs_keyindex.specs.Few.{elems_of};

    ghost Value = { Items Elem };

    ghost view = { λ few. elems_of few.kept };
}

impl Drop for Few {
    fn drop(self) {
        let Few { kept: _ } = self;
    }
}

impl Few {
    /// One element.
    pub(crate) fn one(elem: Elem) -> Few
        ensures { result ≡ elem ∷ [] }
    {
        let kept = match elem {
            Elem::Node(id) => Kept::Node(id),
            Elem::Edge(id) => Kept::Edge(id),
        };
        Few { kept }
    }

    /// The elements of a list. `Memory` where none was left for them; fewer than two ask for none.
    pub(crate) fn many(alloc: Global, elems: List<Elem>) -> Result<Few, Memory>
        ensures { IfOk result (λ few. few ≡ elems) }
    {
        match elems.as_slice() {
            [] => Ok(Few {
                kept: Kept::Nothing,
            }),
            [elem] => Ok(Few::one(*elem)),
            _ => {
                let elems = Boxed::new(alloc, elems)?;
                Ok(Few {
                    kept: Kept::Many(elems),
                })
            }
        }
    }

    /// Whether there is none.
    pub(crate) fn is_empty(&self) -> bool
        ensures { IsTrue result ↔ (self.now ≡ []) }
    {
        self.lend().as_slice().is_empty()
    }

    /// The elements, lent.
    pub(crate) fn lend(&self) -> Lent<'_>
        ensures { elems_lent result ≡ self.now }
    {
        match &self.kept {
            Kept::Nothing => Lent::Many(&[]),
            Kept::Node(id) => Lent::One(Elem::Node(*id)),
            Kept::Edge(id) => Lent::One(Elem::Edge(*id)),
            Kept::Many(elems) => Lent::Many(elems.get().as_slice()),
        }
    }
}

/// Elements in order, lent. One of them is a copy, since it isn't kept as an `Elem`.
#[derive(Clone, Copy)]
pub(crate) enum Lent<'a> {
    One(Elem),
    Many(&'a [Elem]),
}

impl<'a> Lent<'a> {
    /// The elements, in order.
    pub(crate) fn as_slice(&self) -> &[Elem]
        ensures { result.now ≡ elems_lent self.now }
    {
        match self {
            Lent::One(elem) => slice::from_ref(elem),
            Lent::Many(elems) => elems,
        }
    }
}
