ghost use Rattle.std.specs.Prelude.{◌≡◌, [], true, OnOk, if◌then◌else◌, Some};
ghost use Rattle.std.specs.BTreeMap.{is_at};
ghost use Rattle.std.specs.List.{list_all};
ghost use Rattle.pgs_base.specs.declared.element.Elem.{Elem as Element};
ghost use Rattle.pgs_base.specs.Order.{elem_cmp};
ghost use Rattle.pgs_sessions.specs.Changes.{last_in, has_room, number_after, IsSame};

use pgs_base::{EdgeId, Elem, Memory, NodeId, Seed};
use pgs_tables::Numbered;
use std::alloc::Global;

/// The last commit that changed each element, for those that one changed.
#[derive(Drop)]
pub(crate) struct Changes {
    nodes: Numbered<NodeId, u64>,
    edges: Numbered<EdgeId, u64>,
}

impl Changes {
    /// No element was changed.
    pub fn new(alloc: Global, seed: Seed) -> Changes
        ensures nodes { result.nodes.rows ≡ [] }
        ensures edges { result.edges.rows ≡ [] }
    {
        Changes {
            nodes: Numbered::new(alloc, seed),
            edges: Numbered::new(alloc, seed),
        }
    }

    /// The last commit that changed an element.
    pub fn last(&self, elem: Elem) -> Option<u64>
        ensures { result ≡ last_in self.now elem }
    {
        match elem {
            Elem::Node(id) => self.nodes.get(id).copied(),
            Elem::Edge(id) => self.edges.get(id).copied(),
        }
    }

    // Makes room for the number of an element.
    fn make_room(&mut self, elem: Elem) -> Result<(), Memory>
        ensures same { IsSame self.old self.new }
        ensures there { OnOk result (has_room self.new elem ≡ true) }
        ensures kept { (other : Element) → has_room self.old other ≡ true → has_room self.new other ≡ true }
    {
        match elem {
            Elem::Node(id) => self.nodes.make_slot(id),
            Elem::Edge(id) => self.edges.make_slot(id),
        }
    }

    /// Makes room for the numbers of elements.
    pub fn make_room_for(&mut self, elems: &[Elem]) -> Result<(), Memory>
        ensures same { IsSame self.old self.new }
        ensures there { OnOk result (list_all (has_room self.new) elems.now ≡ true) }
    {
        for elem in elems {
            self.make_room(*elem)?;
        }
        Ok(())
    }

    // Keeps the number of a commit for an element.
    fn set(&mut self, elem: Elem, commit: u64)
        requires { has_room self.old elem ≡ true }
        ensures set { (other : Element) → last_in self.new other ≡ if is_at (elem_cmp elem) other then Some commit else last_in self.old other }
        ensures room { (other : Element) → has_room self.new other ≡ has_room self.old other }
    {
        match elem {
            Elem::Node(id) => self.nodes.put(id, commit),
            Elem::Edge(id) => self.edges.put(id, commit),
        }
    }

    /// Keeps the number of a commit for elements.
    pub fn set_all(&mut self, elems: Vec<Elem>, commit: u64)
        requires { list_all (has_room self.old) elems.items ≡ true }
        ensures { (other : Element) → last_in self.new other ≡ number_after commit other (last_in self.old other) elems.items }
    {
        for elem in elems {
            self.set(elem, commit);
        }
    }

    /// Gives room back that no number took, where that is more than half.
    pub fn tidy(&mut self)
        ensures { IsSame self.old self.new }
    {
        self.nodes.clear_slots();
        self.edges.clear_slots();
    }
}
