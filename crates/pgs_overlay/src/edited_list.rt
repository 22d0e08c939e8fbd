ghost use Rattle.std.specs.Prelude.{◌≡◌, ℕ, ◌+◌, ◌<◌, ◌≤◌, List, [], ◌∷◌, ◌++◌, length, take, drop, slice_get, OnOk};
ghost use Rattle.std.specs.List.{flat_map};
ghost use Rattle.pgs_base.specs.declared.element.EdgeId.{EdgeId};
ghost use Rattle.pgs_tables_edges.specs.Starts.{StartFrom};
ghost use Rattle.pgs_overlay.specs.Parts.{part_items, items, first_item, built, listed, StandsOn, IsBuiltOn};

use crate::base_list::BaseList;
use crate::part::{Part, Placed};
use pgs_base::{EdgeId, Memory, Steps};
use pgs_graph::GraphRead;
use std::alloc::Global;
use std::sync::ledger::Ledger;

/// A list of edges of a node as a delta leaves it: parts that are built, and behind them what the base's list has from the place `done` on.
#[derive(Drop)]
pub struct EditedList {
    pub parts: Vec<Placed>,
    pub len: usize,
    pub done: usize,
}

impl EditedList {
    /// The base's list as it is. It takes no memory.
    pub fn new(alloc: Global) -> EditedList
        ensures parts { result.parts.items ≡ [] }
        ensures done { result.done ≡ 0 }
        ensures stands { (xs : List EdgeId) → StandsOn xs result }
    {
        EditedList {
            parts: Vec::new(alloc),
            len: 0,
            done: 0,
        }
    }

    // Builds a part of so many edges, at least one.
    fn push(&mut self, part: Part, count: usize) -> Result<(), Memory>
        ensures { (xs : List EdgeId) → StandsOn xs self.old → length (part_items xs part) ≡ count → 0 < count →
            OnOk result (IsBuiltOn xs (part_items xs part) self.old.done self.old self.new) }
    {
        let start = self.len;
        let Some(len) = start.checked_add(count) else {
            return Err(Memory);
        };
        self.parts.push(Placed { start, part })?;
        self.len = len;
        Ok(())
    }

    // Builds what the base's list has up to a place.
    fn build_to(&mut self, place: usize) -> Result<(), Memory>
        ensures { (xs : List EdgeId) → StandsOn xs self.old → self.old.done ≤ place → place ≤ length xs →
            OnOk result (IsBuiltOn xs (drop self.old.done (take place xs)) place self.old self.new) }
    {
        let from = self.done;
        if from < place {
            self.push(Part::Range { from, to: place }, place - from)?;
        }
        self.done = place;
        Ok(())
    }

    /// Takes the edge at a place of the base's list out.
    pub fn take_out(&mut self, place: usize) -> Result<(), Memory>
        ensures { (xs : List EdgeId) → StandsOn xs self.old → self.old.done ≤ place → place < length xs →
            OnOk result (IsBuiltOn xs (drop self.old.done (take place xs)) (place + 1) self.old self.new) }
    {
        let Some(after) = place.checked_add(1) else {
            return Err(Memory);
        };
        self.build_to(place)?;
        self.done = after;
        Ok(())
    }

    /// Puts an edge in before a place of the base's list.
    pub fn put_in(&mut self, place: usize, edge: EdgeId) -> Result<(), Memory>
        ensures { (xs : List EdgeId) → StandsOn xs self.old → self.old.done ≤ place → place ≤ length xs →
            OnOk result (IsBuiltOn xs (drop self.old.done (take place xs) ++ edge ∷ []) place self.old self.new) }
    {
        self.build_to(place)?;
        self.push(Part::Added(edge), 1)
    }

    /// The edge at a place of the list, over the base's list, with one tick. `None` exactly past the last.
    pub fn edge_at<B: GraphRead, L: Ledger>(
        &self,
        base: &BaseList<'_, B>,
        place: usize,
        steps: &mut Steps<L>,
    ) -> Option<EdgeId>
        requires { StandsOn base.now self.now }
        ensures value { result ≡ slice_get (listed base.now self.now) place }
        ensures tick { steps.new ≡ steps.old + 1 }
    {
        if place < self.len {
            self.built_at(base, place, steps)
        } else {
            self.kept_at(base, place - self.len, steps)
        }
    }

    // The edge at a place among those that are built.
    fn built_at<B: GraphRead, L: Ledger>(
        &self,
        base: &BaseList<'_, B>,
        place: usize,
        steps: &mut Steps<L>,
    ) -> Option<EdgeId>
        requires stands { StandsOn base.now self.now }
        requires within { place < self.now.len }
        ensures value { result ≡ slice_get (built base.now self.now) place }
        ensures tick { steps.new ≡ steps.old + 1 }
    {
        let parts = self.parts.as_slice();
        let placed = &parts[part_at(parts, place)];
        match &placed.part {
            Part::Range { from, to } => {
                // The place is in the range, so the bound changes nothing: it keeps the sum small.
                let offset = (place - placed.start).min(to.saturating_sub(*from));
                base.at(*from + offset, steps)
            }
            Part::Added(edge) => {
                steps.tick();
                Some(*edge)
            }
        }
    }

    // The edge at a place among those behind what is built.
    fn kept_at<B: GraphRead, L: Ledger>(
        &self,
        base: &BaseList<'_, B>,
        place: usize,
        steps: &mut Steps<L>,
    ) -> Option<EdgeId>
        ensures value { result ≡ slice_get (drop self.now.done base.now) place }
        ensures tick { steps.new ≡ steps.old + 1 }
    {
        base.facts();
        base.at(self.done.saturating_add(place), steps)
    }
}

// The part in which the edge at a place stands.
fn part_at(parts: &[Placed], place: usize) -> usize
    ensures { (xs : List EdgeId) → StartFrom (λ placed. placed.start) (first_item xs) (items xs) 0 parts.now →
        place < length (flat_map (items xs) parts.now) →
        (result < length parts.now) × (length (flat_map (items xs) (take result parts.now)) ≤ place)
        × (place < length (flat_map (items xs) (take (result + 1) parts.now))) }
{
    let mut low = 0;
    let mut high = parts.len();
    while high - low > 1 {
        let middle = low + (high - low) / 2;
        if parts[middle].start <= place {
            low = middle;
        } else {
            high = middle;
        }
    }
    low
}
