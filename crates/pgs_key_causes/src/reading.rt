//! How a visit of a walk is read from where the walk comes.

ghost use Rattle.std.specs.Prelude.{◌≡◌, ◌+◌, IfOk, OnOk, ◌++◌};
ghost use Rattle.pgs_key_causes.specs.Reading.{arrow, is_forward, text_at, ahead, back, edge_reading, node_reading, reading};

use crate::Visit;
use pgs_base::{Bytes, Memory};
use pgs_base_text::TextBuffer;
use std::alloc::Global;

// Room for the text of a step.
const ROOM: usize = 64;

/// The texts of all places, and whether each edge place leads to the node place behind it.
#[derive(Clone, Copy)]
pub(crate) struct Readings<'a> {
    pub(crate) texts: &'a [Bytes],
    pub(crate) directions: &'a [bool],
}

/// Whether the edge place of a number leads to the node place behind it.
pub(crate) fn is_forward(directions: &[bool], place: usize) -> bool
    ensures { result ≡ is_forward directions.now place }
{
    match directions.get(place) {
        Some(forward) => *forward,
        None => true,
    }
}

// Puts an edge last, along its direction or against it.
fn push_arrow(forward: bool, edge: &[u8], text: &mut TextBuffer) -> Result<(), Memory>
    ensures { OnOk result (text.new ≡ text.old ++ arrow forward edge.now) }
{
    if forward {
        text.push(b"-")?;
        text.push(edge)?;
        text.push(b"->")
    } else {
        text.push(b"<-")?;
        text.push(edge)?;
        text.push(b"-")
    }
}

impl Readings<'_> {
    fn text_at(&self, place: usize) -> &[u8]
        ensures { result.now ≡ text_at self.now.texts.now self.now.directions.now place }
    {
        match self.texts.get(place) {
            Some(text) => text.as_slice(),
            None => b"",
        }
    }

    // The text of the place behind one.
    fn text_behind(&self, place: usize) -> &[u8]
        ensures { result.now ≡ text_at self.now.texts.now self.now.directions.now (place + 1) }
    {
        let _count = self.texts.len();
        match place.checked_add(1) {
            Some(next) => self.text_at(next),
            None => b"",
        }
    }

    fn push_ahead(&self, edge: usize, text: &mut TextBuffer) -> Result<(), Memory>
        ensures { OnOk result (text.new ≡ text.old ++ ahead self.now.texts.now self.now.directions.now edge) }
    {
        push_arrow(is_forward(self.directions, edge), self.text_at(edge), text)
    }

    fn push_back(&self, edge: usize, text: &mut TextBuffer) -> Result<(), Memory>
        ensures { OnOk result (text.new ≡ text.old ++ back self.now.texts.now self.now.directions.now edge) }
    {
        push_arrow(!is_forward(self.directions, edge), self.text_at(edge), text)
    }

    // Puts an edge place last, as it is read from another place or from itself.
    fn push_edge(&self, edge: usize, from: usize, text: &mut TextBuffer) -> Result<(), Memory>
        ensures { OnOk result (text.new ≡ text.old ++ edge_reading self.now.texts.now self.now.directions.now edge from) }
    {
        if from == edge {
            return self.push_ahead(edge, text);
        }
        if from < edge {
            self.push_ahead(edge, text)?;
            return text.push(self.text_behind(edge));
        }
        self.push_back(edge, text)?;
        text.push(self.text_at(edge.saturating_sub(1)))
    }

    // Puts a node place last, as it is read from another place or from itself.
    fn push_node(&self, node: usize, from: usize, text: &mut TextBuffer) -> Result<(), Memory>
        ensures { OnOk result (text.new ≡ text.old ++ node_reading self.now.texts.now self.now.directions.now node from) }
    {
        if from == node {
            return text.push(self.text_at(node));
        }
        if from < node {
            self.push_ahead(node - 1, text)?;
            return text.push(self.text_at(node));
        }
        if from == node + 1 {
            text.push(self.text_at(node))?;
            return self.push_ahead(from, text);
        }
        self.push_back(node + 1, text)?;
        text.push(self.text_at(node))
    }

    // Puts what a visit is read as last.
    fn push(&self, is_edge: bool, visit: &Visit, text: &mut TextBuffer) -> Result<(), Memory>
        ensures { OnOk result (text.new ≡ text.old ++ reading self.now.texts.now self.now.directions.now is_edge visit.now) }
    {
        if is_edge {
            self.push_edge(visit.place, visit.from, text)
        } else {
            self.push_node(visit.place, visit.from, text)
        }
    }

    /// What a visit of an edge place or of a node place is read as.
    pub(crate) fn reading(
        &self,
        alloc: Global,
        is_edge: bool,
        visit: &Visit,
    ) -> Result<Bytes, Memory>
        ensures { IfOk result (λ text. text ≡ reading self.now.texts.now self.now.directions.now is_edge visit.now) }
    {
        let mut text = TextBuffer::with_room(alloc, ROOM)?;
        self.push(is_edge, visit, &mut text)?;
        Ok(text.into_bytes())
    }
}
