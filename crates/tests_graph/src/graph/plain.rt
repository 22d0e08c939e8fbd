//! A plain program of the definition of staging, over a graph in two lists with a place for each number.

ghost use Rattle.std.specs.Prelude.{◌<◌};

use super::listing::Range;
use crate::told::Told;
use pgs_base::{EdgeId, Elem, Labels, Limits, Memory, Name, NodeId, Props, Value};
use pgs_graph::{Op, Txn};
use pgs_violation::{Cause, Structural};
use std::alloc::Global;

/// The names of labels and of keys.
const NAMES: [&str; 3] = ["p0", "p1", "p2"];

/// What an element carries.
#[derive(Clone, Copy)]
struct Carried {
    labels: [bool; 3],
    props: [Option<i64>; 3],
}

#[derive(Clone, Copy)]
struct PlainEdge {
    /// Its source and its target.
    ends: (u64, u64),
    carried: Carried,
}

/// A place for each number, and how many are taken.
#[derive(Drop)]
struct Places<T> {
    rows: Vec<Option<T>>,
    count: u64,
}

#[derive(Drop)]
pub struct Plain {
    nodes: Places<Carried>,
    edges: Places<PlainEdge>,
}

/// Why an operation can't be done: 23 with its cause, or 38.
enum Fault {
    Unable(Cause),
    TooLarge,
}

fn no_node<T>(id: u64) -> Result<T, Fault> {
    Err(Fault::Unable(Cause::NoNode(NodeId(id))))
}

/// The place of a name.
fn place(name: &Name) -> usize
    ensures { result < 3 }
{
    match name.bytes() {
        [_, b'0'] => 0,
        [_, b'1'] => 1,
        _ => 2,
    }
}

/// The number of a value.
fn number(value: &Value) -> Option<i64> {
    match value {
        Value::Int(number) => Some(*number),
        _ => None,
    }
}

impl Carried {
    fn new(labels: &Labels, props: &Props) -> Carried {
        let mut carried = Carried {
            labels: [false; 3],
            props: [None; 3],
        };
        for label in labels.as_slice() {
            carried.labels[place(label)] = true;
        }
        for (key, value) in props.as_slice() {
            carried.props[place(key)] = number(value);
        }
        carried
    }

    fn change(&mut self, op: &Op) {
        match op {
            Op::SetNode { key, value, .. } | Op::SetEdge { key, value, .. } => {
                self.props[place(key)] = number(value);
            }
            Op::UnsetNode { key, .. } | Op::UnsetEdge { key, .. } => self.props[place(key)] = None,
            Op::LabelNode { label, .. } | Op::LabelEdge { label, .. } => {
                self.labels[place(label)] = true;
            }
            Op::UnlabelNode { label, .. } | Op::UnlabelEdge { label, .. } => {
                self.labels[place(label)] = false;
            }
            _ => {}
        }
    }

    fn tell(&self, told: &mut Told) {
        for place in 0..3usize {
            if self.labels[place] {
                told.word(" :");
                told.word(NAMES[place]);
            }
        }
        for place in 0..3usize {
            if let Some(number) = self.props[place] {
                told.word(" ");
                told.word(NAMES[place]);
                told.signed("=", number);
            }
        }
    }
}

/// Tells the edges at a node, whose place is given, and gives the place of those at the next one.
fn tell_at(ends: &[(u64, u64)], first: usize, node: u64, before: &str, told: &mut Told) -> usize {
    for place in first..ends.len() {
        let (end, edge) = ends[place];
        if end != node {
            return place;
        }
        told.number(before, edge);
    }
    ends.len()
}

impl<T: Copy + Drop> Places<T> {
    fn new(alloc: Global, count: u64) -> Result<Places<T>, Memory> {
        let mut rows = Vec::new(alloc);
        for _ in 0..count {
            rows.push(None)?;
        }
        Ok(Places { rows, count: 0 })
    }

    fn copy(&self, alloc: Global) -> Result<Places<T>, Memory> {
        let mut rows = Vec::new(alloc);
        rows.extend_from_slice(self.rows.as_slice())?;
        let count = self.count;
        Ok(Places { rows, count })
    }

    fn len(&self) -> u64 {
        self.rows.len() as u64
    }

    fn get(&self, id: u64) -> Option<T> {
        match self.rows.get(id as usize) {
            Some(row) => *row,
            None => None,
        }
    }

    fn put(&mut self, id: u64, row: Option<T>) {
        let others = self.count.saturating_sub(u64::from(self.get(id).is_some()));
        self.count = others.saturating_add(u64::from(row.is_some()));
        if let Some(there) = self.rows.get_mut(id as usize) {
            *there = row;
        }
    }

    fn tell_ids(&self, told: &mut Told) {
        for id in 0..self.len() {
            if self.get(id).is_some() {
                told.number(" ", id);
            }
        }
        told.word(" |");
    }
}

impl Plain {
    /// The empty graph, with places for so many numbers.
    pub fn new(alloc: Global, range: Range) -> Result<Plain, Memory> {
        Ok(Plain {
            nodes: Places::new(alloc, range.0)?,
            edges: Places::new(alloc, range.1)?,
        })
    }

    pub fn copy(&self, alloc: Global) -> Result<Plain, Memory> {
        Ok(Plain {
            nodes: self.nodes.copy(alloc)?,
            edges: self.edges.copy(alloc)?,
        })
    }

    fn least_edge(&self, node: u64) -> Option<u64> {
        for id in 0..self.edges.len() {
            if let Some(edge) = self.edges.get(id) {
                if edge.ends.0 == node || edge.ends.1 == node {
                    return Some(id);
                }
            }
        }
        None
    }

    fn add_node(&mut self, id: u64, labels: &Labels, props: &Props) -> Result<(), Fault> {
        if self.nodes.get(id).is_some() {
            return Err(Fault::Unable(Cause::AlreadyThere(Elem::Node(NodeId(id)))));
        }
        if labels.len() > 64 {
            return Err(Fault::TooLarge);
        }
        self.nodes.put(id, Some(Carried::new(labels, props)));
        Ok(())
    }

    fn add_edge(&mut self, id: u64, ends: (u64, u64), carried: Carried) -> Result<(), Fault> {
        if self.edges.get(id).is_some() {
            return Err(Fault::Unable(Cause::AlreadyThere(Elem::Edge(EdgeId(id)))));
        }
        for node in &[ends.0, ends.1] {
            if self.nodes.get(*node).is_none() {
                return no_node(*node);
            }
        }
        self.edges.put(id, Some(PlainEdge { ends, carried }));
        Ok(())
    }

    fn remove_node(&mut self, id: u64, detaches: bool) -> Result<(), Fault> {
        if self.nodes.get(id).is_none() {
            return no_node(id);
        }
        for _ in 0..self.edges.len() {
            let Some(edge) = self.least_edge(id) else {
                break;
            };
            if !detaches {
                return Err(Fault::Unable(Cause::HasEdges(NodeId(id), EdgeId(edge))));
            }
            self.edges.put(edge, None);
        }
        self.nodes.put(id, None);
        Ok(())
    }

    fn remove_edge(&mut self, id: u64) -> Result<(), Fault> {
        if self.edges.get(id).is_none() {
            return Err(Fault::Unable(Cause::NoEdge(EdgeId(id))));
        }
        self.edges.put(id, None);
        Ok(())
    }

    fn change_node(&mut self, id: u64, op: &Op) -> Result<(), Fault> {
        let Some(mut carried) = self.nodes.get(id) else {
            return no_node(id);
        };
        carried.change(op);
        self.nodes.put(id, Some(carried));
        Ok(())
    }

    fn change_edge(&mut self, id: u64, op: &Op) -> Result<(), Fault> {
        let Some(mut edge) = self.edges.get(id) else {
            return Err(Fault::Unable(Cause::NoEdge(EdgeId(id))));
        };
        edge.carried.change(op);
        self.edges.put(id, Some(edge));
        Ok(())
    }

    fn step(&mut self, op: &Op) -> Result<(), Fault> {
        match op {
            Op::AddNode { id, labels, props } => self.add_node(id.0, labels, props),
            Op::AddEdge {
                id,
                source,
                target,
                labels,
                props,
            } => self.add_edge(id.0, (source.0, target.0), Carried::new(labels, props)),
            Op::RemoveNode { id } => self.remove_node(id.0, false),
            Op::DetachNode { id } => self.remove_node(id.0, true),
            Op::RemoveEdge { id } => self.remove_edge(id.0),
            Op::SetNode { id, .. }
            | Op::UnsetNode { id, .. }
            | Op::LabelNode { id, .. }
            | Op::UnlabelNode { id, .. } => self.change_node(id.0, op),
            Op::SetEdge { id, .. }
            | Op::UnsetEdge { id, .. }
            | Op::LabelEdge { id, .. }
            | Op::UnlabelEdge { id, .. } => self.change_edge(id.0, op),
        }
    }

    fn count(&self) -> u64 {
        self.nodes.count.saturating_add(self.edges.count)
    }

    /// Does the operations of a transaction. The refusal, if it has one; then some may have been done.
    fn do_all(&mut self, txn: &Txn, limits: &Limits) -> Option<Structural> {
        let count = txn.ops.len() as u64;
        if count > u64::from(limits.ops) {
            return Some(Structural::TooManyOps { count });
        }
        for (place, op) in txn.ops.as_slice().iter().enumerate() {
            let op_number = (place as u64).saturating_add(1);
            match self.step(op) {
                Ok(()) => {}
                Err(Fault::Unable(cause)) => {
                    return Some(Structural::BadOp {
                        op: op_number,
                        cause,
                    });
                }
                Err(Fault::TooLarge) => return Some(Structural::ElementTooLarge { op: op_number }),
            }
        }
        let count = self.count();
        (count > limits.elements).then_some(Structural::TooManyElements { count })
    }

    /// Applies a transaction. The refusal, if it has one; then the graph is as it was.
    pub fn apply(
        &mut self,
        alloc: Global,
        txn: &Txn,
        limits: &Limits,
    ) -> Result<Option<Structural>, Memory> {
        // One operation that can't be done changes nothing.
        let may_change = txn.ops.len() > 1 || self.count() >= limits.elements;
        let before = if may_change {
            Some(self.copy(alloc)?)
        } else {
            None
        };
        let refusal = self.do_all(txn, limits);
        if let (Some(_), Some(before)) = (refusal, before) {
            *self = before;
        }
        Ok(refusal)
    }

    /// Each edge behind its source, or behind its target.
    fn ends(&self, alloc: Global, of_source: bool) -> Result<Vec<(u64, u64)>, Memory> {
        let mut ends = Vec::new(alloc);
        for id in 0..self.edges.len() {
            if let Some(edge) = self.edges.get(id) {
                let end = if of_source { edge.ends.0 } else { edge.ends.1 };
                ends.push((end, id))?;
            }
        }
        ends.sort_unstable();
        Ok(ends)
    }

    fn tell_nodes(&self, alloc: Global, told: &mut Told) -> Result<(), Memory> {
        let out = self.ends(alloc, true)?;
        let into = self.ends(alloc, false)?;
        let (mut first_out, mut first_in) = (0, 0);
        for id in 0..self.nodes.len() {
            if let Some(carried) = self.nodes.get(id) {
                told.number(" n", id);
                carried.tell(told);
            }
            first_out = tell_at(out.as_slice(), first_out, id, " >", told);
            first_in = tell_at(into.as_slice(), first_in, id, " <", told);
        }
        Ok(())
    }

    fn tell_edges(&self, told: &mut Told) {
        for id in 0..self.edges.len() {
            if let Some(edge) = self.edges.get(id) {
                told.number(" e", id);
                told.number(" ", edge.ends.0);
                told.number(" ", edge.ends.1);
                edge.carried.tell(told);
            }
        }
    }

    /// Tells what a listing of such a graph tells, without the ticks.
    pub fn tell(&self, alloc: Global, told: &mut Told) -> Result<(), Memory> {
        self.nodes.tell_ids(told);
        self.edges.tell_ids(told);
        told.number(" ", self.count());
        told.word(" |");
        self.tell_nodes(alloc, told)?;
        self.tell_edges(told);
        Ok(())
    }

    /// How often the reads of a listing tick: once for each number that is asked for, three times for each node whose edges are asked
    /// for, and once for each number and each edge in a list.
    fn ticks(&self) -> u64 {
        let asked = self
            .nodes
            .len()
            .wrapping_mul(3)
            .wrapping_add(self.edges.len());
        let listed = self
            .nodes
            .count
            .wrapping_add(self.edges.count.wrapping_mul(3));
        asked.wrapping_add(listed)
    }

    /// What a listing of such a graph is.
    pub fn listing(&self, alloc: Global) -> Result<Told, Memory> {
        let mut told = Told::new(alloc);
        self.tell(alloc, &mut told)?;
        told.number(" | ", self.ticks());
        Ok(told)
    }
}
