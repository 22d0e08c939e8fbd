ghost use Rattle.std.specs.Prelude.{◌≡◌, ◌⊎◌, ◌++◌, ◌∷◌, [], length, map, filter, IfOk, OnOk, IfSome, MatchOption, Some, true, false, slice_get, if◌then◌else◌, ℕ, List};
ghost use Rattle.std.specs.Option.{option_copied, option_map};
ghost use Rattle.pgs_base.specs.Pair.{same_name, has_name};
ghost use Rattle.pgs_syntax.specs.declared.script.Script.{Script};
ghost use Rattle.pgs_resolve_declared.specs.Declarations.{is_node_type, is_edge_type, nodes_of, edges_of};
ghost use Rattle.pgs_resolve_order.specs.Listing.{entry_of, next_of, waiters, AreAlike, Awaits, Stands, IsKept, AllKept};
ghost use Rattle.pgs_resolve_declared.specs.Order.{Entry, listing, node_entry, edge_entry, numbering_of};
ghost use Rattle.pgs_resolve_declared.specs.Tables.{AreOf};

use pgs_base::{Copyable, Memory, Name};
use pgs_resolve_declared::{Declarations, Names, Numbering, split, words_of};
use pgs_syntax::{EdgeType, NodeType};
use std::alloc::Global;
use std::collections::{BTreeMap, BTreeSet};

// A type to be listed: its name, its place, and the types of its kind that it names.
#[derive(Drop)]
struct Item {
    name: Name,
    place: u32,
    names: Vec<Name>,
}

// A type on the way: its place, its number among all, and its names that may not be listed yet.
#[derive(Clone, Copy)]
struct Pending<'a> {
    place: u32,
    number: usize,
    rest: &'a [Name],
}

// The names that are listed, in order; the places and numbers of types that are ready; and types that aren't, each by one
// of its names that isn't listed.
#[derive(Drop)]
struct Queue<'a> {
    listed: Names,
    ready: BTreeSet<(u32, usize)>,
    waiting: BTreeMap<Name, Vec<Pending<'a>>>,
}

fn named_nodes(
    alloc: Global,
    declarations: &Declarations<'_>,
    words: &[Name],
) -> Result<Vec<Name>, Memory>
    ensures { (script : Script) → AreOf script declarations.now → IfOk result (λ names. names.items ≡ filter (is_node_type script) words.now) }
{
    let mut names = Vec::new(alloc);
    for word in words {
        if declarations.is_node(word) {
            names.push(word.copy(alloc)?)?;
        }
    }
    Ok(names)
}

fn named_edges(
    alloc: Global,
    declarations: &Declarations<'_>,
    words: &[Name],
) -> Result<Vec<Name>, Memory>
    ensures { (script : Script) → AreOf script declarations.now → IfOk result (λ names. names.items ≡ filter (is_edge_type script) words.now) }
{
    let mut names = Vec::new(alloc);
    for word in words {
        if declarations.is_edge(word) {
            names.push(word.copy(alloc)?)?;
        }
    }
    Ok(names)
}

fn node_item(
    alloc: Global,
    declarations: &Declarations<'_>,
    node: &NodeType<Name>,
) -> Result<Item, Memory>
    ensures { (script : Script) → AreOf script declarations.now → IfOk result (λ item. entry_of item ≡ node_entry script node.now) }
{
    let words = words_of(alloc, &node.spec)?;
    Ok(Item {
        name: node.name.copy(alloc)?,
        place: node.place,
        names: named_nodes(alloc, declarations, &words)?,
    })
}

fn edge_item(
    alloc: Global,
    declarations: &Declarations<'_>,
    edge: &EdgeType<Name>,
) -> Result<Item, Memory>
    ensures { (script : Script) → AreOf script declarations.now → IfOk result (λ item. entry_of item ≡ edge_entry script edge.now) }
{
    let words = words_of(alloc, &edge.middle)?;
    Ok(Item {
        name: edge.name.copy(alloc)?,
        place: edge.place,
        names: named_edges(alloc, declarations, &words)?,
    })
}

fn node_items(alloc: Global, declarations: &Declarations<'_>) -> Result<Vec<Item>, Memory>
    ensures { (script : Script) → AreOf script declarations.now → IfOk result (λ items. map entry_of items.items ≡ map (node_entry script) (nodes_of script)) }
{
    let mut items = Vec::new(alloc);
    for node in declarations.nodes.as_slice() {
        items.push(node_item(alloc, declarations, node)?)?;
    }
    Ok(items)
}

fn edge_items(alloc: Global, declarations: &Declarations<'_>) -> Result<Vec<Item>, Memory>
    ensures { (script : Script) → AreOf script declarations.now → IfOk result (λ items. map entry_of items.items ≡ map (edge_entry script) (edges_of script)) }
{
    let mut items = Vec::new(alloc);
    for edge in declarations.edges.as_slice() {
        items.push(edge_item(alloc, declarations, edge)?)?;
    }
    Ok(items)
}

// The first name that isn't listed, and those behind it.
fn first_unlisted<'a>(listed: &Names, names: &'a [Name]) -> Option<(&'a Name, &'a [Name])>
    ensures alike { MatchOption result (AreAlike listed.now names.now [])
        (λ next. AreAlike listed.now names.now (next.0.now ∷ next.1.now)) }
    ensures unlisted { IfSome result (λ next. has_name next.0.now listed.now ≡ false) }
{
    let mut rest = names;
    while let Some(next) = split(rest) {
        if !listed.contains(next.0) {
            return Some(next);
        }
        rest = next.1;
    }
    None
}

// Takes what waits for a name.
fn take_waiting<'a>(
    alloc: Global,
    waiting: &mut BTreeMap<Name, Vec<Pending<'a>>>,
    name: &Name,
) -> Vec<Pending<'a>>
    ensures taken { result.items ≡ waiters waiting.old name.now }
    ensures others { (other : List ℕ) → waiters waiting.new other ≡ (if same_name name.now other then [] else waiters waiting.old other) }
{
    match waiting.remove(name) {
        Some(pending) => pending,
        None => Vec::new(alloc),
    }
}

// Lets a type wait for a name.
fn wait<'a>(
    alloc: Global,
    waiting: &mut BTreeMap<Name, Vec<Pending<'a>>>,
    name: &Name,
    pending: Pending<'a>,
) -> Result<(), Memory>
    ensures { OnOk result ((other : List ℕ) → waiters waiting.new other ≡
        (if same_name name.now other then waiters waiting.old other ++ pending.entry ∷ [] else waiters waiting.old other)) }
{
    let mut all = take_waiting(alloc, waiting, name);
    all.push(pending)?;
    waiting.insert(name.copy(alloc)?, all)?;
    Ok(())
}

// The item of a number, where its name isn't listed.
fn unlisted_item<'a>(listed: &Names, items: &'a [Item], number: usize) -> Option<&'a Item>
    ensures { MatchOption result ((entry : Entry) → slice_get (map entry_of items.now) number ≡ Some entry → has_name entry.name listed.now ≡ true)
        (λ item. (slice_get (map entry_of items.now) number ≡ Some (entry_of item.now)) × (has_name item.now.name listed.now ≡ false)) }
{
    match items.get(number) {
        Some(item) => {
            if listed.contains(&item.name) {
                None
            } else {
                Some(item)
            }
        }
        None => None,
    }
}

impl<'a> Queue<'a> {
    // Puts a type where it belongs: it is ready, or it waits for the first of its names that isn't listed.
    fn settle(&mut self, alloc: Global, pending: Pending<'a>) -> Result<(), Memory>
        ensures listed { OnOk result (self.new.listed ≡ self.old.listed) }
        ensures stands { (entries : List Entry) → Stands entries self.old → Awaits entries self.old.listed pending.entry.place pending.entry.number pending.entry.rest.now →
            OnOk result (Stands entries self.new) }
        ensures keeps { OnOk result ((entry : Entry) (number : ℕ) → IsKept self.old entry number → IsKept self.new entry number) }
        ensures puts { OnOk result ((entry : Entry) → pending.entry.place ≡ entry.place → IsKept self.new entry pending.entry.number) }
    {
        match first_unlisted(&self.listed, pending.rest) {
            None => {
                self.ready.insert((pending.place, pending.number))?;
                Ok(())
            }
            Some(next) => {
                let left = Pending {
                    rest: next.1,
                    ..pending
                };
                wait(alloc, &mut self.waiting, next.0, left)?;
                Ok(())
            }
        }
    }

    // All types, none of which is listed.
    fn new(alloc: Global, items: &'a [Item]) -> Result<Queue<'a>, Memory>
        ensures listed { IfOk result (λ queue. queue.listed ≡ []) }
        ensures stands { IfOk result (λ queue. Stands (map entry_of items.now) queue) }
        ensures all { IfOk result (λ queue. AllKept (map entry_of items.now) queue) }
    {
        let mut queue = Queue {
            listed: Names::new(alloc),
            ready: BTreeSet::new(alloc),
            waiting: BTreeMap::new(alloc),
        };
        for number in 0..items.len() {
            let item = &items[number];
            let pending = Pending {
                place: item.place,
                number,
                rest: item.names.as_slice(),
            };
            queue.settle(alloc, pending)?;
        }
        Ok(queue)
    }

    // Takes the next type to be listed out of those that are ready.
    fn pop(&mut self, items: &'a [Item]) -> Option<&'a Item>
        ensures listed { self.new.listed ≡ self.old.listed }
        ensures next { Stands (map entry_of items.now) self.old → AllKept (map entry_of items.now) self.old →
            option_map entry_of (option_copied result) ≡ next_of self.old.listed (map entry_of items.now) }
        ensures stands { Stands (map entry_of items.now) self.old → Stands (map entry_of items.now) self.new }
        ensures keeps { IfSome result (λ item. (entry : Entry) (number : ℕ) → slice_get (map entry_of items.now) number ≡ Some entry →
            IsKept self.old entry number → (same_name entry.name item.now.name ≡ true) ⊎ IsKept self.new entry number) }
    {
        while let Some(key) = self.ready.pop_first() {
            if let Some(item) = unlisted_item(&self.listed, items, key.1) {
                return Some(item);
            }
        }
        None
    }

    // Lists a type, and puts those where they belong that waited for its name.
    fn list(&mut self, alloc: Global, name: &Name) -> Result<(), Memory>
        ensures listed { OnOk result (self.new.listed ≡ self.old.listed ++ name.now ∷ []) }
        ensures stands { (entries : List Entry) → Stands entries self.old → OnOk result (Stands entries self.new) }
        ensures keeps { (entries : List Entry) → Stands entries self.old → OnOk result ((entry : Entry) (number : ℕ) →
            slice_get entries number ≡ Some entry → (same_name entry.name name.now ≡ true) ⊎ IsKept self.old entry number → IsKept self.new entry number) }
    {
        self.listed.push(alloc, name.copy(alloc)?)?;
        let all = take_waiting(alloc, &mut self.waiting, name);
        for pending in all.as_slice() {
            self.settle(alloc, *pending)?;
        }
        Ok(())
    }
}

// The names of all items in the order in which they are listed.
fn list_items(alloc: Global, items: &[Item]) -> Result<Names, Memory>
    ensures { IfOk result (λ names. names ≡ listing (length items.now) [] (map entry_of items.now)) }
{
    let mut queue = Queue::new(alloc, items)?;
    while queue.listed.as_slice().len() < items.len() {
        match queue.pop(items) {
            Some(item) => queue.list(alloc, &item.name)?,
            None => return Ok(queue.listed),
        }
    }
    Ok(queue.listed)
}

/// The names of all node types, and apart from them of all edge types, each at the place of its number: each next one is
/// the least by place among those whose named types of the same kind have their numbers.
pub fn numbering(alloc: Global, declarations: &Declarations<'_>) -> Result<Numbering, Memory>
    ensures { (script : Script) → AreOf script declarations.now → IfOk result (λ numbering. numbering ≡ numbering_of script) }
{
    let nodes = node_items(alloc, declarations)?;
    let edges = edge_items(alloc, declarations)?;
    Ok(Numbering {
        nodes: list_items(alloc, &nodes)?,
        edges: list_items(alloc, &edges)?,
    })
}
