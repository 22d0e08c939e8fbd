//! What a placed pattern asks, as demands: of each place, and of the three places of an edge.

ghost use Rattle.std.specs.Prelude.{◌≡◌, ◌<◌, ◌≤◌, Bool, false, true, List as Items, length, IfOk, OnOk};
ghost use Rattle.std.specs.List.{list_all};
ghost use Rattle.pgs_base.specs.declared.row.NodeRow.{NodeRow};
ghost use Rattle.std.specs.Option.{option_map_or};
ghost use Rattle.pgs_base.specs.Pair.{has_name, value_at};
ghost use Rattle.pgs_base.specs.Value.{is_of_kind};
ghost use Rattle.pgs_syntax.specs.Fitting.{fits_node, fits_edge};
ghost use Rattle.pgs_syntax.specs.Join.{PairTriple};
ghost use Rattle.pgs_syntax.specs.Valid.{names_types};
ghost use Rattle.pgs_conform.specs.Shapes.{Denotes, DenotesTriples};
ghost use Rattle.pgs_standing.specs.Standing.{can_stand_node, can_stand_edge};
ghost use Rattle.pgs_key_standing.specs.Demands.{are_small, meets, Adds};
ghost use Rattle.pgs_key_standing.specs.Kinds.{asks_kind, ask_kinds};
ghost use Rattle.pgs_key_standing.specs.Placed.{passes_at, pass_at, asks_present, stand_from, stands_at};

use crate::joint::ends_of;
use crate::shapes::{labelled, of_kind, present};
use crate::{Demand, Placed};
use pgs_base::{Kind, List, Memory, Name};
use pgs_conform::{Compiled, Shape, Triple};
use pgs_product::{copy_shapes, copy_triples};
use pgs_standing::{standing_shapes, standing_triples};
use pgs_syntax::{Atom, Expr};
use std::alloc::Global;

// Puts a demand on one place last.
fn push_at(place: u32, shapes: List<Shape>, demands: &mut Vec<Demand>) -> Result<(), Memory>
    ensures { OnOk result ((test : NodeRow → Bool) → Denotes shapes test → Adds demands.old.items demands.new.items (λ ps. passes_at ps place test)) }
{
    demands.push(Demand::One {
        place: place as usize,
        shapes,
    })?;
    Ok(())
}

// Puts a demand on an edge and its ends last.
fn push_three(
    edge: u32,
    ends: (u32, u32),
    triples: List<Triple>,
    demands: &mut Vec<Demand>,
) -> Result<(), Memory>
    ensures { OnOk result ((test : PairTriple → Bool) → DenotesTriples triples test → Adds demands.old.items demands.new.items (λ ps. pass_at ps edge ends test)) }
{
    demands.push(Demand::Three {
        source: ends.0 as usize,
        middle: edge as usize,
        target: ends.1 as usize,
        triples,
    })?;
    Ok(())
}

// Puts last that a place has a label.
fn push_label(
    alloc: Global,
    place: u32,
    label: &Name,
    demands: &mut Vec<Demand>,
) -> Result<(), Memory>
    ensures { OnOk result (Adds demands.old.items demands.new.items (λ ps. passes_at ps place (λ p. has_name label.now p.labels))) }
{
    let shapes = labelled(alloc, label)?;
    push_at(place, shapes, demands)
}

// Puts last that a place fits a node type.
fn push_node_type(
    alloc: Global,
    schema: &Compiled,
    place: u32,
    number: u32,
    demands: &mut Vec<Demand>,
) -> Result<(), Memory>
    requires { number < length schema.now.nodes }
    ensures { OnOk result (Adds demands.old.items demands.new.items (λ ps. passes_at ps place (fits_node schema.now number))) }
{
    let shapes = copy_shapes(alloc, schema.shapes_of_node(number).as_slice())?;
    push_at(place, shapes, demands)
}

// Puts last that an edge and its ends fit an edge type.
fn push_edge_type(
    alloc: Global,
    schema: &Compiled,
    edge: u32,
    ends: (u32, u32),
    number: u32,
    demands: &mut Vec<Demand>,
) -> Result<(), Memory>
    requires { number < length schema.now.edges }
    ensures { OnOk result (Adds demands.old.items demands.new.items (λ ps. pass_at ps edge ends (fits_edge schema.now number))) }
{
    let triples = copy_triples(alloc, schema.shapes_of_edge(number).as_slice())?;
    push_three(edge, ends, triples, demands)
}

// Puts last that a place has a value of a kind at a key.
fn push_kind(
    alloc: Global,
    place: u32,
    key: &Name,
    kind: Kind,
    demands: &mut Vec<Demand>,
) -> Result<(), Memory>
    ensures { OnOk result (Adds demands.old.items demands.new.items
        (λ ps. passes_at ps place (λ p. option_map_or (is_of_kind kind) (value_at key.now p.props) false))) }
{
    let shapes = of_kind(alloc, key, kind)?;
    push_at(place, shapes, demands)
}

// Puts last what an atom asks, but for its value.
fn push_atom(
    alloc: Global,
    schema: &Compiled,
    all: &[Atom],
    atom: &Atom,
    demands: &mut Vec<Demand>,
) -> Result<(), Memory>
    requires { names_types schema.now atom.now ≡ true }
    ensures { OnOk result (Adds demands.old.items demands.new.items (λ ps. asks_kind schema.now all.now ps atom.now)) }
{
    match atom {
        Atom::Ends { .. } => Ok(()),
        Atom::HasLabel { var, label } => push_label(alloc, *var, label, demands),
        Atom::FitsNode { var, number } => push_node_type(alloc, schema, *var, *number, demands),
        Atom::FitsEdge { var, number } => {
            push_edge_type(alloc, schema, *var, ends_of(all, *var), *number, demands)
        }
        Atom::Equals { var, key, value } => push_kind(alloc, *var, key, value.kind(), demands),
    }
}

// Puts last what atoms ask, but for their values.
fn push_atoms(
    alloc: Global,
    schema: &Compiled,
    all: &[Atom],
    demands: &mut Vec<Demand>,
) -> Result<(), Memory>
    requires { list_all (names_types schema.now) all.now ≡ true }
    ensures { OnOk result (Adds demands.old.items demands.new.items (λ ps. list_all (asks_kind schema.now all.now ps) all.now)) }
{
    let mut left = all;
    while let [atom, later @ ..] = left {
        push_atom(alloc, schema, all, atom, demands)?;
        left = later;
    }
    Ok(())
}

// Puts last that what an expression reads is present.
fn push_expr(alloc: Global, expr: &Expr, demands: &mut Vec<Demand>) -> Result<(), Memory>
    ensures { OnOk result (Adds demands.old.items demands.new.items (λ ps. asks_present ps expr.now)) }
{
    match expr {
        Expr::Element(_) => Ok(()),
        Expr::Property { var, key } => {
            let shapes = present(alloc, key)?;
            push_at(*var, shapes, demands)
        }
    }
}

// Puts last that what expressions read is present.
fn push_exprs(alloc: Global, exprs: &[Expr], demands: &mut Vec<Demand>) -> Result<(), Memory>
    ensures { OnOk result (Adds demands.old.items demands.new.items (λ ps. list_all (asks_present ps) exprs.now)) }
{
    let mut left = exprs;
    while let [expr, later @ ..] = left {
        push_expr(alloc, expr, demands)?;
        left = later;
    }
    Ok(())
}

// Puts last that the pair of a node place can stand.
fn push_node(
    alloc: Global,
    schema: &Compiled,
    place: u32,
    demands: &mut Vec<Demand>,
) -> Result<(), Memory>
    ensures { OnOk result (Adds demands.old.items demands.new.items (λ ps. passes_at ps place (can_stand_node schema.now))) }
{
    let shapes = standing_shapes(alloc, schema)?;
    push_at(place, shapes, demands)
}

// Puts last that the triple of an edge place can stand.
fn push_edge(
    alloc: Global,
    schema: &Compiled,
    edge: u32,
    ends: (u32, u32),
    demands: &mut Vec<Demand>,
) -> Result<(), Memory>
    ensures { OnOk result (Adds demands.old.items demands.new.items (λ ps. pass_at ps edge ends (can_stand_edge schema.now))) }
{
    let triples = standing_triples(alloc, schema)?;
    push_three(edge, ends, triples, demands)?;
    push_node(alloc, schema, ends.0, demands)?;
    push_node(alloc, schema, ends.1, demands)
}

// Puts last that what is at a place can stand.
fn push_standing_at(
    alloc: Global,
    schema: &Compiled,
    all: &[Atom],
    place: u32,
    is_edge: bool,
    demands: &mut Vec<Demand>,
) -> Result<(), Memory>
    ensures { OnOk result (Adds demands.old.items demands.new.items (λ ps. stands_at schema.now all.now ps place is_edge)) }
{
    if is_edge {
        return push_edge(alloc, schema, place, ends_of(all, place), demands);
    }
    push_node(alloc, schema, place, demands)
}

// Puts last that what is at all places can stand.
fn push_standing(
    alloc: Global,
    schema: &Compiled,
    all: &[Atom],
    kinds: &[bool],
    demands: &mut Vec<Demand>,
) -> Result<(), Memory>
    requires { length kinds.now ≤ 42 }
    ensures { OnOk result (Adds demands.old.items demands.new.items (λ ps. stand_from schema.now all.now ps 0 kinds.now)) }
{
    let mut left = kinds;
    let mut place = 0;
    while let [is_edge, later @ ..] = left {
        push_standing_at(alloc, schema, all, place, *is_edge, demands)?;
        place += 1;
        left = later;
    }
    Ok(())
}

// Puts last what a placed pattern asks, but for values, and that what is at its places can stand: first what is asked of single places,
// so that little is left to try.
fn push_demands(
    alloc: Global,
    schema: &Compiled,
    placed: &Placed,
    demands: &mut Vec<Demand>,
) -> Result<(), Memory>
    requires types { list_all (names_types schema.now) placed.now.atoms ≡ true }
    requires few { length placed.now.kinds ≤ 42 }
    ensures { OnOk result (Adds demands.old.items demands.new.items (ask_kinds schema.now placed.now)) }
{
    let all = placed.atoms.as_slice();
    push_atoms(alloc, schema, all, demands)?;
    push_exprs(alloc, placed.exprs.as_slice(), demands)?;
    push_standing(alloc, schema, all, placed.kinds.as_slice(), demands)
}

/// What a placed pattern asks, but for values, and that what is at its places can stand. `Memory` where there was none left.
pub(crate) fn demands_of(
    alloc: Global,
    schema: &Compiled,
    placed: &Placed,
) -> Result<Vec<Demand>, Memory>
    requires types { list_all (names_types schema.now) placed.now.atoms ≡ true }
    requires few { length placed.now.kinds ≤ 42 }
    ensures { IfOk result (λ demands. (ps : Items NodeRow) → are_small ps ≡ true → list_all (meets ps) demands.items ≡ ask_kinds schema.now placed.now ps) }
{
    let mut demands = Vec::new(alloc);
    push_demands(alloc, schema, placed, &mut demands)?;
    Ok(demands)
}
