//! The pattern that a key asks for, of its scope alone or of scope and descriptor together, and its places.

ghost use Rattle.std.specs.Prelude.{◌≡◌, ◌≤◌, ◌==◌, ◌∷◌, ◌++◌, [], cond, true, false, List as Items, length, map, nat_lt, IfOk, OnOk};
ghost use Rattle.std.specs.List.{list_all};
ghost use Rattle.pgs_syntax.specs.declared.pattern.Atom.{Atom as Demanded};
ghost use Rattle.pgs_syntax.specs.declared.pattern.Expr.{Expr as Expression};
ghost use Rattle.pgs_syntax.specs.Valid.{is_valid_key, is_edge_var, read_var, speaks_of, together};
ghost use Rattle.pgs_key_standing.specs.Joint.{beside, joint, joint_exprs, widened, with_ends, classes_after, classes_of, placed_of, numbers, scope_places, value_places};
ghost use Rattle.pgs_key_standing.specs.Placed.{ends_of};
ghost use Rattle.pgs_key_standing.specs.Renamed.{renamed};

use crate::Placed;
use crate::renaming::{beside_table, number_at, push_renamed, renamed_exprs};
use pgs_base::{List, Memory};
use pgs_syntax::{Atom, Expr, Key, Pattern};
use std::alloc::Global;

/// The source and the target of an edge, as they are first given.
pub(crate) fn ends_of(atoms: &[Atom], edge: u32) -> (u32, u32)
    ensures { result ≡ ends_of atoms.now edge }
{
    let mut left = atoms;
    while let [atom, later @ ..] = left {
        if let Atom::Ends {
            edge: of,
            source,
            target,
        } = atom
        {
            if edge == *of {
                return (*source, *target);
            }
        }
        left = later;
    }
    (0, 0)
}

// One class, or another in its place.
fn moved(class: u32, from: u32, to: u32) -> u32
    ensures { result ≡ cond (class == from) to class }
{
    if class == from {
        return to;
    }
    class
}

// Classes where that of one variable is put to that of another.
fn together(alloc: Global, first: u32, second: u32, classes: &[u32]) -> Result<Vec<u32>, Memory>
    ensures { IfOk result (λ next. next.items ≡ together first second classes.now) }
{
    let from = number_at(classes, first);
    let to = number_at(classes, second);
    let mut next = Vec::with_capacity(alloc, classes.len())?;
    for class in classes {
        let new = moved(*class, from, to);
        next.push(new)?;
    }
    Ok(next)
}

// Classes after one more atom.
fn after_atom(
    alloc: Global,
    all: &[Atom],
    classes: Vec<u32>,
    atom: &Atom,
) -> Result<Vec<u32>, Memory>
    ensures { IfOk result (λ next. (later : Items Demanded) →
        classes_after all.now next.items later ≡ classes_after all.now classes.items (atom.now ∷ later)) }
{
    match atom {
        Atom::Ends {
            edge,
            source,
            target,
        } => {
            let ends = ends_of(all, *edge);
            let once = together(alloc, *source, ends.0, classes.as_slice())?;
            together(alloc, *target, ends.1, once.as_slice())
        }
        Atom::HasLabel { .. }
        | Atom::FitsNode { .. }
        | Atom::FitsEdge { .. }
        | Atom::Equals { .. } => Ok(classes),
    }
}

// The numbers of variables.
#[tactic(auto, using(crate::proofs::Tables::first_table))]
fn numbers(alloc: Global, kinds: &[bool]) -> Result<Vec<u32>, Memory>
    requires { length kinds.now ≤ 42 }
    ensures { IfOk result (λ table. table.items ≡ numbers kinds.now) }
{
    beside_table(alloc, 1, kinds.len() as u32)
}

// The classes of a pattern's variables.
fn classes_of(alloc: Global, pattern: &Pattern) -> Result<Vec<u32>, Memory>
    requires { length pattern.now.edge_vars ≤ 42 }
    ensures { IfOk result (λ classes. classes.items ≡ classes_of pattern.now) }
{
    let mut classes = numbers(alloc, pattern.edge_vars.as_slice())?;
    let all = pattern.atoms.as_slice();
    let mut left = all;
    while let [atom, later @ ..] = left {
        classes = after_atom(alloc, all, classes, atom)?;
        left = later;
    }
    Ok(classes)
}

// A pattern at its places.
fn placed_of(alloc: Global, pattern: &Pattern, exprs: &[Expr]) -> Result<Placed, Memory>
    requires { length pattern.now.edge_vars ≤ 42 }
    ensures { IfOk result (λ placed. placed ≡ placed_of pattern.now exprs.now) }
{
    let classes = classes_of(alloc, pattern)?;
    let mut atoms = Vec::new(alloc);
    push_renamed(
        alloc,
        pattern.atoms.as_slice(),
        classes.as_slice(),
        &mut atoms,
    )?;
    let others = renamed_exprs(alloc, exprs, classes.as_slice())?;
    let kinds = List::from_slice(alloc, pattern.edge_vars.as_slice())?;
    Ok(Placed {
        kinds,
        atoms: List::from_vec(atoms),
        exprs: List::from_vec(others),
    })
}

// Puts the atoms of a pattern last, whose variables stand behind so many of another.
#[tactic(auto, using(crate::proofs::Tables::table_beside))]
fn push_beside(
    alloc: Global,
    count: u32,
    pattern: &Pattern,
    all: &mut Vec<Atom>,
) -> Result<(), Memory>
    requires count { count ≤ 42 }
    requires few { length pattern.now.edge_vars ≤ 42 }
    requires speak { list_all (speaks_of pattern.now.edge_vars) pattern.now.atoms ≡ true }
    ensures { OnOk result (all.new.items ≡ all.old.items ++ map (renamed (beside count)) pattern.now.atoms) }
{
    let table = beside_table(alloc, count, pattern.edge_vars.len() as u32)?;
    push_renamed(alloc, pattern.atoms.as_slice(), table.as_slice(), all)
}

// Puts the atoms of a pattern last.
#[tactic(auto, using(crate::proofs::Tables::beside_one))]
fn push_copies(alloc: Global, pattern: &Pattern, all: &mut Vec<Atom>) -> Result<(), Memory>
    requires few { length pattern.now.edge_vars ≤ 42 }
    requires speak { list_all (speaks_of pattern.now.edge_vars) pattern.now.atoms ≡ true }
    ensures { OnOk result (all.new.items ≡ all.old.items ++ pattern.now.atoms) }
{
    push_beside(alloc, 1, pattern, all)
}

// The same pattern.
fn copy_pattern(alloc: Global, pattern: &Pattern) -> Result<Pattern, Memory>
    requires few { length pattern.now.edge_vars ≤ 42 }
    requires speak { list_all (speaks_of pattern.now.edge_vars) pattern.now.atoms ≡ true }
    ensures { IfOk result (λ copy. copy ≡ pattern.now) }
{
    let mut atoms = Vec::new(alloc);
    push_copies(alloc, pattern, &mut atoms)?;
    let edge_vars = List::from_slice(alloc, pattern.edge_vars.as_slice())?;
    Ok(Pattern {
        edge_vars,
        atoms: List::from_vec(atoms),
    })
}

// Two kinds more, of nodes.
fn two_nodes_more(alloc: Global, kinds: &[bool]) -> Result<List<bool>, Memory>
    ensures { IfOk result (λ wide. wide ≡ kinds.now ++ false ∷ false ∷ []) }
{
    let mut wide = Vec::new(alloc);
    wide.extend_from_slice(kinds)?;
    wide.push(false)?;
    wide.push(false)?;
    Ok(List::from_vec(wide))
}

// A pattern with two more nodes, the ends of variable 0.
fn widened(alloc: Global, pattern: &Pattern) -> Result<Pattern, Memory>
    requires few { length pattern.now.edge_vars ≤ 40 }
    requires speak { list_all (speaks_of pattern.now.edge_vars) pattern.now.atoms ≡ true }
    ensures { IfOk result (λ wide. wide ≡ widened pattern.now) }
{
    let source = pattern.edge_vars.len() as u32;
    let mut atoms = Vec::new(alloc);
    let ends = Atom::Ends {
        edge: 0,
        source,
        target: source + 1,
    };
    atoms.push(ends)?;
    push_copies(alloc, pattern, &mut atoms)?;
    let edge_vars = two_nodes_more(alloc, pattern.edge_vars.as_slice())?;
    Ok(Pattern {
        edge_vars,
        atoms: List::from_vec(atoms),
    })
}

// Whether a variable is an edge.
#[tactic(auto, using(crate::proofs::Tables::edge_read, crate::proofs::Tables::no_edge))]
fn is_edge_var(kinds: &[bool], var: usize) -> bool
    ensures { result ≡ is_edge_var kinds.now var }
{
    if var < kinds.len() { kinds[var] } else { false }
}

// A pattern with the ends of variable 0 where that is an edge.
#[tactic(auto, using(crate::proofs::Tables::wide_count))]
fn with_ends(alloc: Global, pattern: Pattern) -> Result<Pattern, Memory>
    requires few { length pattern.edge_vars ≤ 40 }
    requires speak { list_all (speaks_of pattern.edge_vars) pattern.atoms ≡ true }
    ensures same { IfOk result (λ wide. wide ≡ with_ends pattern) }
    ensures few { IfOk result (λ wide. length wide.edge_vars ≤ 42) }
{
    if is_edge_var(pattern.edge_vars.as_slice(), 0) {
        return widened(alloc, &pattern);
    }
    Ok(pattern)
}

// What a valid key meets. Nothing is done.
fn key_facts(key: &Key)
    requires { is_valid_key key.now ≡ true }
    ensures scope_few { length key.now.scope.edge_vars ≤ 20 }
    ensures scope_speak { list_all (speaks_of key.now.scope.edge_vars) key.now.scope.atoms ≡ true }
    ensures descriptor_few { length key.now.descriptor.edge_vars ≤ 20 }
    ensures descriptor_speak { list_all (speaks_of key.now.descriptor.edge_vars) key.now.descriptor.atoms ≡ true }
    ensures read { list_all (λ (expr : Expression). nat_lt (read_var expr) (length key.now.descriptor.edge_vars)) key.now.exprs ≡ true }
    ensures joint_few { length (joint key.now).edge_vars ≤ 40 }
    ensures joint_speak { list_all (speaks_of (joint key.now).edge_vars) (joint key.now).atoms ≡ true }
{}

// The kinds of a scope's variables, and of those of a descriptor but for the first.
fn joint_kinds(alloc: Global, key: &Key) -> Result<List<bool>, Memory>
    ensures { IfOk result (λ kinds. kinds ≡ (joint key.now).edge_vars) }
{
    let mut kinds = Vec::new(alloc);
    kinds.extend_from_slice(key.scope.edge_vars.as_slice())?;
    if let [_, later @ ..] = key.descriptor.edge_vars.as_slice() {
        kinds.extend_from_slice(later)?;
    }
    Ok(List::from_vec(kinds))
}

// Scope and descriptor as one pattern.
fn joint(alloc: Global, key: &Key) -> Result<Pattern, Memory>
    requires { is_valid_key key.now ≡ true }
    ensures { IfOk result (λ pattern. pattern ≡ joint key.now) }
{
    key_facts(key);
    let mut atoms = Vec::new(alloc);
    push_copies(alloc, &key.scope, &mut atoms)?;
    push_beside(
        alloc,
        key.scope.edge_vars.len() as u32,
        &key.descriptor,
        &mut atoms,
    )?;
    let edge_vars = joint_kinds(alloc, key)?;
    Ok(Pattern {
        edge_vars,
        atoms: List::from_vec(atoms),
    })
}

// What a key reads, in scope and descriptor as one pattern.
#[tactic(auto, using(crate::proofs::Tables::exprs_beside))]
fn joint_exprs(alloc: Global, key: &Key) -> Result<Vec<Expr>, Memory>
    requires { is_valid_key key.now ≡ true }
    ensures { IfOk result (λ exprs. exprs.items ≡ joint_exprs key.now) }
{
    key_facts(key);
    let count = key.scope.edge_vars.len() as u32;
    let table = beside_table(alloc, count, key.descriptor.edge_vars.len() as u32)?;
    renamed_exprs(alloc, key.exprs.as_slice(), table.as_slice())
}

/// The places of a key's scope.
pub(crate) fn scope_places(alloc: Global, key: &Key) -> Result<Placed, Memory>
    requires { is_valid_key key.now ≡ true }
    ensures { IfOk result (λ placed. placed ≡ scope_places key.now) }
{
    key_facts(key);
    let scope = copy_pattern(alloc, &key.scope)?;
    let pattern = with_ends(alloc, scope)?;
    placed_of(alloc, &pattern, &[])
}

/// The places of a key's scope and descriptor together.
pub(crate) fn value_places(alloc: Global, key: &Key) -> Result<Placed, Memory>
    requires { is_valid_key key.now ≡ true }
    ensures { IfOk result (λ placed. placed ≡ value_places key.now) }
{
    key_facts(key);
    let both = joint(alloc, key)?;
    let pattern = with_ends(alloc, both)?;
    let exprs = joint_exprs(alloc, key)?;
    placed_of(alloc, &pattern, exprs.as_slice())
}
