//! What is found from the elements of a change in both patterns of a key: from each element by itself where a pattern has no cycle and these
//! are few, and else from all together, so that no pair of a variable and an element is gone back from twice.

ghost use Rattle.std.specs.Prelude.{◌≡◌, ◌+◌, ◌*◌, ◌^◌, ◌≤◌, ◌++◌, ◌==◌, not, ℕ, true, false, cond, List, length, map, filter, IfOk, OnOk};
ghost use Rattle.std.specs.List.{flat_map};
ghost use Rattle.pgs_base.specs.declared.element.Elem.{Elem};
ghost use Rattle.pgs_syntax.specs.Valid.{is_valid_key_of};
ghost use Rattle.pgs_match.specs.Planned.{most_edges, pattern_of};
ghost use Rattle.pgs_check_affected.specs.declared.known.Known.{Known};
ghost use Rattle.pgs_check_affected.specs.Changes.{known_in};
ghost use Rattle.pgs_check_affected.specs.Found.{starts_of, row_in, IsSpread, IsMore, IsFoundByAll};
ghost use Rattle.pgs_check_affected.specs.Touched.{AreSparseInBoth};
ghost use Rattle.pgs_check_affected.specs.Unseen.{is_left_unseen, seen_elems};

use crate::Known;
use crate::gathering::{Searched, Sought, searched_by_all};
use crate::seeing::is_left_unseen;
use pgs_base::{Elem, Memory, Steps};
use pgs_conform::{Compiled, Pair};
use pgs_graph::GraphRead;
use pgs_match::{PlannedKey, Side, Stand, spread};
use std::alloc::Global;
use std::sync::ledger::Ledger;

// How many elements of a change are each searched from in a pattern without a cycle. Where one line changes more of them at one hub, each
// search would go over the hub again. A search from one element gives only what the matches reach, where all that leads back from it may be
// many more.
const MOST_SEARCHED: usize = 8;

// The row of an element of a change in the new graph, or in the old one.
fn row_in<'k, 'a>(known: &'k Known<'a>, is_new: bool) -> &'k Option<Pair<'a>>
    ensures { result.now ≡ row_in is_new known.now }
{
    if is_new { &known.after } else { &known.before }
}

impl<'a> Sought<'a> {
    // Whether the pattern is searched from each element by itself: so it is where it has one variable, or no cycle and the elements are few.
    fn is_searched(&self, known: &[Known<'_>]) -> bool
        ensures { result ≡ false → (length (pattern_of self.now.side self.now.key.now).edge_vars == 1) ≡ false }
    {
        self.key.pattern(self.side).edge_vars.len() == 1
            || (known.len() <= MOST_SEARCHED && self.key.is_tree(self.side))
    }

    // Adds an element at each variable that its row passes.
    fn add_starts(
        &self,
        elem: Elem,
        own: &Option<Pair<'_>>,
        starts: &mut Vec<Stand>,
    ) -> Result<(), Memory>
        requires { is_valid_key_of self.now.compiled.now self.now.key.now ≡ true }
        ensures { OnOk result (starts.new.items ≡ starts.old.items
            ++ starts_of self.now.compiled.now (pattern_of self.now.side self.now.key.now) elem own.now (length (pattern_of self.now.side self.now.key.now).edge_vars)) }
    {
        let vars = self.key.pattern(self.side).edge_vars.len();
        for var in 0..vars as u32 {
            if self.passes(var, elem, own) {
                starts.push(Stand { var, elem })?;
            }
        }
        Ok(())
    }

    // The elements of a change that the key may see change, at each variable that their rows in one of the graphs pass.
    fn starts(&self, alloc: Global, known: &[Known<'_>], is_new: bool) -> Result<Vec<Stand>, Memory>
        requires { is_valid_key_of self.now.compiled.now self.now.key.now ≡ true }
        ensures { IfOk result (λ starts. starts.items ≡ flat_map (λ (one : Known). starts_of self.now.compiled.now (pattern_of self.now.side self.now.key.now)
            one.elem (row_in is_new one) (length (pattern_of self.now.side self.now.key.now).edge_vars))
            (filter (λ one. not (is_left_unseen self.now.compiled.now self.now.key.now one)) known.now)) }
    {
        let mut starts = Vec::new(alloc);
        for one in known {
            if is_left_unseen(one, self.compiled, self.key) {
                continue;
            }
            self.add_starts(one.elem, row_in(one, is_new), &mut starts)?;
        }
        Ok(starts)
    }

    // Adds what is spread in both graphs.
    fn add_spread<G: GraphRead, H: GraphRead, L: Ledger>(
        &self,
        alloc: Global,
        before: &G,
        after: &H,
        known: &[Known<'_>],
        elems: &mut Vec<Elem>,
        steps: &mut Steps<L>,
    ) -> Result<(), Memory>
        requires typed { is_valid_key_of self.now.compiled.now self.now.key.now ≡ true }
        requires known { known.now ≡ map (known_in (G.meaning before.now) (H.meaning after.now)) (map (λ (one : Known). one.elem) known.now) }
        requires several { (length (pattern_of self.now.side self.now.key.now).edge_vars == 1) ≡ false }
        ensures more { OnOk result ((items : List Elem) × (elems.new.items ≡ elems.old.items ++ items)
            × IsSpread self.now.compiled.now (G.meaning before.now) (H.meaning after.now) (most_edges self.now.key.now) (pattern_of self.now.side self.now.key.now)
            (seen_elems self.now.compiled.now (G.meaning before.now) (H.meaning after.now) self.now.key.now (map (λ (one : Known). one.elem) known.now)) items) }
        ensures no_step_back { steps.old ≤ steps.new }
        ensures cost { (most : ℕ) → let seen = seen_elems self.now.compiled.now (G.meaning before.now) (H.meaning after.now) self.now.key.now (map (λ (one : Known). one.elem) known.now) in
            AreSparseInBoth (G.meaning before.now) (H.meaning after.now) (most_edges self.now.key.now) seen most →
            steps.new ≤ steps.old + 640 * length seen * (most + 2) ^ (most_edges self.now.key.now + 1) }
    {
        let old = self.starts(alloc, known, false)?;
        let new = self.starts(alloc, known, true)?;
        let key = self.key;
        let first = spread(alloc, before, self.compiled, key, self.side, old, steps)?;
        let second = spread(alloc, after, self.compiled, key, self.side, new, steps)?;
        elems.extend_from_slice(first.as_slice())?;
        elems.extend_from_slice(second.as_slice())?;
        Ok(())
    }

    // Adds it where the pattern isn't searched from each element by itself.
    fn add_more<G: GraphRead, H: GraphRead, L: Ledger>(
        &self,
        alloc: Global,
        before: &G,
        after: &H,
        known: &[Known<'_>],
        searched: bool,
        elems: &mut Vec<Elem>,
        steps: &mut Steps<L>,
    ) -> Result<(), Memory>
        requires typed { is_valid_key_of self.now.compiled.now self.now.key.now ≡ true }
        requires known { known.now ≡ map (known_in (G.meaning before.now) (H.meaning after.now)) (map (λ (one : Known). one.elem) known.now) }
        requires several { searched ≡ false → (length (pattern_of self.now.side self.now.key.now).edge_vars == 1) ≡ false }
        ensures more { OnOk result ((items : List Elem) × (elems.new.items ≡ elems.old.items ++ items)
            × IsMore self.now.compiled.now (G.meaning before.now) (H.meaning after.now) (most_edges self.now.key.now) searched (pattern_of self.now.side self.now.key.now)
            (seen_elems self.now.compiled.now (G.meaning before.now) (H.meaning after.now) self.now.key.now (map (λ (one : Known). one.elem) known.now)) items) }
        ensures no_step_back { steps.old ≤ steps.new }
        ensures cost { (most : ℕ) → let seen = seen_elems self.now.compiled.now (G.meaning before.now) (H.meaning after.now) self.now.key.now (map (λ (one : Known). one.elem) known.now) in
            AreSparseInBoth (G.meaning before.now) (H.meaning after.now) (most_edges self.now.key.now) seen most →
            steps.new ≤ steps.old + cond searched 0 640 * length seen * (most + 2) ^ (most_edges self.now.key.now + 1) }
    {
        if searched {
            return Ok(());
        }
        self.add_spread(alloc, before, after, known, elems, steps)
    }
}

/// What is found in both patterns of a key from the elements of a change that the key may see change.
pub(crate) fn found_by_all<G: GraphRead, H: GraphRead, L: Ledger>(
    alloc: Global,
    before: &G,
    after: &H,
    known: &[Known<'_>],
    compiled: &Compiled,
    key: &PlannedKey,
    steps: &mut Steps<L>,
) -> Result<Vec<Elem>, Memory>
    requires typed { is_valid_key_of compiled.now key.now ≡ true }
    requires known { known.now ≡ map (known_in (G.meaning before.now) (H.meaning after.now)) (map (λ (one : Known). one.elem) known.now) }
    ensures found { IfOk result (λ elems. IsFoundByAll compiled.now (G.meaning before.now) (H.meaning after.now) key.now
        (seen_elems compiled.now (G.meaning before.now) (H.meaning after.now) key.now (map (λ (one : Known). one.elem) known.now)) elems.items) }
    ensures no_step_back { steps.old ≤ steps.new }
    ensures cost { (most : ℕ) → let seen = seen_elems compiled.now (G.meaning before.now) (H.meaning after.now) key.now (map (λ (one : Known). one.elem) known.now) in
        AreSparseInBoth (G.meaning before.now) (H.meaning after.now) (most_edges key.now) seen most →
        steps.new ≤ steps.old + 1280 * length seen * (most + 2) ^ (most_edges key.now + 1) }
{
    let scope = Sought {
        compiled,
        key,
        side: Side::Scope,
    };
    let descriptor = Sought {
        compiled,
        key,
        side: Side::Descriptor,
    };
    let searched = Searched {
        scope: scope.is_searched(known),
        descriptor: descriptor.is_searched(known),
    };
    let mut elems = searched_by_all(alloc, before, after, known, compiled, key, searched, steps)?;
    scope.add_more(
        alloc,
        before,
        after,
        known,
        searched.scope,
        &mut elems,
        steps,
    )?;
    descriptor.add_more(
        alloc,
        before,
        after,
        known,
        searched.descriptor,
        &mut elems,
        steps,
    )?;
    Ok(elems)
}
