//! What was decided, done to a graph in tables and to the index that stands for it. All memory is taken for both before either changes.

ghost use Rattle.std.specs.Prelude.{◌≡◌, true, IfOk, OnOk, OnErr};
ghost use Rattle.pgs_graph.specs.Changed.{changed, is_sound};
ghost use Rattle.pgs_keyindex.specs.Rows.{IsOwned, rows_changed};
ghost use Rattle.pgs_decide.specs.Changing.{AreReady, IsReadyOf};

use crate::Decided;
use pgs_base::Memory;
use pgs_keyindex::{KeyIndex, KeyReady};
use pgs_tables::{Prepared, Tables};

/// A change for which the tables and the index have taken all memory.
pub struct Ready {
    tables: Prepared,
    rows: KeyReady,
}

// Dropped by one function of this crate, so that those above need not prove anew how a change is taken apart.
impl Drop for Ready {
    fn drop(self) {
        let Ready { tables: _, rows: _ } = self;
    }
}

impl Ready {
    fn into_parts(self) -> (Prepared, KeyReady)
        ensures tables { result.0 ≡ self.tables }
        ensures rows { result.1 ≡ self.rows }
    {
        let Ready { tables, rows } = self;
        (tables, rows)
    }
}

/// Takes all memory that a change of the graph and of the index needs, so that `commit` needs none. Both stay as they are. `Memory` where
/// none was left. It asks that the delta is sound for the graph, and that after the changes of the index no two elements share a value of an
/// exclusive key, as `decide` gives them.
pub fn prepare(tables: &mut Tables, index: &mut KeyIndex, decided: Decided) -> Result<Ready, Memory>
    requires sound { is_sound tables.old.graph decided.delta ≡ true }
    requires owned { IsOwned index.old.exclusive (rows_changed index.old.rows decided.changes) }
    ensures graph { tables.new.graph ≡ tables.old.graph }
    ensures exclusive { index.new.exclusive ≡ index.old.exclusive }
    ensures rows { index.new.rows ≡ index.old.rows }
    ensures seeds { tables.new.seeds ≡ tables.old.seeds }
    ensures seed { index.new.seed ≡ index.old.seed }
    ensures ready { IfOk result (AreReady tables.new index.new) }
    ensures whole { IfOk result (IsReadyOf decided) }
{
    let Decided { delta, changes } = decided;
    let prepared = tables.prepare(delta)?;
    let rows = index.prepare(changes)?;
    Ok(Ready {
        tables: prepared,
        rows,
    })
}

/// Does a change that the tables and the index are ready for. It takes no memory and can't be refused.
pub fn commit(tables: &mut Tables, index: &mut KeyIndex, ready: Ready)
    requires { AreReady tables.old index.old ready }
    ensures graph { tables.new.graph ≡ changed tables.old.graph ready.tables.delta }
    ensures exclusive { index.new.exclusive ≡ index.old.exclusive }
    ensures rows { index.new.rows ≡ rows_changed index.old.rows ready.rows.changes }
    ensures seeds { tables.new.seeds ≡ tables.old.seeds }
    ensures seed { index.new.seed ≡ index.old.seed }
{
    let (prepared, rows) = ready.into_parts();
    tables.commit(prepared);
    index.commit(rows);
}

/// Does what was decided to both, or to neither: after `Memory`, where none was left, both are as they were.
pub fn change(tables: &mut Tables, index: &mut KeyIndex, decided: Decided) -> Result<(), Memory>
    requires sound { is_sound tables.old.graph decided.delta ≡ true }
    requires owned { IsOwned index.old.exclusive (rows_changed index.old.rows decided.changes) }
    ensures graph { OnOk result (tables.new.graph ≡ changed tables.old.graph decided.delta) }
    ensures rows { OnOk result (index.new.rows ≡ rows_changed index.old.rows decided.changes) }
    ensures same_graph { OnErr result (tables.new.graph ≡ tables.old.graph) }
    ensures same_rows { OnErr result (index.new.rows ≡ index.old.rows) }
    ensures exclusive { index.new.exclusive ≡ index.old.exclusive }
    ensures seeds { tables.new.seeds ≡ tables.old.seeds }
    ensures seed { index.new.seed ≡ index.old.seed }
{
    let ready = prepare(tables, index, decided)?;
    commit(tables, index, ready);
    Ok(())
}
