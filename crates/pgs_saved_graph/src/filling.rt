ghost use Rattle.std.specs.Prelude.{◌≡◌, true, map, Some, IfOk};
ghost use Rattle.pgs_base.specs.Graph.{is_graph};
ghost use Rattle.pgs_codec.specs.Encodable.{snapshot_graph};
ghost use Rattle.pgs_tables.specs.Standing.{seeds_by};

use pgs_base::{EdgeId, EdgeRow, List, Memory, NodeId, NodeRow, Seed};
use pgs_graph::Delta;
use pgs_tables::Tables;
use std::alloc::Global;

// Rows as changes that put them in.
fn added<K: Drop, V: Drop>(
    alloc: Global,
    rows: List<(K, V)>,
) -> Result<List<(K, Option<V>)>, Memory>
    ensures { IfOk result (λ changes. changes ≡ map (λ row. (row.0, Some row.1)) rows) }
{
    let mut changes = Vec::with_capacity(alloc, rows.len())?;
    for (key, row) in rows.into_vec() {
        changes.push((key, Some(row)))?;
    }
    Ok(List::from_vec(changes))
}

/// The tables of rows that are a graph, hashed by a seed. `Memory` where there was none left.
pub fn tables_of(
    alloc: Global,
    seed: Seed,
    nodes: List<(NodeId, NodeRow)>,
    edges: List<(EdgeId, EdgeRow)>,
) -> Result<Tables, Memory>
    requires { is_graph (snapshot_graph nodes edges) ≡ true }
    ensures graph { IfOk result (λ tables. tables.graph ≡ snapshot_graph nodes edges) }
    ensures seeds { IfOk result (λ tables. tables.seeds ≡ seeds_by seed) }
{
    let delta = Delta {
        nodes: added(alloc, nodes)?,
        edges: added(alloc, edges)?,
    };
    let mut tables = Tables::with_seed(alloc, seed);
    let prepared = tables.prepare(delta)?;
    tables.commit(prepared);
    Ok(tables)
}
