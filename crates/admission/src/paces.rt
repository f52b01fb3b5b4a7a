// Whether each node keeps up: its budget is at most its level times its period.
ghost use Rattle.std.specs.Prelude.{◌≡◌, ◌*◌, leb};
ghost use Rattle.schedule.specs.Lists.{all?};
ghost use Rattle.schedule.specs.Table.{node_keeps_up, keeps_up};
ghost use Rattle.reading.specs.Memory.{graph_of, table_of};

use crate::loads::{graph_of, node_of};
use table::{Graph, Table};

pub fn within_level(budget: u32, level: u32, period: u32) -> bool
    ensures { result ≡ leb budget (level * period) }
{
    budget as u64 <= level as u64 * period as u64
}

pub fn graph_keeps_up(t: &Table, x: Graph) -> bool
    ensures { result ≡ all? (node_keeps_up x.period) (graph_of t.now.node x).nodes }
{
    (0..x.nodes).all(|k| {
        let y = node_of(t, x.first, k);
        within_level(y.budget, y.level, x.period)
    })
}

pub fn keeps_up(t: &Table) -> bool
    ensures { result ≡ keeps_up (table_of t.now) }
{
    (0..t.graphs).all(|g| graph_keeps_up(t, graph_of(t, g)))
}
