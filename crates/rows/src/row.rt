// The row: the server jobs that run, in priority order.
ghost use Rattle.std.specs.Prelude.{◌≡◌, ◌≤◌};
ghost use Rattle.schedule.specs.Limits as Limits;
ghost use Rattle.rows.specs.Showing as Mirror;

use crate::run::run_of;
use table::{Server, Table};
use window::Plan;
use writing::{Row, Run};

// A row with room for `count` entries, none of them filled in yet.
pub fn blank(count: usize) -> Row
    ensures { result ≡ Mirror.blank count }
{
    Row {
        run: [Run::default(); Table::RUNNING],
        count,
    }
}

// A server job is in the row whether it is linked or not. What a walk shows comes in parts, so that no copy of the whole stands beside it.
pub fn row_of(
    plan: Plan,
    offsets: [u32; Table::SERVERS],
    servers: [Server; Table::SERVERS],
    first: [u32; Table::SERVERS],
    count: [u8; Table::SERVERS],
) -> Row
    requires { plan.processors ≤ (Limits.processors).to }
    ensures { result ≡ Mirror.row_of plan offsets (Mirror.seen_by servers first count) }
{
    let n = plan.nodes.min(Table::SERVERS);
    let mut run = [Table::NO_KEY; Table::RUNNING];
    let mut at = [0u16; Table::RUNNING];
    let m = choosing::choose(
        &mut run,
        &mut at,
        &first,
        &count,
        &plan.level,
        &plan.step,
        n,
        plan.processors,
    );
    let mut row = blank(m);
    for r in 0..m {
        let key = run[r];
        let s = servers[(key % Table::ALL_NODES_TO) as usize];
        row.run[r] = run_of(&plan, &offsets, s, key, at[r]);
    }
    row
}
