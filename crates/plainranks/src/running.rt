// Rules 5 and 6: the first `processors` ready server jobs run, and each uses one tick of its budget.
ghost use Rattle.std.specs.Prelude.{◌≡◌, ◌<◌};
ghost use Rattle.window.specs.Entries.{places, nodes_of};
ghost use Rattle.ledger.specs.Ranks as Mirror;

use crate::ranks::{last_ready, rank};
use ledger::Ledger;
use plainsteps::slot;
use table::Table;
use window::Plan;

// The ready server jobs of the server at place i, each in turn: one that runs has used a tick more than before, linked or not.
pub fn run_server(
    used: &mut [u32; Ledger::SLOTS],
    plan: &Plan,
    offsets: &[u32; Table::SERVERS],
    l: &Ledger,
    i: usize,
)
    requires { i < places }
    ensures { used.new ≡ Mirror.run_server offsets.now plan.now.period plan.now.level l.now.complete l.now.released l.now.used (nodes_of plan.now) plan.now.processors i used.old }
{
    for k in l.complete[i]..last_ready(plan, l, i) {
        if (rank(plan, offsets, l, i, k + 1) as usize) < plan.processors {
            let s = slot(i, k + 1);
            used[s] = l.used[s].saturating_add(1);
        }
    }
}

// The tick that starts now.
pub fn run(plan: &Plan, offsets: &[u32; Table::SERVERS], l: &Ledger) -> Ledger
    ensures { result ≡ Mirror.run plan.now offsets.now l.now }
{
    let mut next = *l;
    for i in 0..plan.nodes.min(Table::SERVERS) {
        run_server(&mut next.used, plan, offsets, l, i);
    }
    next
}
