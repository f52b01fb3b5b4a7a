// Rules 4 and 5: the ready server jobs, and their order.
ghost use Rattle.std.specs.Prelude.{◌≡◌, ◌<◌};
ghost use Rattle.window.specs.Entries.{places, nodes_of, level_at};
ghost use Rattle.ledger.specs.Entries.{complete_at, released_at};
ghost use Rattle.ledger.specs.Ranks as Mirror;

use ledger::Ledger;
use plainsteps::instant_after;
use table::Table;
use window::Plan;

// Rule 4: the last ready server job of a server. Those after the complete ones are pending, and of these the first `level` are ready: the one
// `level` places before is then complete, or does not exist.
pub fn ready_to(complete: u32, released: u32, level: u8) -> u32
    ensures { result ≡ Mirror.ready_to complete released level }
{
    released.min(complete.saturating_add(u32::from(level)))
}

// That of the server at place i.
pub fn last_ready(plan: &Plan, l: &Ledger, i: usize) -> u32
    requires { i < places }
    ensures { result ≡ Mirror.ready_to (complete_at l.now i) (released_at l.now i) (level_at plan.now i) }
{
    ready_to(l.complete[i], l.released[i], plan.level[i])
}

// Rule 5: whether a server job with deadline d stands before one with another deadline; `earlier` says that its server has the earlier place,
// that is the lower graph number or, in the same graph, the lower node number.
pub fn is_before(d: u64, deadline: u64, earlier: bool) -> bool
    ensures { result ≡ Mirror.is_before d deadline earlier }
{
    if d == deadline { earlier } else { d < deadline }
}

// How many ready server jobs of the server at place m stand before one of place i with that deadline.
fn before_at(
    plan: &Plan,
    offsets: &[u32; Table::SERVERS],
    l: &Ledger,
    i: usize,
    deadline: u64,
    m: usize,
) -> u32
    requires { m < places }
    ensures { result ≡ Mirror.before_at offsets.now plan.now.period plan.now.level l.now.complete l.now.released i deadline m }
{
    let mut count: u32 = 0;
    for k in l.complete[m]..last_ready(plan, l, m) {
        let d = instant_after(offsets[m], plan.period[m], k + 1);
        if is_before(d, deadline, m < i) {
            count = count.saturating_add(1);
        }
    }
    count
}

// How many ready server jobs stand before number k of the server at place i.
pub fn rank(plan: &Plan, offsets: &[u32; Table::SERVERS], l: &Ledger, i: usize, k: u32) -> u32
    requires { i < places }
    ensures { result ≡ Mirror.rank offsets.now plan.now.period plan.now.level l.now.complete l.now.released (nodes_of plan.now) i k }
{
    let deadline = instant_after(offsets[i], plan.period[i], k);
    let mut count: u32 = 0;
    for m in 0..plan.nodes.min(Table::SERVERS) {
        count = count.saturating_add(before_at(plan, offsets, l, i, deadline, m));
    }
    count
}
