// Two states are the same where every part that document 01 lists is.
ghost use Rattle.std.specs.Prelude.{◌≡◌, ◌≤◌, ◌<◌};
ghost use Rattle.window.specs.Entries.{places, nodes_of};
ghost use Rattle.ledger.specs.Forming as Mirror;

use ledger::{Formed, Ledger};
use table::Table;
use window::Plan;

// Whether the first `count` entries of place i are the same.
pub fn same_pending(
    x: &[u32; Ledger::SLOTS],
    y: &[u32; Ledger::SLOTS],
    i: usize,
    count: u32,
) -> bool
    requires { i < places }
    ensures { result ≡ Mirror.same_pending x.now y.now i count }
{
    let from = i * Ledger::ROOM;
    let to = from + (count as usize).min(Ledger::ROOM);
    x[from..to] == y[from..to]
}

// Whether the pending server jobs of the first n places have the same entries.
pub fn same_slots(
    x: &[u32; Ledger::SLOTS],
    y: &[u32; Ledger::SLOTS],
    pending: &[u32; Table::SERVERS],
    n: usize,
) -> bool
    requires { n ≤ places }
    ensures { result ≡ Mirror.same_slots x.now y.now pending.now n }
{
    (0..n).all(|i| same_pending(x, y, i, pending[i]))
}

pub fn same_state(plan: &Plan, a: &Formed, b: &Formed) -> bool
    ensures { result ≡ Mirror.same_formed a.now b.now (nodes_of plan.now) }
{
    let n = plan.nodes.min(Table::SERVERS);
    a.phase[..n] == b.phase[..n]
        && a.unfinished[..n] == b.unfinished[..n]
        && a.unlinked[..n] == b.unlinked[..n]
        && a.pending[..n] == b.pending[..n]
        && same_slots(&a.left, &b.left, &a.pending, n)
        && same_slots(&a.behind, &b.behind, &a.pending, n)
}
