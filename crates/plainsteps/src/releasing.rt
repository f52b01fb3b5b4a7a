// The releases of an instant, and their links (rules 1, 2 and 3).
ghost use Rattle.std.specs.Prelude.{◌≡◌};
ghost use Rattle.ledger.specs.Releasing as Mirror;

use crate::instants::{instant_after, slot};
use ledger::Ledger;
use table::Table;
use window::Plan;

// Rule 1: whether the next server job, after `released` of them, is released at t.
pub fn releases(offset: u32, period: u32, released: u32, t: u32) -> bool
    ensures { result ≡ Mirror.releases offset period released t }
{
    instant_after(offset, period, released) == u64::from(t)
}

// Whether job j of each predecessor is finished. (The bits of the mask are taken off, the lowest first: an iteration for each predecessor.)
pub fn all_finished(finished: &[u32; Table::SERVERS], after: u32, j: u32) -> bool
    ensures { result ≡ Mirror.all_finished finished.now after j }
{
    let mut left = after;
    while left != 0 {
        let p = numbers::lowest(left);
        if finished[p as usize] < j {
            return false;
        }
        left = numbers::without(left, p);
    }
    true
}

// Rule 2: whether job j is released by now. A source's job comes with its invocation, of which there are `released`; another node's when the last of
// its predecessors' jobs j has finished.
pub fn is_due(finished: &[u32; Table::SERVERS], after: u32, j: u32, released: u32) -> bool
    ensures { result ≡ Mirror.is_due finished.now after j released }
{
    if after == 0 {
        return j <= released;
    }
    all_finished(finished, after, j)
}

// Rule 3: the number of the next unlinked job, j, where it is released by now.
pub fn link_now(finished: &[u32; Table::SERVERS], after: u32, j: u32, released: u32) -> Option<u32>
    ensures { result ≡ Mirror.link_now finished.now after j released }
{
    is_due(finished, after, j, released).then_some(j)
}

// The releases of t: server job k at each server that has one then, linked or not for good.
pub fn release(plan: &Plan, offsets: &[u32; Table::SERVERS], l: &Ledger, t: u32) -> Ledger
    ensures { result ≡ Mirror.release plan.now offsets.now l.now t }
{
    let mut next = *l;
    for i in 0..plan.nodes.min(Table::SERVERS) {
        if releases(offsets[i], plan.period[i], l.released[i], t) {
            let k = l.released[i].saturating_add(1);
            let j = l.linked[i].saturating_add(1);
            let new = link_now(&l.finished, plan.after[i], j, k);
            let linked = new.unwrap_or(l.linked[i]);
            let link = new.unwrap_or(0);
            let s = slot(i, k);
            next.released[i] = k;
            next.linked[i] = linked;
            next.used[s] = 0;
            next.link[s] = link;
        }
    }
    next
}
