// Work done up to an instant is finished first (rule 3): server jobs whose budget is used up are complete, and the jobs linked to them are
// finished.
ghost use Rattle.std.specs.Prelude.{◌≡◌, ◌<◌};
ghost use Rattle.window.specs.Entries.{places};
ghost use Rattle.ledger.specs.Finishing as Mirror;

use crate::instants::{instant_after, slot};
use ledger::{Done, Ledger};
use table::Table;
use window::Plan;

// The response of job j, which finishes at t: counted from the release of invocation j.
pub fn response_of(offset: u32, period: u32, j: u32, t: u32) -> u32
    ensures { result ≡ Mirror.response_of offset period j t }
{
    let release = instant_after(offset, period, j.saturating_sub(1));
    u64::from(t).saturating_sub(release) as u32
}

// One server job more is complete; where a job j is linked to it, that is finished at t.
pub fn with_one(d: Done, j: u32, offset: u32, period: u32, t: u32) -> Done
    ensures { result ≡ Mirror.with_one d j offset period t }
{
    let complete = d.complete.saturating_add(1);
    if j == 0 {
        return Done { complete, ..d };
    }
    Done {
        complete,
        finished: d.finished.saturating_add(1),
        worst: d.worst.max(response_of(offset, period, j, t)),
    }
}

// The pending server jobs of the server at place i, each in turn.
pub fn finish_server(
    plan: &Plan,
    offsets: &[u32; Table::SERVERS],
    l: &Ledger,
    i: usize,
    t: u32,
) -> Done
    requires { i < places }
    ensures { result ≡ Mirror.done_at plan.now offsets.now l.now t i }
{
    let complete = l.complete[i];
    let mut done = Done {
        complete,
        finished: l.finished[i],
        worst: l.worst[i],
    };
    let budget = u32::from(plan.budget[i]);
    for k in complete..l.released[i] {
        let s = slot(i, k + 1);
        if budget <= l.used[s] {
            done = with_one(done, l.link[s], offsets[i], plan.period[i], t);
        }
    }
    done
}

// The work done up to t, at each server.
pub fn finish(plan: &Plan, offsets: &[u32; Table::SERVERS], l: &Ledger, t: u32) -> Ledger
    ensures { result ≡ Mirror.finish plan.now offsets.now l.now t }
{
    let mut next = *l;
    for i in 0..plan.nodes.min(Table::SERVERS) {
        let done = finish_server(plan, offsets, l, i, t);
        next.complete[i] = done.complete;
        next.finished[i] = done.finished;
        next.worst[i] = done.worst;
    }
    next
}
