// The releases of an instant: a server job more at each place that releases one, in its window and in the numbers beside it.
ghost use Rattle.std.specs.Prelude.{◌≡◌, ◌<◌};
ghost use Rattle.window.specs.Entries.{places, window};
ghost use Rattle.window.specs.Releasing as Mirror;

use crate::due::{all_fewer, linked_now};
use crate::instants::releases;
use table::{Pending, Server, State, Table};
use window::Plan;

// The key of a server job that is released at t: release plus point, then place (rule 5).
pub fn new_key(t: u32, lead: u32) -> u32
    ensures { result ≡ Mirror.new_key t lead }
{
    t.saturating_mul(Table::ALL_NODES_TO).saturating_add(lead)
}

// The window gets p in slot n. (An empty one is filled: that is one store, and what stands behind the last pending one is never looked at.)
fn push(s: &mut Server, n: u8, p: Pending)
    requires { n < window }
    ensures { s.new ≡ Mirror.pushed s.old n p }
{
    if n == 0 {
        s.jobs = [p; Table::WINDOW];
    } else {
        s.jobs[usize::from(n)] = p;
    }
}

// The server at place i, which may release a server job at t; `before` are the unfinished jobs before the releases of t.
fn release_one(state: &mut State, plan: &Plan, t: u32, before: &[u8; Table::SERVERS], i: usize)
    requires { i < places }
    ensures { state.new ≡ Mirror.release_one plan.now t before.now state.old i }
{
    if releases(&*state, i, t) {
        let n = state.count[i];
        let unlinked = state.unlinked[i];
        let due = all_fewer(before, plan.after[i], unlinked);
        push(&mut state.servers[i], n, linked_now(due, unlinked));
        state.left[i * Table::WINDOW + usize::from(n)] = plan.budget[i];
        if n == 0 {
            state.first[i] = new_key(t, plan.lead[i]);
        }
        state.count[i] = n + 1;
        state.unfinished[i] = state.unfinished[i].saturating_add(1);
        if !due {
            state.unlinked[i] = unlinked.saturating_add(1);
        }
        state.next[i] = state.next[i].saturating_add(plan.period[i]);
    }
}

// All releases of t. (There is room for them: a walk has tested for a backlog before.)
pub fn release(state: &mut State, plan: &Plan, t: u32)
    ensures { state.new ≡ Mirror.released plan.now t state.old }
{
    let before = state.unfinished;
    for i in 0..plan.nodes.min(Table::SERVERS) {
        release_one(&mut *state, plan, t, &before, i);
    }
}
