// A server job whose budget is used up is dropped, and its window shifted; one server at a time. Each function computes what the definition of
// its name in window/specs says.
#![tactic(auto)]

ghost use Rattle.std.specs.Prelude.{◌≡◌, ◌+◌, ◌≤◌, ◌<◌, length};
ghost use Rattle.window.specs.Entries.{places, slots};
ghost use Rattle.window.specs.Finishing as Mirror;

use table::{Server, State, Table};
use window::Plan;

// Whether the oldest server job at place i is complete.
pub fn is_done(state: &State, i: usize) -> bool
    requires { i < places }
    ensures { result ≡ Mirror.done_at state.now.left state.now.count i }
{
    let n = state.count[i];
    0 < n && n <= Table::PENDING as u8 && state.left[i * Table::WINDOW] == 0
}

// The response of the job linked to the oldest of `count` server jobs, which finishes at `now`: that one was released so many periods before
// the next release, and the job's invocation `behind` periods before that.
pub fn response_of(now: u32, next: u32, count: u8, behind: u8, period: u32) -> u32
    ensures { result ≡ Mirror.response_of now next count behind period }
{
    let to = u64::from(now) + (u64::from(count) + u64::from(behind)) * u64::from(period);
    u32::try_from(to.saturating_sub(u64::from(next))).unwrap_or(u32::MAX)
}

// The window without its oldest. (Of one length always: it is then one move of bytes.)
fn shift(s: &mut Server)
    ensures { s.new ≡ Mirror.shifted s.old }
{
    s.jobs.copy_within(1.., 0);
}

// The budgets left of n slots from `base` on, each moved one place down.
pub fn move_down(left: &mut [u16; Table::SLOTS], base: usize, n: u8)
    requires { base + n ≤ slots }
    ensures { left.new ≡ Mirror.moved_down left.old base n }
{
    for d in 0..usize::from(n).saturating_sub(1) {
        left[base + d] = left[base + d + 1];
    }
}

// The server at place i, of which a server job ran up to `now`: its oldest is dropped where that is complete, and a linked one finishes its job.
fn finish(state: &mut State, plan: &Plan, now: u32, i: usize)
    requires { i < places }
    ensures { state.new ≡ Mirror.finish_at plan.now now state.old i }
{
    if is_done(&*state, i) {
        let n = state.count[i];
        if let Some(behind) = state.servers[i].jobs[0].behind {
            let response = response_of(now, state.next[i], n, behind, plan.period[i]);
            state.worst[i] = state.worst[i].max(response);
            state.unfinished[i] = state.unfinished[i].saturating_sub(1);
        }
        move_down(&mut state.left, i * Table::WINDOW, n);
        state.first[i] = if 1 < n {
            shift(&mut state.servers[i]);
            state.first[i].saturating_add(plan.step[i])
        } else {
            Table::NO_KEY
        };
        state.count[i] = n - 1;
    }
}

// Each server of which a server job ran up to `now`, by the keys of those that ran.
pub fn finish_all(state: &mut State, plan: &Plan, now: u32, run: &[u32])
    ensures { state.new ≡ Mirror.finished_all plan.now now run.now state.old (length run.now) }
{
    for key in run {
        let place = (*key % Table::ALL_NODES_TO) as usize;
        finish(&mut *state, plan, now, place);
    }
}
