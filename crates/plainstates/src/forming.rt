// The state, entry by entry.
ghost use Rattle.std.specs.Prelude.{◌≡◌, ◌+◌, ◌*◌, ◌<◌};
ghost use Rattle.window.specs.Entries.{places, budget_at};
ghost use Rattle.ledger.specs.Entries.{room, slots, complete_at};
ghost use Rattle.ledger.specs.Forming as Mirror;

use ledger::{Formed, Ledger};
use plainsteps::slot;
use table::Table;
use window::Plan;

// The phase in its period; 0 before the offset.
pub fn phase_of(t: u32, offset: u32, period: u32) -> u32
    ensures { result ≡ Mirror.phase_of t offset period }
{
    if period == 0 {
        0
    } else {
        t.saturating_sub(offset) % period
    }
}

// 0 for an unlinked server job k; else one more than by how many numbers the job j lies behind it.
pub fn behind_of(k: u32, j: u32) -> u32
    ensures { result ≡ Mirror.behind_of k j }
{
    if j == 0 {
        0
    } else {
        k.saturating_sub(j).saturating_add(1)
    }
}

// Where the entry of the d-th pending server job at place i stands.
pub fn entry(i: usize, d: usize) -> usize
    requires { (i < places) × (d < room) }
    ensures { (result ≡ i * room + d) × (result < slots) }
{
    i * Ledger::ROOM + d
}

// The number of the d-th pending server job, from 0, after the complete ones.
pub fn number(complete: u32, d: usize) -> u32
    requires { d < room }
    ensures { result ≡ Mirror.job_at complete d }
{
    complete.saturating_add(d as u32 + 1)
}

// How many pending server jobs there are at place i.
fn pending(l: &Ledger, i: usize) -> u32
    requires { i < places }
    ensures { result ≡ Mirror.pending_of l.now i }
{
    l.released[i].saturating_sub(l.complete[i])
}

// How many of them the state has room for: one more than are allowed.
fn shown(l: &Ledger, i: usize) -> usize
    requires { i < places }
    ensures { result ≡ Mirror.shown_of l.now i }
{
    (pending(l, i) as usize).min(Ledger::ROOM)
}

// The budget left of each pending server job at place i, in order.
pub fn form_left(left: &mut [u32; Ledger::SLOTS], plan: &Plan, l: &Ledger, i: usize)
    requires { i < places }
    ensures { left.new ≡ Mirror.left_by l.now.used i (complete_at l.now i) (budget_at plan.now i) left.old (Mirror.shown_of l.now i) }
{
    let budget = u32::from(plan.budget[i]);
    for d in 0..shown(l, i) {
        let s = slot(i, number(l.complete[i], d));
        let e = entry(i, d);
        left[e] = budget.saturating_sub(l.used[s]);
    }
}

// By how many numbers the linked job of each lies behind it.
pub fn form_behind(behind: &mut [u32; Ledger::SLOTS], l: &Ledger, i: usize)
    requires { i < places }
    ensures { behind.new ≡ Mirror.behind_by l.now.link i (complete_at l.now i) behind.old (Mirror.shown_of l.now i) }
{
    for d in 0..shown(l, i) {
        let k = number(l.complete[i], d);
        let s = slot(i, k);
        let e = entry(i, d);
        behind[e] = behind_of(k, l.link[s]);
    }
}

// A state of which nothing is formed yet.
pub fn blank_state() -> Formed
    ensures { result ≡ Mirror.blank_state }
{
    Formed {
        phase: [0; Table::SERVERS],
        unfinished: [0; Table::SERVERS],
        unlinked: [0; Table::SERVERS],
        pending: [0; Table::SERVERS],
        left: [0; Ledger::SLOTS],
        behind: [0; Ledger::SLOTS],
    }
}

// The state at t, before its releases.
pub fn form(plan: &Plan, offsets: &[u32; Table::SERVERS], l: &Ledger, t: u32) -> Formed
    ensures { result ≡ Mirror.form plan.now offsets.now l.now t }
{
    let mut f = blank_state();
    for i in 0..plan.nodes.min(Table::SERVERS) {
        f.phase[i] = phase_of(t, offsets[i], plan.period[i]);
        f.unfinished[i] = l.released[i].saturating_sub(l.finished[i]);
        f.unlinked[i] = l.released[i].saturating_sub(l.linked[i]);
        f.pending[i] = pending(l, i);
        form_left(&mut f.left, plan, l, i);
        form_behind(&mut f.behind, l, i);
    }
    f
}
