// The walk: from what it needs of an admitted table to its stop, or to an instant asked before it. It goes from event to event.
#![tactic(auto)]

ghost use Rattle.std.specs.Prelude.{◌≡◌, ◌+◌, ◌*◌, ◌≤◌, ◌<◌};
ghost use Rattle.schedule.specs.Limits as Limits;
ghost use Rattle.window.specs.Entries.{nodes_of};
ghost use Rattle.window.specs.Releasing.{earliest};
ghost use Rattle.window.specs.Working as Working;
ghost use Rattle.window.specs.Walking as Mirror;

use table::{Kept, Seen, State, Table};
use window::{How, Plan, Walk};

pub fn ended(how: How, ticks: u32, state: &State) -> Walk<Seen>
    ensures { result ≡ Mirror.ended how ticks state.now }
{
    Walk {
        how,
        ticks,
        state: Seen {
            servers: state.servers,
            first: state.first,
            count: state.count,
            worst: state.worst,
        },
    }
}

// A span from t on, behind the releases of t: the server jobs that run use its ticks, and what is complete then is dropped. Returns its ticks.
fn work(state: &mut State, plan: &Plan, t: u32, release: u32, boundary: u32, asked: u32) -> u32
    requires few { plan.now.processors ≤ (Limits.processors).to }
    requires next { release ≡ earliest state.old.next (nodes_of plan.now) }
    requires later { t < boundary }
    ensures ticks { result ≡ Working.span_of plan.now t boundary asked state.old }
    ensures worked { state.new ≡ Working.worked plan.now t result state.old }
    ensures next { state.new.next ≡ state.old.next }
    ensures some { 1 ≤ result }
    ensures within { t + result ≤ boundary }
{
    let n = plan.nodes.min(Table::SERVERS);
    let mut run = [Table::NO_KEY; Table::RUNNING];
    let mut at = [0u16; Table::RUNNING];
    let m = choosing::choose(
        &mut run,
        &mut at,
        &state.first,
        &state.count,
        &plan.level,
        &plan.step,
        n,
        plan.processors,
    );
    let places = &at[..m];
    let most = spending::ticks_to(t, release, boundary, asked);
    let d = spending::least_left(&state.left, places, most);
    spending::spend(&mut state.left, places, d);
    finishing::finish_all(&mut *state, plan, t + d, &run[..m]);
    d
}

// Boundaries are tested before the backlog, and the instant asked after both. (A loop of events, whose steps differ: no range gives them.)
pub fn walk_to(
    plan: Plan,
    offsets: [u32; Table::SERVERS],
    origin: u32,
    hyper: u32,
    rounds: u32,
    asked: u32,
) -> Walk<Seen>
    requires { (plan.processors ≤ (Limits.processors).to) × (origin + rounds * hyper ≤ (Limits.offset).to + (Limits.rounds).to * (Limits.hyperperiod).to) × (1 ≤ hyper) }
    ensures { result ≡ Mirror.walk_of plan offsets origin hyper rounds asked }
{
    let n = plan.nodes.min(Table::SERVERS);
    let last = origin + rounds * hyper;
    let mut state = Table::fresh(offsets);
    // Written out here: what a function returns is on the stack twice.
    let mut kept = Kept {
        servers: state.servers,
        left: state.left,
        count: state.count,
        unfinished: state.unfinished,
        unlinked: state.unlinked,
        next: state.next,
    };
    let mut round: u32 = 0;
    let mut boundary = origin;
    let mut release = releasing::earliest(&state.next, n);
    let mut t: u32 = 0;
    while t <= last {
        if t == boundary {
            if 0 < round && comparing::same_states(&state, &kept, hyper, n) {
                return ended(How::Settled(round), t, &state);
            }
            if round == rounds {
                return ended(How::Unsettled, t, &state);
            }
            comparing::keep(&mut kept, &state, n);
            round += 1;
            boundary = boundary.saturating_add(hyper);
        }
        if t == release {
            if releasing::any_full(&state, &plan.room, t, n) {
                return ended(How::Backlog, t, &state);
            }
            releasing::release(&mut state, &plan, t);
            release = releasing::earliest(&state.next, n);
        }
        if t == asked {
            return ended(How::Reached, t, &state);
        }
        t += work(&mut state, &plan, t, release, boundary, asked);
    }
    ended(How::Unsettled, t, &state)
}
