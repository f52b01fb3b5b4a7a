// The walk of document 01, tick by tick: from what it needs of an admitted table to its stop, or to an instant asked before it.
#![tactic(auto)]

ghost use Rattle.std.specs.Prelude.{◌≡◌, ◌+◌, ◌*◌, ◌≤◌};
ghost use Rattle.schedule.specs.Limits as Limits;
ghost use Rattle.window.specs.Entries.{nodes_of};
ghost use Rattle.ledger.specs.Forming.{same_formed};
ghost use Rattle.ledger.specs.Walking as Mirror;

use ledger::{Formed, Ledger};
use plainranks::run;
use plainstates::{blank_state, form, same_state};
use plainsteps::{backlogged, finish, release};
use table::Table;
use window::{How, Plan, Walk};

// At instant 0 nothing is released.
pub fn fresh() -> Ledger
    ensures { result ≡ Mirror.fresh }
{
    Ledger {
        released: [0; Table::SERVERS],
        complete: [0; Table::SERVERS],
        linked: [0; Table::SERVERS],
        finished: [0; Table::SERVERS],
        worst: [0; Table::SERVERS],
        used: [0; Ledger::SLOTS],
        link: [0; Ledger::SLOTS],
    }
}

// How the walk ends at a boundary, if it does: settled where the state there is the one of the boundary before, else unsettled after the last round.
fn boundary_end(
    plan: &Plan,
    state: &Formed,
    before: &Formed,
    round: u32,
    rounds: u32,
) -> Option<How>
    ensures { result ≡ Mirror.boundary_end rounds round (same_formed state.now before.now (nodes_of plan.now)) }
{
    if 0 < round && same_state(plan, state, before) {
        return Some(How::Settled(round));
    }
    (round == rounds).then_some(How::Unsettled)
}

// Plan and offsets are lent side by side, as the first engine's walk takes them: a struct of both would be taken apart again in each step.
pub fn walk_to(
    plan: &Plan,
    offsets: &[u32; Table::SERVERS],
    origin: u32,
    hyper: u32,
    rounds: u32,
    asked: u32,
) -> Walk<Ledger>
    requires { (origin + rounds * hyper ≤ (Limits.offset).to + (Limits.rounds).to * (Limits.hyperperiod).to) × (1 ≤ hyper) }
    ensures { result ≡ Mirror.walk_of plan.now offsets.now origin hyper rounds asked }
{
    let last = origin + rounds * hyper;
    let mut l = fresh();
    let mut before = blank_state();
    let mut round = 0;
    let mut boundary = origin;
    for t in 0..=last {
        // The state at a boundary is taken before the releases, and its test comes before the backlog test.
        if t == boundary {
            let state = form(plan, offsets, &l, t);
            if let Some(how) = boundary_end(plan, &state, &before, round, rounds) {
                return Walk {
                    how,
                    ticks: t,
                    state: l,
                };
            }
            before = state;
            round += 1;
            boundary = boundary.saturating_add(hyper);
        }
        l = release(plan, offsets, &l, t);
        if backlogged(plan, &l) {
            return Walk {
                how: How::Backlog,
                ticks: t,
                state: l,
            };
        }
        if t == asked {
            return Walk {
                how: How::Reached,
                ticks: t,
                state: l,
            };
        }
        l = run(plan, offsets, &l);
        // Work done up to an instant is finished first.
        l = finish(plan, offsets, &l, t + 1);
    }
    Walk {
        how: How::Unsettled,
        ticks: last,
        state: l,
    }
}
