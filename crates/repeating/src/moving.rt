// A row moved on: each number by the periods that its graph has in the hyperperiods passed.
ghost use Rattle.std.specs.Prelude.{◌≡◌, ◌≤◌};
ghost use Rattle.schedule.specs.Limits as Limits;
ghost use Rattle.repeating.specs.Moving as Mirror;

use crate::instants::passed;
use table::{Graph, Table};
use writing::{Row, Run};

// How many periods of a graph a hyperperiod has; 0 for a graph that no table has.
pub fn periods_in(g: Graph, hyper: u32) -> u32
    ensures { result ≡ Mirror.periods_in hyper g }
{
    hyper.checked_div(g.period).unwrap_or(0)
}

pub fn periods_of(graph: [Graph; Table::GRAPHS], hyper: u32) -> [u32; Table::GRAPHS]
    ensures { result ≡ Mirror.periods_of graph hyper }
{
    let mut periods = [0u32; Table::GRAPHS];
    for g in 0..Table::GRAPHS {
        periods[g] = periods_in(graph[g], hyper);
    }
    periods
}

// The periods of graph number g, from 1; 0 for a graph that no table has.
pub fn periods_at(periods: [u32; Table::GRAPHS], g: u32) -> u32
    ensures { result ≡ Mirror.periods_at periods g }
{
    let i = g.saturating_sub(1) as usize;
    periods.get(i).copied().unwrap_or(0)
}

// A number after `passed` times `periods` periods. A u64 holds every such sum; the largest u32 stands for what is larger, which no row has.
pub fn later(number: u32, passed: u32, periods: u32) -> u32
    ensures { result ≡ Mirror.later number passed periods }
{
    let far = u64::from(number) + u64::from(passed) * u64::from(periods);
    u32::try_from(far).unwrap_or(u32::MAX)
}

// The same for an invocation: 0 stays 0.
pub fn later_job(number: u32, passed: u32, periods: u32) -> u32
    ensures { result ≡ Mirror.later_job number passed periods }
{
    if 0 < number {
        later(number, passed, periods)
    } else {
        0
    }
}

#[tactic(auto, unfolding(crate::specs::Moving::moved_run))]
pub fn moved_run(x: Run, periods: [u32; Table::GRAPHS], passed: u32) -> Run
    ensures { result ≡ Mirror.moved_run periods passed x }
{
    let n = periods_at(periods, x.graph);
    Run {
        graph: x.graph,
        node: x.node,
        server_job: later(x.server_job, passed, n),
        invocation: later_job(x.invocation, passed, n),
    }
}

pub fn moved_row(row: Row, periods: [u32; Table::GRAPHS], passed: u32) -> Row
    requires { row.count ≤ (Limits.processors).to }
    ensures { result ≡ Mirror.moved_row periods passed row }
{
    let mut moved = row;
    for r in 0..row.count {
        moved.run[r] = moved_run(row.run[r], periods, passed);
    }
    moved
}

// The row at t, at or past the stop of a walk that settled there, from the row at the matching instant.
#[tactic(auto, unfolding(crate::specs::Moving::far_row))]
pub fn far_row(there: Row, graph: [Graph; Table::GRAPHS], hyper: u32, stop: u32, t: u32) -> Row
    requires { (there.count ≤ (Limits.processors).to) × (1 ≤ hyper) }
    ensures { result ≡ Mirror.far_row graph hyper stop t there }
{
    let periods = periods_of(graph, hyper);
    moved_row(there, periods, passed(hyper, stop, t))
}
