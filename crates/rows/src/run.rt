// A running server job from its key, which says its place and its release, and so its number; and from its slot in the window.
ghost use Rattle.std.specs.Prelude.{◌≡◌, ◌-◌, ◌/◌};
ghost use Rattle.rows.specs.Showing as Mirror;

use table::{Pending, Server, Table};
use window::Plan;
use writing::Run;

// How many whole steps lie between `from` and `to`; 0 where `to` comes first, and where a step is 0.
pub fn steps_between(from: u32, to: u32, step: u32) -> u32
    ensures { result ≡ (to - from) / step }
{
    to.saturating_sub(from).checked_div(step).unwrap_or(0)
}

// The number of the server job with a key: as many as whole periods lie between the offset and its release, and one.
pub fn number_of(key: u32, lead: u32, offset: u32, period: u32) -> u32
    ensures { result ≡ Mirror.number_of key lead offset period }
{
    let release = steps_between(lead, key, Table::ALL_NODES_TO);
    steps_between(offset, release, period) + 1
}

// The number of the job that is linked to server job `number`; 0 for none.
pub fn invocation_of(p: Pending, number: u32) -> u32
    ensures { result ≡ Mirror.invocation_of p number }
{
    match p.behind {
        Some(behind) => number.saturating_sub(u32::from(behind)),
        None => 0,
    }
}

// A running server job from its four numbers.
pub fn shown(graph: u8, node: u8, number: u32, invocation: u32) -> Run
    ensures { result ≡ record { graph = graph; node = node; server_job = number; invocation = invocation } }
{
    Run {
        graph: u32::from(graph),
        node: u32::from(node),
        server_job: number,
        invocation,
    }
}

// The server job with a key, from what stands at its place and from its server's window. `at` is where the budget left of its slot stands.
pub fn run_of(plan: &Plan, offsets: &[u32; Table::SERVERS], s: Server, key: u32, at: u16) -> Run
    ensures { result ≡ Mirror.run_by plan.now.graph plan.now.node plan.now.lead plan.now.period offsets.now s key at }
{
    let place = (key % Table::ALL_NODES_TO) as usize;
    let slot = at as usize % Table::WINDOW;
    let number = number_of(key, plan.lead[place], offsets[place], plan.period[place]);
    let invocation = invocation_of(s.jobs[slot], number);
    shown(plan.graph[place], plan.node[place], number, invocation)
}
