// The row: of each rank below the number of processors the ready server job that has it, if there is one.
ghost use Rattle.std.specs.Prelude.{◌≡◌, ◌<◌, IfSome};
ghost use Rattle.window.specs.Entries.{places, nodes_of};
ghost use Rattle.ledger.specs.Ranks as Mirror;
ghost use Rattle.ledger.specs.Showing as Shown;

use crate::ranks::{last_ready, rank};
use ledger::{Found, Ledger};
use plainsteps::slot;
use table::Table;
use window::Plan;
use writing::{Row, Run};

// The number of the ready server job of rank r of the server at place i, if it has one. (No two have the same rank.)
pub fn found_in(
    plan: &Plan,
    offsets: &[u32; Table::SERVERS],
    l: &Ledger,
    i: usize,
    r: u32,
) -> Option<u32>
    requires { i < places }
    ensures { result ≡ Mirror.found_in offsets.now plan.now.period plan.now.level l.now.complete l.now.released (nodes_of plan.now) i r }
{
    for k in (l.complete[i]..last_ready(plan, l, i)).rev() {
        if rank(plan, offsets, l, i, k + 1) == r {
            return Some(k + 1);
        }
    }
    None
}

// The ready server job of rank r, if there is one.
pub fn found(plan: &Plan, offsets: &[u32; Table::SERVERS], l: &Ledger, r: u32) -> Option<Found>
    ensures is { result ≡ Mirror.found offsets.now plan.now.period plan.now.level l.now.complete l.now.released (nodes_of plan.now) r }
    ensures inside { IfSome result (λ x. x.place < places) }
{
    for place in (0..plan.nodes.min(Table::SERVERS)).rev() {
        if let Some(number) = found_in(plan, offsets, l, place, r) {
            return Some(Found { place, number });
        }
    }
    None
}

// A line of the row: graph, node, server job and the invocation of the job linked to it.
pub fn run_of(graph: u8, node: u8, number: u32, link: u32) -> Run
    ensures { result ≡ Shown.run_of graph node number link }
{
    Run {
        graph: u32::from(graph),
        node: u32::from(node),
        server_job: number,
        invocation: link,
    }
}

// A row with no line yet.
pub fn blank() -> Row
    ensures { result ≡ Shown.blank }
{
    let none = Run {
        graph: 0,
        node: 0,
        server_job: 0,
        invocation: 0,
    };
    Row {
        run: [none; Table::RUNNING],
        count: 0,
    }
}

pub fn row_of(plan: &Plan, offsets: &[u32; Table::SERVERS], l: &Ledger) -> Row
    ensures { result ≡ Shown.row_of plan.now offsets.now l.now }
{
    let mut row = blank();
    for r in 0..plan.processors.min(Table::RUNNING) {
        if let Some(x) = found(plan, offsets, l, r as u32) {
            let i = x.place;
            let m = row.count;
            let s = slot(i, x.number);
            row.run[m] = run_of(plan.graph[i], plan.node[i], x.number, l.link[s]);
            row.count = m + 1;
        }
    }
    row
}
