// The plan of a table, made in place in one loop: no copy of a plan for each graph.
ghost use Rattle.std.specs.Prelude.{◌≡◌, ◌<◌};
ghost use Rattle.window.specs.Entries.{places};
ghost use Rattle.planning.specs.Plans as Mirror;

use crate::graphs::{next_graph, number_in};
use crate::places::at_places;
use table::{Graph, Node, Table};
use window::Plan;

// What the plan has at a place.
#[derive(Clone, Copy)]
pub struct Entry {
    pub budget: u16,
    pub after: u32,
    pub level: u8,
    pub step: u32,
    pub lead: u32,
    pub room: u8,
    pub node: u8,
}

// Node x of graph y at place i. A sink may have UNFINISHED unfinished jobs, another node as many as a number has room for.
pub fn entry_of(x: Node, y: Graph, i: usize) -> Entry
    requires { i < places }
    ensures { result ≡ Mirror.entry_of x y i }
{
    let number = number_in(y, i);
    let step = y.period.min(u32::from(u16::MAX)) * Table::ALL_NODES_TO;
    let room = if number == y.nodes {
        Table::UNFINISHED as u8
    } else {
        u8::MAX
    };
    Entry {
        budget: u16::try_from(x.budget).unwrap_or(u16::MAX),
        after: at_places(x.after, (i + 1 - number) as u32),
        level: u8::try_from(x.level).unwrap_or(u8::MAX),
        step,
        lead: step + i as u32,
        room,
        node: number as u8,
    }
}

// A plan of these processors and this many nodes, with no node at its place yet.
pub fn no_plan(processors: u32, nodes: usize) -> Plan
    ensures { result ≡ Mirror.no_plan processors nodes }
{
    Plan {
        processors: processors as usize,
        nodes,
        budget: [0u16; Table::SERVERS],
        after: [0u32; Table::SERVERS],
        level: [0u8; Table::SERVERS],
        period: [0u32; Table::SERVERS],
        step: [0u32; Table::SERVERS],
        lead: [0u32; Table::SERVERS],
        room: [0u8; Table::SERVERS],
        graph: [0u8; Table::SERVERS],
        node: [0u8; Table::SERVERS],
    }
}

// Each node at its place.
pub fn plan_of(table: Table) -> Plan
    ensures { result ≡ Mirror.plan_of table }
{
    let n = table.nodes.min(Table::SERVERS);
    let mut p = no_plan(table.processors, table.nodes);
    let mut g: usize = 0;
    for i in 0..n {
        let y = table.graph[g];
        let e = entry_of(table.node[i], y, i);
        p.budget[i] = e.budget;
        p.after[i] = e.after;
        p.level[i] = e.level;
        p.period[i] = y.period;
        p.step[i] = e.step;
        p.lead[i] = e.lead;
        p.room[i] = e.room;
        p.graph[i] = (g + 1) as u8;
        p.node[i] = e.node;
        g = next_graph(y, i, g);
    }
    p
}
