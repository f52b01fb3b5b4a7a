// The row's text: one line `run=graph,node,server job,invocation` per running server job in priority order.
ghost use Rattle.std.specs.Prelude.{◌≡◌, [], ◌∷◌, ◌≤◌, length, take};
ghost use Rattle.schedule.specs.Limits as Limits;
ghost use Rattle.rules.specs.Answers.{row_text};
ghost use Rattle.writing.specs.Lengths.{Long, longest_run, longest_row};
ghost use Rattle.writing.specs.Written.{Written};
ghost use Rattle.writing.specs.Row.{running_of, running_in};

use crate::line::{put_bytes, put_pair};
use crate::number::digits;
use table::Table;

// A running server job; `invocation` is 0 for an unlinked one.
#[derive(Clone, Copy, Default)]
pub struct Run {
    pub graph: u32,
    pub node: u32,
    pub server_job: u32,
    pub invocation: u32,
}

// The first `count` of `run` run. An array and a count: there is no heap, and a row goes by value. No invariant bounds the count: the rows that
// specs/ of `rows` and `ledger` speak of may count past it.
#[derive(Clone, Copy)]
pub struct Row {
    pub run: [Run; Table::RUNNING],
    pub count: usize,
}

impl Row {
    // What runs.
    fn running(&self) -> &[Run]
        requires { self.now.count ≤ (Limits.processors).to }
        ensures { result.now ≡ take self.now.count self.now.run }
    {
        &self.run[..self.count]
    }
}

pub fn run_length(x: Run) -> usize
    ensures { Long (row_text (running_of x ∷ [])) longest_run result }
{
    // The line without its numbers.
    let marks = b"run=,,,\n";
    marks.len() + digits(x.graph) + digits(x.node) + digits(x.server_job) + digits(x.invocation)
}

pub fn row_length(row: Row) -> usize
    requires { row.count ≤ (Limits.processors).to }
    ensures { Long (row_text (running_in row)) longest_row result }
{
    let mut n: usize = 0;
    for x in row.running() {
        n += run_length(*x);
    }
    n
}

pub fn put_run(part: &mut [u8], x: Run) -> usize
    requires { length (row_text (running_of x ∷ [])) ≤ length part.old }
    ensures { Written (row_text (running_of x ∷ [])) part.old part.new result }
{
    let first = put_bytes(&mut *part, b"run=");
    let second = first + put_pair(&mut part[first..], x.graph, x.node, b',');
    second + put_pair(&mut part[second..], x.server_job, x.invocation, b'\n')
}

// Each line begins where the line before it ended.
pub fn put_row(buf: &mut [u8], row: Row) -> usize
    requires count_bound { row.count ≤ (Limits.processors).to }
    requires row_in_bounds { length (row_text (running_in row)) ≤ length buf.old }
    ensures { Written (row_text (running_in row)) buf.old buf.new result }
{
    let mut at: usize = 0;
    for x in row.running() {
        at += put_run(&mut buf[at..], *x);
    }
    at
}
