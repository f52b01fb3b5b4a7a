// The report of a table: the walk to its stop, and the text of its figures in the lent buffer.
ghost use Rattle.std.specs.Prelude.{◌≡◌, ◌≤◌, length, take};
ghost use Rattle.schedule.specs.Limits as Limits;
ghost use Rattle.rules.specs.Answers.{says, report_text, report_on, report_of, call_of};
ghost use Rattle.rules.specs.AnswerNumbers.{answer_number};
ghost use Rattle.rules.specs.Demands.{TrueReport};
ghost use Rattle.sheet.specs.Figures.{figures_in};
ghost use Rattle.sheet.specs.Walks.{stop_of, round_in};
ghost use Rattle.sheet.specs.Calls.{called};

use crate::figures::figures_of;
use crate::plans::planned;
use format::Refusal;
use rules::Answer;
use table::{Graph, Seen, Table};
use window::{How, Walk};

// Refusal 10 is known before the first byte is written. (`put_running`, and `put_settled` of crate margin, are alike: one function over a closure
// would have to be given again, at each closure, the clauses of the function that writes.)
pub fn put_settled(buffer: &mut [u8], round: u32, ticks: u32, figures: &[u32]) -> Answer
    requires { length figures.now ≤ (Limits.graphs).to }
    ensures { called result buffer.new ≡ call_of buffer.old (says (report_text round ticks figures.now)) }
{
    let n = writing::report_length(round, ticks, figures);
    if buffer.len() < n {
        return Err(Refusal::ShortBuffer);
    }
    writing::put_report(buffer, round, ticks, figures);
    Ok(n)
}

// The round of a walk that settled, or the refusal of one that did not. (A report's walk comes to no instant asked.)
pub fn round_of(how: How) -> Result<u32, Refusal>
    ensures { result ≡ round_in (stop_of how) }
{
    match how {
        How::Settled(k) => Ok(k),
        How::Backlog => Err(Refusal::Backlog),
        How::Unsettled | How::Reached => Err(Refusal::Unsettled),
    }
}

pub fn report_walk(
    graph: [Graph; Table::GRAPHS],
    graphs: usize,
    w: Walk<Seen>,
    buffer: &mut [u8],
) -> Answer
    requires { graphs ≤ (Limits.graphs).to }
    ensures { called result buffer.new ≡ call_of buffer.old (report_on (stop_of w.how) w.ticks (take graphs (figures_in graph w.state.worst))) }
{
    let round = round_of(w.how)?;
    let figures = figures_of(graph, w.state.worst);
    put_settled(buffer, round, w.ticks, &figures[..graphs])
}

// The report of a table. What it returns and leaves in the buffer is the rules' own; and where it gives figures, each is the least true one.
pub fn report(table: &[u8], buffer: &mut [u8]) -> Answer
    ensures call { called result buffer.new ≡ call_of buffer.old (report_of table.now) }
    ensures least_true { answer_number result ≡ 0 → TrueReport table.now }
{
    let p = planned(table)?;
    let w = walking::walk_to(
        p.plan,
        p.offsets,
        p.origin,
        p.hyperperiod,
        p.rounds,
        u32::MAX,
    );
    report_walk(p.graph, p.graphs, w, buffer)
}
