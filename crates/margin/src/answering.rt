// The margins of a table: the walk to its stop, then the limits, then the text in the lent buffer.
ghost use Rattle.std.specs.Prelude.{◌≡◌, ◌≤◌, length, take};
ghost use Rattle.schedule.specs.Limits as Limits;
ghost use Rattle.rules.specs.AnswerNumbers.{answer_number};
ghost use Rattle.margins.specs.Margins.{limits_of, on_limits, margin_on, margin_of};
ghost use Rattle.margins.specs.Kept.{TrueMargins};
ghost use Rattle.sheet.specs.Figures.{figures_in};
ghost use Rattle.sheet.specs.Walks.{stop_of};
ghost use Rattle.margin.specs.Calls.{answer_in, Answers};

use crate::writing_out::put_settled;
use format::Refusal;
use table::{Graph, Seen, Table};
use window::Walk;

// A refusal, by the text that its line and column stand in.
#[derive(Clone, Copy)]
pub enum MarginRefusal {
    OfTable(Refusal),
    OfLimits(Refusal),
}

// What a call refuses is of the table, but for what is found in the limit text.
impl From<Refusal> for MarginRefusal {
    ghost use Rattle.margin.specs.declared.answering.MarginRefusal.TheVariants.{OfTable};

    ghost from_gives = { λ r m. m ≡ OfTable r };

    fn from(r: Refusal) -> MarginRefusal {
        MarginRefusal::OfTable(r)
    }
}

pub type MarginAnswer = Result<usize, MarginRefusal>;

// The limit text is looked at once the table has its figures.
#[tactic(auto, using(crate::proofs::Laws::of_limits_read))]
pub fn on_limits(
    round: u32,
    ticks: u32,
    figures: &[u32],
    limits: &[u8],
    buffer: &mut [u8],
) -> MarginAnswer
    requires { length figures.now ≤ (Limits.graphs).to }
    ensures { Answers result buffer.old buffer.new (on_limits round ticks figures.now (limits_of (length figures.now) limits.now)) }
{
    let read = agelimits::limits_read(limits, figures.len());
    let (ages, _) = read.map_err(MarginRefusal::OfLimits)?;
    let n = put_settled(buffer, round, ticks, figures, &ages[..figures.len()])?;
    Ok(n)
}

pub fn margin_walk(
    graph: [Graph; Table::GRAPHS],
    graphs: usize,
    w: Walk<Seen>,
    limits: &[u8],
    buffer: &mut [u8],
) -> MarginAnswer
    requires { graphs ≤ (Limits.graphs).to }
    ensures { Answers result buffer.old buffer.new (margin_on (stop_of w.how) w.ticks (take graphs (figures_in graph w.state.worst)) (limits_of graphs limits.now)) }
{
    let round = sheet::round_of(w.how)?;
    let figures = sheet::figures_of(graph, w.state.worst);
    on_limits(round, w.ticks, &figures[..graphs], limits, buffer)
}

// The margins of a table against its limits. What it returns and leaves in the buffer is the rules' own; and where it gives margins, each is
// zero or more exactly when no invocation within budgets can ever break the limit.
pub fn margin(table: &[u8], limits: &[u8], buffer: &mut [u8]) -> MarginAnswer
    ensures call { Answers result buffer.old buffer.new (margin_of table.now limits.now) }
    ensures kept { answer_number (answer_in result) ≡ 0 → TrueMargins table.now limits.now }
{
    let p = sheet::planned(table)?;
    let w = walking::walk_to(
        p.plan,
        p.offsets,
        p.origin,
        p.hyperperiod,
        p.rounds,
        u32::MAX,
    );
    margin_walk(p.graph, p.graphs, w, limits, buffer)
}
