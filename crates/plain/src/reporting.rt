// The report of a table: the walk to its stop, and the text of its figures in the lent buffer.
ghost use Rattle.std.specs.Prelude.{◌≡◌, ◌≤◌, take};
ghost use Rattle.schedule.specs.Limits as Limits;
ghost use Rattle.rules.specs.Answers.{report_on, report_of, call_of};
ghost use Rattle.rules.specs.AnswerNumbers.{answer_number};
ghost use Rattle.rules.specs.Demands.{TrueReport};
ghost use Rattle.sheet.specs.Figures.{figures_of};
ghost use Rattle.sheet.specs.Calls.{called};
ghost use Rattle.sheet.specs.Walks.{stop_of};

use crate::walks::walked;
use ledger::Ledger;
use rules::Answer;
use table::Table;
use window::Walk;

pub fn report_walk(table: Table, w: Walk<Ledger>, buffer: &mut [u8]) -> Answer
    requires { table.graphs ≤ (Limits.graphs).to }
    ensures { called result buffer.new ≡ call_of buffer.old (report_on (stop_of w.how) w.ticks (take table.graphs (figures_of table w.state.worst))) }
{
    let round = sheet::round_of(w.how)?;
    let figures = sheet::figures_of(table.graph, w.state.worst);
    sheet::put_settled(buffer, round, w.ticks, &figures[..table.graphs])
}

// The report of a table, by the plain engine: what it promises is what `report` does.
pub fn plain_report(table: &[u8], buffer: &mut [u8]) -> Answer
    ensures call { called result buffer.new ≡ call_of buffer.old (report_of table.now) }
    ensures least_true { answer_number result ≡ 0 → TrueReport table.now }
{
    let a = admission::admit(table)?;
    report_walk(a.table, walked(a, u32::MAX), buffer)
}
