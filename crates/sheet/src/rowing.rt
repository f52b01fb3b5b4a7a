// The row of a table at an instant: the walk to that instant, or past the stop of a settled walk to the instant of the last round that matches
// it; and the text of what runs there in the lent buffer.
ghost use Rattle.std.specs.Prelude.{◌≡◌, ◌≤◌, IfOk};
ghost use Rattle.schedule.specs.Limits as Limits;
ghost use Rattle.rules.specs.Answers.{answer_in, says, row_text, row_of, row_ticks_of, call_of};
ghost use Rattle.writing.specs.Row.{running_in};
ghost use Rattle.rows.specs.Showing as Showing;
ghost use Rattle.sheet.specs.Calls.{called};
ghost use Rattle.sheet.specs.Rows as Mirror;

use crate::plans::planned;
use format::Refusal;
use rules::{Answer, RowAnswer, RowText};
use table::{Seen, Table};
use window::{How, Plan};
use writing::Row;

// Refusal 10 is known before the first byte is written.
pub fn put_running(buffer: &mut [u8], row: Row) -> Answer
    requires { row.count ≤ (Limits.processors).to }
    ensures { called result buffer.new ≡ call_of buffer.old (says (row_text (running_in row))) }
{
    let n = writing::row_length(row);
    if buffer.len() < n {
        return Err(Refusal::ShortBuffer);
    }
    writing::put_row(buffer, row);
    Ok(n)
}

// What runs where a walk came to the instant asked. Called from two places it stays a function of its own: what it copies is gone when there is
// a second walk.
pub fn shown(plan: Plan, offsets: [u32; Table::SERVERS], st: Seen) -> Row
    requires { plan.processors ≤ (Limits.processors).to }
    ensures { result ≡ Showing.row_of plan offsets st }
{
    let servers = st.servers;
    let first = st.first;
    let count = st.count;
    rows::row_of(plan, offsets, servers, first, count)
}

pub fn put_row(buffer: &mut [u8], row: Row, ticks: u32) -> RowAnswer
    requires { row.count ≤ (Limits.processors).to }
    ensures { Mirror.Answered (says (row_text (running_in row))) ticks buffer.old buffer.new result }
{
    let length = put_running(buffer, row)?;
    Ok(RowText {
        length,
        walked: ticks,
    })
}

// The row of a table at an instant. What it returns and leaves in the buffer is the rules' own, and so are the ticks walked that it tells. An
// instant above its limit is refused as 9 without a walk, and so is a walk that stopped at or before the instant and did not settle. At or
// past the stop of one that settled, the table is walked again, to the matching instant, and the row there is moved on.
pub fn row(table: &[u8], instant: u64, buffer: &mut [u8]) -> RowAnswer
    ensures call { called (answer_in result) buffer.new ≡ call_of buffer.old (row_of table.now instant) }
    ensures walked { IfOk result (λ x. x.walked ≡ row_ticks_of table.now instant) }
{
    // Not `?`, which would put one more copy of the plan on the stack, under both walks.
    let p = match planned(table) {
        Ok(p) => p,
        Err(r) => return Err(r),
    };
    if (Table::INSTANT_TO as u64) < instant {
        return Err(Refusal::PastTheStop);
    }
    let t = instant as u32;
    let offsets = p.offsets;
    let hyper = p.hyperperiod;
    let w = walking::walk_to(p.plan, offsets, p.origin, hyper, p.rounds, t);
    match w.how {
        How::Reached => put_row(buffer, shown(p.plan, offsets, w.state), t),
        How::Settled(_) => {
            let at = repeating::matching(hyper, w.ticks, t);
            let u = walking::walk_to(p.plan, offsets, p.origin, hyper, p.rounds, at);
            let there = shown(p.plan, offsets, u.state);
            let far = repeating::far_row(there, p.graph, hyper, w.ticks, t);
            put_row(buffer, far, w.ticks)
        }
        How::Unsettled | How::Backlog => Err(Refusal::PastTheStop),
    }
}
