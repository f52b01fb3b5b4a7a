// The row of a table at an instant: the walk to that instant, or past the stop of a settled walk to the instant of the last round that matches
// it; and the text of what runs there in the lent buffer.
ghost use Rattle.std.specs.Prelude.{◌≡◌, IfOk};
ghost use Rattle.rules.specs.Answers.{answer_in, row_of, row_ticks_of, call_of};
ghost use Rattle.sheet.specs.Calls.{called};
ghost use Rattle.sheet.specs.Walks.{Walkable};
ghost use Rattle.plainlaws.specs.Rows as Mirror;

use crate::walks::walked;
use admission::Admitted;
use format::Refusal;
use looking::{End, Look};
use rules::RowAnswer;
use table::Table;

// What the walk to an instant shows.
pub fn looked(a: Admitted, asked: u32) -> Look
    requires { Walkable a }
    ensures { result ≡ Mirror.look_of a asked }
{
    let w = walked(a, asked);
    let plan = planning::plan_of(a.table);
    let offsets = planning::offsets_of(a.table);
    Look {
        end: End::from(w.how),
        ticks: w.ticks,
        row: plainranks::row_of(&plan, &offsets, &w.state),
    }
}

// The row of a table at an instant, by the plain engine: what it promises is what `row` does.
pub fn plain_row(table: &[u8], instant: u64, buffer: &mut [u8]) -> RowAnswer
    ensures call { called (answer_in result) buffer.new ≡ call_of buffer.old (row_of table.now instant) }
    ensures walked { IfOk result (λ x. x.walked ≡ row_ticks_of table.now instant) }
{
    let a = admission::admit(table)?;
    if (Table::INSTANT_TO as u64) < instant {
        return Err(Refusal::PastTheStop);
    }
    let t = instant as u32;
    let l = looked(a, t);
    match l.end {
        End::Reached => sheet::put_row(buffer, l.row, t),
        End::Settled => {
            let hyper = a.hyperperiod;
            let there = looked(a, repeating::matching(hyper, l.ticks, t));
            let far = repeating::far_row(there.row, a.table.graph, hyper, l.ticks, t);
            sheet::put_row(buffer, far, l.ticks)
        }
        End::Stopped => Err(Refusal::PastTheStop),
    }
}
