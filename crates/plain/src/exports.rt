// The two calls as C takes them; phalandrix_c exports them. A slice passes as a pointer and a length, and the answer by value.
ghost use Rattle.std.specs.Prelude.{◌≡◌};
ghost use Rattle.rules.specs.Answers.{report_of, row_of, row_ticks_of, call_of};
ghost use Rattle.rules.specs.Demands.{TrueReport};
ghost use Rattle.sheet.specs.Exports.{Told, ToldRow};

use crate::reporting::plain_report;
use crate::rowing::plain_row;
use sheet::{PhalandrixAnswer, PhalandrixRowAnswer};

pub fn phalandrix_plain_report(table: &[u8], buffer: &mut [u8]) -> PhalandrixAnswer
    ensures call { Told result buffer.new (call_of buffer.old (report_of table.now)) }
    ensures least_true { result.number ≡ 0 → TrueReport table.now }
{
    PhalandrixAnswer::from(plain_report(table, buffer))
}

pub fn phalandrix_plain_row(table: &[u8], instant: u64, buffer: &mut [u8]) -> PhalandrixRowAnswer
    ensures { ToldRow result buffer.new (call_of buffer.old (row_of table.now instant)) (row_ticks_of table.now instant) }
{
    PhalandrixRowAnswer::from(plain_row(table, instant, buffer))
}
