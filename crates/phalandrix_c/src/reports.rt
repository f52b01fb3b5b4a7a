// The report of a table, and its row at an instant.
ghost use Rattle.std.specs.Prelude.{◌≡◌};
ghost use Rattle.rules.specs.Answers.{report_of, row_of, row_ticks_of, call_of};
ghost use Rattle.rules.specs.Demands.{TrueReport};
ghost use Rattle.sheet.specs.Exports.{Told, ToldRow};

use sheet::{PhalandrixAnswer, PhalandrixRowAnswer};

#[unsafe(no_mangle)]
pub extern "C" fn phalandrix_report(table: &[u8], buffer: &mut [u8]) -> PhalandrixAnswer
    ensures call { Told result buffer.new (call_of buffer.old (report_of table.now)) }
    ensures least_true { result.number ≡ 0 → TrueReport table.now }
{
    sheet::phalandrix_report(table, buffer)
}

#[unsafe(no_mangle)]
pub extern "C" fn phalandrix_row(
    table: &[u8],
    instant: u64,
    buffer: &mut [u8],
) -> PhalandrixRowAnswer
    ensures { ToldRow result buffer.new (call_of buffer.old (row_of table.now instant)) (row_ticks_of table.now instant) }
{
    sheet::phalandrix_row(table, instant, buffer)
}
