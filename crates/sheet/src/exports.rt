// The two calls as C takes them; phalandrix_c exports them. A slice passes as a pointer and a length, and the answer by value.
ghost use Rattle.std.specs.Prelude.{◌≡◌};
ghost use Rattle.rules.specs.Answers.{report_of, row_of, row_ticks_of, call_of};
ghost use Rattle.rules.specs.Demands.{TrueReport};
ghost use Rattle.sheet.specs.Exports.{Told, ToldRow};

use crate::reporting::report;
use crate::rowing::row;
use rules::{Answer, RowAnswer};

// Document 01's number and line, document 02's column, and the text's length: 0, 0 and 0 with the length; or a refusal's own with length 0.
#[repr(C)]
#[derive(Clone, Copy)]
pub struct PhalandrixAnswer {
    pub number: u32,
    pub line: u32,
    pub column: u32,
    pub length: usize,
}

// The same of a row, with the ticks walked for it: 0 with a refusal.
#[repr(C)]
#[derive(Clone, Copy)]
pub struct PhalandrixRowAnswer {
    pub number: u32,
    pub line: u32,
    pub column: u32,
    pub walked: u32,
    pub length: usize,
}

impl From<Answer> for PhalandrixAnswer {
    ghost use Rattle.sheet.specs.Exports.{told_of};

    ghost from_gives = { λ a p. p ≡ told_of a };

    fn from(answer: Answer) -> PhalandrixAnswer {
        match answer {
            Ok(length) => PhalandrixAnswer {
                number: 0,
                line: 0,
                column: 0,
                length,
            },
            Err(f) => PhalandrixAnswer {
                number: writing::number_of(f),
                line: writing::line_of(f),
                column: writing::column_of(f),
                length: 0,
            },
        }
    }
}

pub fn phalandrix_report(table: &[u8], buffer: &mut [u8]) -> PhalandrixAnswer
    ensures call { Told result buffer.new (call_of buffer.old (report_of table.now)) }
    ensures least_true { result.number ≡ 0 → TrueReport table.now }
{
    PhalandrixAnswer::from(report(table, buffer))
}

impl From<RowAnswer> for PhalandrixRowAnswer {
    ghost use Rattle.sheet.specs.Exports.{told_row_of};

    ghost from_gives = { λ a p. p ≡ told_row_of a };

    fn from(answer: RowAnswer) -> PhalandrixRowAnswer {
        let walked = match answer {
            Ok(text) => text.walked,
            Err(_) => 0,
        };
        let told = PhalandrixAnswer::from(answer.map(|text| text.length));
        PhalandrixRowAnswer {
            number: told.number,
            line: told.line,
            column: told.column,
            walked,
            length: told.length,
        }
    }
}

pub fn phalandrix_row(table: &[u8], instant: u64, buffer: &mut [u8]) -> PhalandrixRowAnswer
    ensures { ToldRow result buffer.new (call_of buffer.old (row_of table.now instant)) (row_ticks_of table.now instant) }
{
    PhalandrixRowAnswer::from(row(table, instant, buffer))
}
