// The calls as C takes them; phalandrix_c exports them. A slice passes as a pointer and a length; tables in memory and answers pass by value.
ghost use Rattle.std.specs.Prelude.{◌≡◌};
ghost use Rattle.format.specs.Reading.{read_of};
ghost use Rattle.rules.specs.Answers.{call_of};
ghost use Rattle.writer.specs.Judging.{write_of};
ghost use Rattle.memory.specs.Plain.{table_in};
ghost use Rattle.sheet.specs.Exports.{Told};
ghost use Rattle.editing.specs.Editing.{read_table};
ghost use Rattle.editor.specs.Exports.{reading_of};

use editing::{read, write};
use format::Refusal;
use memory::PhalandrixTable;
use sheet::PhalandrixAnswer;

// 0, 0 and 0 with the table; or a refusal's number, line and column with a table of zeros.
#[repr(C)]
#[derive(Clone, Copy)]
pub struct PhalandrixReading {
    pub number: u32,
    pub line: u32,
    pub column: u32,
    pub table: PhalandrixTable,
}

impl From<Result<PhalandrixTable, Refusal>> for PhalandrixReading {
    ghost use Rattle.editor.specs.Exports.{reading_of};

    ghost from_gives = { λ read r. r ≡ reading_of read };

    fn from(read: Result<PhalandrixTable, Refusal>) -> PhalandrixReading {
        match read {
            Ok(table) => PhalandrixReading {
                number: 0,
                line: 0,
                column: 0,
                table,
            },
            Err(f) => PhalandrixReading {
                number: writing::number_of(f),
                line: writing::line_of(f),
                column: writing::column_of(f),
                table: PhalandrixTable::default(),
            },
        }
    }
}

pub fn phalandrix_read(table: &[u8]) -> PhalandrixReading
    ensures { result ≡ reading_of (read_table (read_of table.now)) }
{
    PhalandrixReading::from(read(table))
}

pub fn phalandrix_write(table: PhalandrixTable, buffer: &mut [u8]) -> PhalandrixAnswer
    ensures { Told result buffer.new (call_of buffer.old (write_of (table_in table))) }
{
    PhalandrixAnswer::from(write(table, buffer))
}
