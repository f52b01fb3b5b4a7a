// A table in memory, for an editor: read, and written.
ghost use Rattle.std.specs.Prelude.{◌≡◌};
ghost use Rattle.format.specs.Reading.{read_of};
ghost use Rattle.rules.specs.Answers.{call_of};
ghost use Rattle.writer.specs.Judging.{write_of};
ghost use Rattle.memory.specs.Plain.{table_in};
ghost use Rattle.sheet.specs.Exports.{Told};
ghost use Rattle.editing.specs.Editing.{read_table};
ghost use Rattle.editor.specs.Exports.{reading_of};

use editor::PhalandrixReading;
use memory::PhalandrixTable;
use sheet::PhalandrixAnswer;

#[unsafe(no_mangle)]
pub extern "C" fn phalandrix_read(table: &[u8]) -> PhalandrixReading
    ensures { result ≡ reading_of (read_table (read_of table.now)) }
{
    editor::phalandrix_read(table)
}

#[unsafe(no_mangle)]
pub extern "C" fn phalandrix_write(table: PhalandrixTable, buffer: &mut [u8]) -> PhalandrixAnswer
    ensures { Told result buffer.new (call_of buffer.old (write_of (table_in table))) }
{
    editor::phalandrix_write(table, buffer)
}
