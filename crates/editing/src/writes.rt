// Writing a table in memory: refusals 3 and 4 in line order, then 10, else its text.
ghost use Rattle.std.specs.Prelude.{true, ◌≡◌};
ghost use Rattle.schedule.specs.WellFormed.{well_formed};
ghost use Rattle.rules.specs.Answers.{says, call_of};
ghost use Rattle.writer.specs.Writing.{written_of};
ghost use Rattle.writer.specs.Judging.{write_of};
ghost use Rattle.memory.specs.Plain.{table_in};
ghost use Rattle.editing.specs.Calls.{called};

use format::Refusal;
use memory::{PhalandrixTable, table_judged};
use putting::put_table;
use rules::Answer;
use writing::put_bytes;

// No table's text is longer: `longest_written` of the definitions.
pub const WRITTEN_BYTES: usize = 2_616;

// The text is made in room of its own, so that refusal 10 is known before the first byte of the buffer is written.
pub fn put_formed(table: PhalandrixTable, buffer: &mut [u8]) -> Answer
    requires { well_formed (table_in table) ≡ true }
    ensures { called result buffer.new ≡ call_of buffer.old (says (written_of (table_in table))) }
{
    let mut text = [0u8; WRITTEN_BYTES];
    let n = put_table(&mut text, table);
    if buffer.len() < n {
        return Err(Refusal::ShortBuffer);
    }
    put_bytes(buffer, &text[..n]);
    Ok(n)
}

// Any content of the table is judged, and written where it passes.
pub fn write(table: PhalandrixTable, buffer: &mut [u8]) -> Answer
    ensures { called result buffer.new ≡ call_of buffer.old (write_of (table_in table)) }
{
    table_judged(table)?;
    put_formed(table, buffer)
}
