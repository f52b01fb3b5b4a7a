// Reading a table into memory; and reading and writing it again.
ghost use Rattle.std.specs.Prelude.{◌≡◌};
ghost use Rattle.format.specs.Reading.{read_of};
ghost use Rattle.rules.specs.Answers.{call_of};
ghost use Rattle.editing.specs.Calls.{called};
ghost use Rattle.editing.specs.Editing.{read_table, rewrite_of};

use crate::plains::plain_of;
use crate::writes::write;
use format::Refusal;
use memory::PhalandrixTable;
use reading::table_read;
use rules::Answer;

// A table in memory, all zeros past its counts.
pub fn read(bytes: &[u8]) -> Result<PhalandrixTable, Refusal>
    ensures { result ≡ read_table (read_of bytes.now) }
{
    let (table, _) = table_read(bytes)?;
    Ok(plain_of(table))
}

// What the program prints for `rewrite`: a legal table's own bytes, or refusal 1 to 4.
pub fn rewrite(bytes: &[u8], buffer: &mut [u8]) -> Answer
    ensures { called result buffer.new ≡ call_of buffer.old (rewrite_of bytes.now) }
{
    let table = read(bytes)?;
    write(table, buffer)
}
