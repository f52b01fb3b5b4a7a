// The tables one after another, each with its share of the buffer.
ghost use Rattle.std.specs.Prelude.{◌≡◌, ◌≤◌, length};
ghost use Rattle.schedule.specs.Limits as Limits;
ghost use Rattle.rules.specs.Batch.{total};
ghost use Rattle.batch.specs.Told.{Told, together, no_answer};

use crate::exports::PhalandrixBatch;
use sheet::{PhalandrixAnswer, phalandrix_report};
use table::Table;

// What stands past the last answer.
pub fn no_answer() -> PhalandrixAnswer
    ensures { result ≡ no_answer }
{
    PhalandrixAnswer {
        number: 0,
        line: 0,
        column: 0,
        length: 0,
    }
}

// Share i begins at i times the size: each share begins where the one before it ended.
pub fn shared_out(tables: &[u8], lengths: &[usize], buffer: &mut [u8]) -> PhalandrixBatch
    requires in_bounds { (1 ≤ length lengths.now) × (length lengths.now ≤ (Limits.tables).to) }
    requires lengths_value { total lengths.now ≡ length tables.now }
    ensures { Told result buffer.new (together tables.now lengths.now buffer.old) }
{
    let count = lengths.len();
    let size = buffer.len() / count;
    let none = no_answer();
    let mut answers = [none; Table::TABLES];
    let mut at: usize = 0;
    let mut start: usize = 0;
    for (i, length) in lengths.iter().enumerate() {
        let end = at + *length;
        let stop = start + size;
        answers[i] = phalandrix_report(&tables[at..end], &mut buffer[start..stop]);
        at = end;
        start = stop;
    }
    PhalandrixBatch {
        number: 0,
        line: 0,
        column: 0,
        count,
        answers,
    }
}
