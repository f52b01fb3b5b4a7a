// Several tables: each in its slot of a room, and what the program prints for them.
ghost use Rattle.std.specs.Prelude.{◌≡◌, true, List, ◌++◌, ℕ, ◌+◌, ◌≤◌, length};
ghost use Rattle.format.specs.Bytes.{bytes};
ghost use Rattle.rules.specs.Answers.{answer_line, printed, report_of};
ghost use Rattle.rules.specs.Batch.{add_up, printed_of, batch_printed};
ghost use Rattle.writing.specs.Lengths.{longest_line, longest_row};
ghost use Rattle.writing.specs.Written.{Written};
ghost use Rattle.schedule.specs.Limits as Limits;
ghost use Rattle.printing.specs.Batches.{slots_bytes, in_slot, HoldTables, longest_numbered, longest_batch};

use crate::answering::put_answer;
use asking::Question;
use table::Table;

// One byte more than a table may have: what is kept of a longer one is enough to refuse it.
pub const SLOT: usize = Table::TABLE_BYTES_TO as usize + 1;

pub const SLOTS: usize = Table::TABLES * SLOT;

// A line `table=` with its number, then what is printed for that table alone.
pub fn put_numbered(number: u32, table: &[u8], text: &mut [u8]) -> usize
    requires { longest_line (bytes "table") + longest_row ≤ length text.old }
    ensures written { Written (answer_line "table" number ++ printed (report_of table.now)) text.old text.new result }
    ensures upper_bound { result ≤ longest_numbered }
{
    let at = writing::put_line(&mut *text, b"table", number);
    at + put_answer(Question::Report, table, &mut text[at..])
}

// Table after table, each text behind the one before it.
pub fn put_tables(lengths: &[usize], room: &[u8], text: &mut [u8]) -> usize
    requires lengths_len_bound { length lengths.now ≤ (Limits.tables).to }
    requires slots_bytes_in_bounds { slots_bytes ≤ length room.now }
    requires longest_batch_in_bounds { longest_batch ≤ length text.old }
    ensures written { Written (printed_of report_of (in_slot lengths.now room.now) (length lengths.now)) text.old text.new result }
    ensures upper_bound { result ≤ length text.new }
{
    let mut at: usize = 0;
    for (i, length) in lengths.iter().enumerate() {
        let start = i * SLOT;
        let end = start + (*length).min(SLOT);
        at += put_numbered(i as u32 + 1, &room[start..end], &mut text[at..]);
    }
    at
}

// The same for an input whose tables stand in the slots of a room, as far as a slot goes.
pub fn put_batch(lengths: &[usize], room: &[u8], text: &mut [u8]) -> usize
    requires lengths_len_bound { length lengths.now ≤ (Limits.tables).to }
    requires slots_bytes_in_bounds { slots_bytes ≤ length room.now }
    requires longest_batch_in_bounds { longest_batch ≤ length text.old }
    ensures by_index { (input : List ℕ) → add_up input lengths.now ≡ true → HoldTables input lengths.now room.now → Written (batch_printed input lengths.now) text.old text.new result }
    ensures upper_bound { result ≤ length text.new }
{
    put_tables(lengths, room, text)
}
