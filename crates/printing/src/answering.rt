// What the program prints for a question about a table.
ghost use Rattle.std.specs.Prelude.{◌≡◌, List, ℕ, ◌≤◌, ◌<◌, length};
ghost use Rattle.schedule.specs.Limits.{table_bytes};
ghost use Rattle.rules.specs.Answers.{printed, call_of};
ghost use Rattle.writer.specs.Lengths.{longest_written};
ghost use Rattle.writing.specs.Lengths.{longest_row};
ghost use Rattle.writing.specs.Written.{Written};
ghost use Rattle.sheet.specs.Calls.{called};
ghost use Rattle.printing.specs.Rooms.{Holds};
ghost use Rattle.printing.specs.Questions.{reply_of, longest_answer};

use asking::Question;
use rules::Answer;

// The program tells no ticks walked, by neither engine.
pub fn asked(q: Question, table: &[u8], text: &mut [u8]) -> Answer
    ensures { called result text.new ≡ call_of text.old (reply_of q table.now) }
{
    match q {
        Question::Report => sheet::report(table, text),
        Question::Row(instant) => sheet::row(table, instant as u64, text).map(|row| row.length),
        Question::Rewrite => editing::rewrite(table, text),
        Question::PlainReport => plain::plain_report(table, text),
        Question::PlainRow(instant) => plain::plain_row(table, instant as u64, text).map(
            |row| row.length,
        ),
    }
}

// The answer's text, or a refusal's number and line, at the start of `text`. There is room for every text, so none is refused as 10.
pub fn put_answer(q: Question, table: &[u8], text: &mut [u8]) -> usize
    requires longest_row_in_bounds { longest_row ≤ length text.old }
    requires q_in_bounds { longest_answer q ≤ length text.old }
    ensures written { Written (printed (reply_of q table.now)) text.old text.new result }
    ensures upper_bound { result ≤ longest_answer q }
{
    match asked(q, table, &mut *text) {
        Ok(n) => n,
        Err(f) => {
            let n = writing::refusal_length(f);
            writing::put_refusal(&mut *text, f);
            n
        }
    }
}

// The same for an input that was read into a room, as far as the room goes: a room past the limit of a table's bytes is enough.
pub fn put_answer_to(q: Question, room: &[u8], n: usize, text: &mut [u8]) -> usize
    requires to_in_bounds { table_bytes.to < length room.now }
    requires n_in_bounds { n ≤ length room.now }
    requires longest_written_in_bounds { longest_written ≤ length text.old }
    ensures by_index { (input : List ℕ) → Holds input room.now n → Written (printed (reply_of q input)) text.old text.new result }
    ensures upper_bound { result ≤ length text.new }
{
    put_answer(q, &room[..n], text)
}
