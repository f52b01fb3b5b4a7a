// The line reader: it holds the lent text and a place, reads the line there, and stands behind it afterwards.
ghost use Rattle.std.specs.Prelude.{◌≡◌, ◌+◌, ◌<◌, ◌≤◌, length, drop, OnErr};
ghost use Rattle.schedule.specs.Limits as Limits;
ghost use Rattle.format.specs.Reading.{ended};
ghost use Rattle.table.specs.Keys.{place as row_of};

use crate::numbering::{FIRST_COLUMN, Place, Three, one_at, three_at};
use format::Refusal;
use table::Key;

// Lines are counted from 1. No text that is read is longer than a table, and a line takes a byte or more: so no number of a line and no
// column is large.
#[derive(Clone, Copy)]
pub struct Lines<'a> {
    pub text: &'a [u8],
    pub place: Place,
    ghost begun: { 0 < place.line },
    ghost whole: { length text.now ≤ (Limits.table_bytes).to },
    ghost short: { place.line + length (drop place.at text.now) ≤ (Limits.table_bytes).to + 1 },
}

impl<'a> Lines<'a> {
    ghost use Rattle.lines.specs.Numbered.{stands, coded_line, three_lines, Reads};

    // At the first line of a text.
    pub fn new(text: &'a [u8]) -> Lines<'a>
        requires { length text.now ≤ (Limits.table_bytes).to }
        ensures text { result.text ≡ text.entry }
        ensures place { stands result ≡ record { line = 1; bytes = text.now } }
    {
        Lines {
            text,
            place: Place { line: 1, at: 0 },
        }
    }

    // The line of key k; of the key `after`, for node number own. A reader that refuses its line stays on it.
    pub fn line(&mut self, k: Key, own: u32) -> Result<u32, Refusal>
        requires { own ≤ (Limits.nodes).to }
        ensures read { Reads self.old self.new result (coded_line (row_of k) own (stands self.old)) }
        ensures stays { OnErr result (self.new ≡ self.old) }
    {
        let (v, next) = one_at(self.text, self.place, k, own)?;
        self.place = next;
        Ok(v)
    }

    // The lines of three keys, one behind the other; of the key `after`, for node number own. A reader that refuses one of them stays on
    // the first.
    pub fn three(&mut self, one: Key, two: Key, three: Key, own: u32) -> Result<Three, Refusal>
        requires { own ≤ (Limits.nodes).to }
        ensures read { Reads self.old self.new result (three_lines (row_of one) (row_of two) (row_of three) own (stands self.old)) }
        ensures stays { OnErr result (self.new ≡ self.old) }
    {
        let (values, next) = three_at(self.text, self.place, one, two, three, own)?;
        self.place = next;
        Ok(values)
    }

    // No bytes follow the last line.
    pub fn end(&self) -> Result<(), Refusal>
        ensures { Reads self.now self.now result (ended tt (stands self.now) (stands self.now).bytes) }
    {
        if self.place.at < self.text.len() {
            return Err(Refusal::Misspelled {
                line: self.place.line,
                column: FIRST_COLUMN,
            });
        }
        Ok(())
    }
}
