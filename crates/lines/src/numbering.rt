// The lines at a place of a text: the values of one and of three; what is refused is the first that is misspelled, outside its limits or
// against the predecessor rules, with its number and the column at fault.
ghost use Rattle.std.specs.Prelude.{◌≡◌, ◌+◌, ◌<◌, ◌≤◌, ◌^◌, length, drop};
ghost use Rattle.schedule.specs.Limits as Limits;
ghost use Rattle.format.specs.Reading.{column_at};
ghost use Rattle.lines.specs.Numbered.{place_of, came_at, refusal_of, coded_line, three_lines};

use crate::judging::{Fault, line_from};
use format::Refusal;
use table::Keyed;

// Where reading stands: the number of the next line, and its position.
#[derive(Clone, Copy)]
pub struct Place {
    pub line: u32,
    pub at: usize,
}

// The values of three lines.
#[derive(Clone, Copy)]
pub struct Three {
    pub first: u32,
    pub second: u32,
    pub third: u32,
}

// The column of what has no byte at fault: a missing successor, bytes after the last line.
pub const FIRST_COLUMN: u32 = 1;

// The column of position p in the line that begins at a place, counted from 1.
fn column(s: &[u8], place: Place, p: usize) -> u32
    requires { length s.now ≤ (Limits.table_bytes).to }
    ensures { result ≡ column_at (drop place.at s.now) (drop p s.now) }
{
    let line = s.len().saturating_sub(place.at);
    let rest = s.len().saturating_sub(p);
    line.saturating_sub(rest) as u32 + FIRST_COLUMN
}

// The line of key k at a place does not pass. A value that is not fair is 4 of the key `after`, and 3 of the others.
fn refusal<K: Keyed>(s: &[u8], place: Place, k: K, fault: Fault) -> Refusal
    requires { length s.now ≤ (Limits.table_bytes).to }
    ensures { result ≡ refusal_of s.now place (K.key_number k) fault }
{
    let line = place.line;
    match fault {
        Fault::Misspelled(p) => Refusal::Misspelled {
            line,
            column: column(s, place, p),
        },
        Fault::Unfair(p) => {
            let column = column(s, place, p);
            if k.is_after() {
                Refusal::AgainstPredecessorRules { line, column }
            } else {
                Refusal::OutsideLimits { line, column }
            }
        }
    }
}

// The line of key k at a place; of the key `after`, for node number own. Its value, and the place behind it. (Inline, since at a key that the
// compiler knows its name is compared at once.)
#[inline]
pub fn one_at<K: Keyed>(s: &[u8], place: Place, k: K, own: u32) -> Result<(u32, Place), Refusal>
    requires { (place.line + 1 < 2 ^ 32) × (own ≤ (Limits.nodes).to) × (length s.now ≤ (Limits.table_bytes).to) }
    ensures { came_at s.now result ≡ coded_line (K.key_number k) own (place_of s.now place) }
{
    match line_from(s, place.at, k, own) {
        Ok((v, at)) => {
            let line = place.line + 1;
            Ok((v, Place { line, at }))
        }
        Err(fault) => Err(refusal(s, place, k, fault)),
    }
}

// The lines of three keys from a place on, one behind the other; of the key `after`, for node number own.
pub fn three_at<K: Keyed>(
    s: &[u8],
    place: Place,
    one: K,
    two: K,
    three: K,
    own: u32,
) -> Result<(Three, Place), Refusal>
    requires { (place.line + 3 < 2 ^ 32) × (own ≤ (Limits.nodes).to) × (length s.now ≤ (Limits.table_bytes).to) }
    ensures { came_at s.now result ≡ three_lines (K.key_number one) (K.key_number two) (K.key_number three) own (place_of s.now place) }
{
    let (first, p) = one_at(s, place, one, own)?;
    let (second, q) = one_at(s, p, two, own)?;
    let (third, r) = one_at(s, q, three, own)?;
    let values = Three {
        first,
        second,
        third,
    };
    Ok((values, r))
}
