// What the program prints of a table and its limits (R-12).
#![tactic(auto)]

ghost use Rattle.std.specs.Prelude.{◌≡◌, List, ℕ, ◌≤◌, ◌<◌, length};
ghost use Rattle.schedule.specs.Limits.{table_bytes, limit_bytes};
ghost use Rattle.margins.specs.Margins.{margin_of};
ghost use Rattle.marginlines.specs.Lines.{longest_margins};
ghost use Rattle.printing.specs.Rooms.{Holds};
ghost use Rattle.rules.specs.Answers.{refuses, printed};
ghost use Rattle.writing.specs.Written.{Written};
ghost use Rattle.marginprints.specs.Printed.{PrintedAs};

use format::Refusal;
use margin::MarginRefusal;

// The length of what is printed, and whether it is a refusal of the limit text, so that people can be told. A text is printed in each case, so
// there is nothing here that an Option or a Result would say.
#[derive(Clone, Copy)]
pub struct MarginPrinted {
    pub length: usize,
    pub in_limits: bool,
}

// A refusal's number, line and column, at the start of `text`.
fn put_refused(text: &mut [u8], f: Refusal) -> usize
    requires { longest_margins ≤ length text.old }
    ensures { Written (printed (refuses f)) text.old text.new result }
{
    let n = writing::refusal_length(f);
    writing::put_refusal(text, f);
    n
}

// The text of the margins, or a refusal's number, line and column, at the start of `text`. There is room for every text, so none is refused as 10.
pub fn put_margin(table: &[u8], limits: &[u8], text: &mut [u8]) -> MarginPrinted
    requires { longest_margins ≤ length text.old }
    ensures { PrintedAs (margin_of table.now limits.now) text.old text.new result }
{
    match margin::margin(table, limits, &mut *text) {
        Ok(length) => MarginPrinted {
            length,
            in_limits: false,
        },
        Err(MarginRefusal::OfTable(f)) => MarginPrinted {
            length: put_refused(text, f),
            in_limits: false,
        },
        Err(MarginRefusal::OfLimits(f)) => MarginPrinted {
            length: put_refused(text, f),
            in_limits: true,
        },
    }
}

// The same for inputs of which the first n and m bytes of two rooms are as much as the rooms hold: rooms past the limits are enough.
pub fn put_margin_to(
    table: &[u8],
    n: usize,
    limits: &[u8],
    m: usize,
    text: &mut [u8],
) -> MarginPrinted
    requires to_in_bounds { (table_bytes.to < length table.now) × (n ≤ length table.now) }
    requires to_in_bounds_2 { (limit_bytes.to < length limits.now) × (m ≤ length limits.now) }
    requires longest_margins_in_bounds { longest_margins ≤ length text.old }
    ensures by_index { (s l : List ℕ) → Holds s table.now n → Holds l limits.now m → PrintedAs (margin_of s l) text.old text.new result }
    ensures length_in_bounds { result.length ≤ length text.new }
{
    put_margin(&table[..n], &limits[..m], text)
}
