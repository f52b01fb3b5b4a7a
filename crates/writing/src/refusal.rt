// What the program prints of a refusal: `answer=` with the number, `line=` and `column=`.
ghost use Rattle.std.specs.Prelude.{◌≡◌, ◌≤◌, length};
ghost use Rattle.format.specs.Refusals.{number_of, line_of, column_of};
ghost use Rattle.rules.specs.Answers.{refuses, printed};
ghost use Rattle.writing.specs.Lengths.{Long, longest_place, longest_refusal};
ghost use Rattle.writing.specs.Line.{placed};
ghost use Rattle.writing.specs.Written.{Written};

use crate::line::{line_length, put_line};
use format::Refusal;

// Functions and no `From` or methods: neither `Refusal` nor `u32` is of this crate.
pub fn number_of(r: Refusal) -> u32
    ensures { result ≡ number_of r }
{
    match r {
        Refusal::TooLong => 1,
        Refusal::Misspelled { .. } => 2,
        Refusal::OutsideLimits { .. } => 3,
        Refusal::AgainstPredecessorRules { .. } => 4,
        Refusal::LongHyperperiod => 5,
        Refusal::NotLoadable => 6,
        Refusal::Backlog => 7,
        Refusal::Unsettled => 8,
        Refusal::PastTheStop => 9,
        Refusal::ShortBuffer => 10,
        Refusal::WrongLengths => 11,
        Refusal::CannotKeepUp => 12,
    }
}

pub fn line_of(r: Refusal) -> u32
    ensures { result ≡ line_of r }
{
    match r {
        Refusal::Misspelled { line, .. }
        | Refusal::OutsideLimits { line, .. }
        | Refusal::AgainstPredecessorRules { line, .. } => line,
        _ => 0,
    }
}

pub fn column_of(r: Refusal) -> u32
    ensures { result ≡ column_of r }
{
    match r {
        Refusal::Misspelled { column, .. }
        | Refusal::OutsideLimits { column, .. }
        | Refusal::AgainstPredecessorRules { column, .. } => column,
        _ => 0,
    }
}

// Its line and column.
pub fn place_length(r: Refusal) -> usize
    ensures { Long (placed r) longest_place result }
{
    line_length(b"line", line_of(r)) + line_length(b"column", column_of(r))
}

pub fn put_place(part: &mut [u8], r: Refusal) -> usize
    requires { length (placed r) ≤ length part.old }
    ensures { Written (placed r) part.old part.new result }
{
    let at = put_line(&mut *part, b"line", line_of(r));
    at + put_line(&mut part[at..], b"column", column_of(r))
}

pub fn refusal_length(r: Refusal) -> usize
    ensures { Long (printed (refuses r)) longest_refusal result }
{
    line_length(b"answer", number_of(r)) + place_length(r)
}

pub fn put_refusal(buf: &mut [u8], r: Refusal) -> usize
    requires { length (printed (refuses r)) ≤ length buf.old }
    ensures { Written (printed (refuses r)) buf.old buf.new result }
{
    let at = put_line(&mut *buf, b"answer", number_of(r));
    at + put_place(&mut buf[at..], r)
}
