// Reads cases from standard input (document 01's worked tables, and the edges of reading) and prints the answer to each. A case is a mark, a
// label, LF, and the bytes of a table up to the next mark; no table here has a byte that is a mark. The mark says what is printed: the report, the
// rows at the first instants, what reading comes to, or the same of each cut of the table.
#![tactic(auto)]

ghost use Rattle.std.specs.Prelude.{◌≤◌, length, IfOk};

use admission::Admitted;
use format::Refusal;
use rules::Answer;
use std::io;
use std::io::Read;
use table::Table;

// The room for what a table's report or row is, and for all cases.
const TEXT_ROOM: usize = 4096;

const CASES_ROOM: usize = 65536;

// Past the stop of every table whose rows are printed here. After them come the last instant and the one past it.
const INSTANTS: u64 = 10;

const LAST_INSTANT: u64 = Table::INSTANT_TO as u64;

// What is printed of a case.
#[derive(Clone, Copy)]
enum Mark {
    Report,
    Rows,
    Reading,
    Cuts,
}

impl Mark {
    // None of a byte of a table, which is no fault.
    fn of(byte: u8) -> Option<Mark> {
        match byte {
            b'#' => Some(Mark::Report),
            b'%' => Some(Mark::Rows),
            b'@' => Some(Mark::Reading),
            b'$' => Some(Mark::Cuts),
            _ => None,
        }
    }
}

// A refusal's number, line and column.
fn print_refusal(rt: HostRuntime, f: Refusal, between: char) -> io::Result<()> {
    let number = writing::number_of(f);
    let line = writing::line_of(f);
    let column = writing::column_of(f);
    println!(rt; "answer={number}{between}line={line}{between}column={column}")
}

fn print_answer(rt: HostRuntime, answer: Answer, buffer: &[u8]) -> io::Result<()> {
    match answer {
        Ok(n) => rt.write_all(buffer.get(..n).unwrap_or_default()),
        Err(f) => print_refusal(rt, f, '\n'),
    }
}

// A label is any bytes, and so it is written and not formatted.
fn print_report(rt: HostRuntime, label: &[u8], table: &[u8]) -> io::Result<()> {
    let mut space = [0u8; TEXT_ROOM];
    print!(rt; "# ")?;
    rt.write_all(label)?;
    println!(rt)?;
    let answer = sheet::report(table, &mut space);
    print_answer(rt, answer, &space)
}

fn print_row(rt: HostRuntime, label: &[u8], table: &[u8], instant: u64) -> io::Result<()> {
    let mut space = [0u8; TEXT_ROOM];
    print!(rt; "# ")?;
    rt.write_all(label)?;
    println!(rt; ", row at {instant}")?;
    let answer = sheet::row(table, instant, &mut space).map(|text| text.length);
    print_answer(rt, answer, &space)
}

// The rows at the first instants, at the last one, and at the one past it.
fn print_rows(rt: HostRuntime, label: &[u8], table: &[u8]) -> io::Result<()> {
    for instant in 0..INSTANTS {
        print_row(rt, label, table, instant)?;
    }
    print_row(rt, label, table, LAST_INSTANT)?;
    print_row(rt, label, table, LAST_INSTANT + 1)
}

// `answer=0 hyperperiod=` of an admitted table, and else `answer=` with the number, `line=` and `column=`.
fn print_admitted(rt: HostRuntime, admitted: Result<Admitted, Refusal>) -> io::Result<()> {
    match admitted {
        Ok(a) => println!(rt; "answer=0 hyperperiod={}", a.hyperperiod),
        Err(f) => print_refusal(rt, f, ' '),
    }
}

fn print_reading(rt: HostRuntime, label: &[u8], table: &[u8]) -> io::Result<()> {
    rt.write_all(label)?;
    print!(rt; ": ")?;
    print_admitted(rt, admission::admit(table))
}

// The same of a table that is cut off there.
fn print_cut(rt: HostRuntime, label: &[u8], cut: &[u8]) -> io::Result<()> {
    rt.write_all(label)?;
    print!(rt; ", {} bytes: ", cut.len())?;
    print_admitted(rt, admission::admit(cut))
}

fn print_cuts(rt: HostRuntime, label: &[u8], table: &[u8]) -> io::Result<()> {
    for n in 0..table.len() {
        print_cut(rt, label, &table[..n])?;
    }
    Ok(())
}

fn print_as(rt: HostRuntime, mark: Mark, label: &[u8], table: &[u8]) -> io::Result<()> {
    match mark {
        Mark::Report => print_report(rt, label, table),
        Mark::Rows => print_rows(rt, label, table),
        Mark::Reading => print_reading(rt, label, table),
        Mark::Cuts => print_cuts(rt, label, table),
    }
}

// A case, behind its mark; and the cases that follow it.
fn print_case<'a>(rt: HostRuntime, mark: Mark, case: &'a [u8]) -> io::Result<&'a [u8]>
    ensures { IfOk result (λ rest. length rest.now ≤ length case.now) }
{
    let Some(feed) = case.iter().position(|c| *c == b'\n') else {
        return Ok(&[]);
    };
    let label = &case[..feed];
    let behind = &case[feed + 1..];
    let end = behind
        .iter()
        .position(|c| Mark::of(*c).is_some())
        .unwrap_or(behind.len());
    print_as(rt, mark, label, &behind[..end])?;
    Ok(&behind[end..])
}

// What begins with no mark is a table whose cuts are printed.
fn print_cases(rt: HostRuntime, s: &[u8]) -> io::Result<()> {
    let mut rest = s;
    while let Some((mark, case)) = rest.split_first() {
        rest = print_case(rt, Mark::of(*mark).unwrap_or(Mark::Cuts), case)?;
    }
    Ok(())
}

// Until the input ends or the space is full: how many bytes there are.
fn read_cases(rt: HostRuntime, space: &mut [u8]) -> io::Result<usize>
    ensures { IfOk result (λ n. n ≤ length space.new) }
{
    let mut source = rt.stdin();
    let mut done: usize = 0;
    while done < space.len() {
        let n = source.read(&mut space[done..])?;
        if n == 0 {
            break;
        }
        done += n;
    }
    Ok(done)
}

fn main(rt: HostRuntime) -> io::Result<()> {
    let mut space = [0u8; CASES_ROOM];
    let n = read_cases(rt, &mut space)?;
    print_cases(rt, &space[..n])
}
