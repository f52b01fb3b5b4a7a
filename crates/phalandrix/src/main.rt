// The program: a table on standard input; on standard output its report or, with `row T`, its row at instant T, or, with `rewrite`, the table
// read and written again. With `plain` and with `plain row T`, report and row by the plain engine. With `batch` and lengths, tables end to end
// on standard input, and what is printed for each. With `salvage` the text is mended, and what is left is printed; with `fixes` the list of
// what was changed. With `margin FILE` the margins against the limits in the file are printed.
#![tactic(auto)]

ghost use Rattle.std.specs.Prelude.{◌≡◌, ◌≤◌, ◌<◌, length};
ghost use Rattle.schedule.specs.Limits as Limits;
ghost use Rattle.asking.specs.Questions.{longest_word};

use asking::{Account, Asked, Fault, Lengths, Passed, Question, WORD_ROOM, Word};
use format::Refusal;
use inputs::{Lack, PIECE, after_read, read_input, take_tables};
use marginlines::MARGIN_BYTES;
use marginprints::put_margin_to;
use printing::{SLOT, SLOTS, put_answer_to, put_batch};
use printouts::{Output, put_fixes_to, put_left_to};
use salvage::LIST_BYTES;
use std::env::{Env, FillError};
use std::fs::File;
use std::io;
use std::io::{Read, Write};
use table::Table;

// What is left of a text is no longer than a table may be.
const TEXT_ROOM: usize = Table::TABLE_BYTES_TO as usize;

// Each turn reads a byte or more, and Linux allows some 6 million bytes of arguments: the turns do not run out.
const TURNS: u32 = 0xffff_ffff;

// The room for an argument, and for a text to print, but for those of salvage and of margins: a path's length, which none of them passes.
const ROOM: usize = 4096;

// The room for an error's text as the system words it.
const ERROR_ROOM: usize = 128;

// The numbers of two of the system's errors: a name that is too long, and one whose bytes are no text.
const NAME_TOO_LONG: i32 = 36;

const NO_TEXT: i32 = 84;

// All arguments end to end, each ended by a zero byte.
const COMMAND_LINE: &str = "/proc/self/cmdline";

// What standard error does not take is lost.
fn say(rt: HostRuntime, bytes: &[u8]) {
    let _ = rt.stderr().write_all(bytes);
}

fn print_usage(rt: HostRuntime) {
    say(
        rt,
        b"usage: phalandrix < TABLE          the report\n       phalandrix row T < TABLE    the row at instant T\n       phalandrix batch L1 .. Ln < TABLES    the reports of tables end to end, of these lengths\n       phalandrix rewrite < TABLE  the table, read and written again\n       phalandrix plain < TABLE    the report, by the plain engine\n       phalandrix plain row T < TABLE    the row, by the plain engine\n       phalandrix salvage < TEXT   the text mended\n       phalandrix fixes < TEXT     what was mended\n       phalandrix margin FILE < TABLE    the margins against the limits in FILE\n",
    );
}

// An error's text at the start of a room, and how long it is.
fn put_error(error: io::Error, room: &mut [u8]) -> usize
    ensures { result ≤ length room.new }
{
    let size = room.len();
    let mut left: &mut [u8] = &mut *room;
    let _ = write!(left, "{error}");
    size.saturating_sub(left.len())
}

// The system's word for an error, without the number that the library puts behind it.
fn worded(text: &str) -> &str {
    text.rsplit_once(" (os error ")
        .map_or(text, |(word, _)| word)
}

// A line on standard error: what failed, and why. It is told where it comes, and not handed on to `main`: what failed may be a file of any name,
// and no name need be text.
fn fail(rt: HostRuntime, what: &[u8], error: io::Error) {
    let mut room = [0u8; ERROR_ROOM];
    let n = put_error(error, &mut room);
    say(rt, what);
    say(rt, b": ");
    if let Ok(text) = str::from_utf8(&room[..n]) {
        say(rt, worded(text).as_bytes());
    }
    say(rt, b"\n");
}

// Room for a limit text and one byte more: what is kept of a longer one is enough to refuse it.
const LIMITS_ROOM: usize = Table::LIMIT_BYTES_TO as usize + 1;

// A short write is carried on; one that fails is told.
fn print(rt: HostRuntime, bytes: &[u8]) {
    if let Err(e) = rt.stdout().write_all(bytes) {
        fail(rt, b"standard output", e);
    }
}

// One piece more of the command line, where it has not ended.
fn read_piece(file: &mut File, passed: Passed) -> io::Result<Option<Passed>> {
    let mut piece = [0u8; PIECE];
    let got = file.read(&mut piece);
    Ok(after_read(got, &piece)?.map(|n| asking::passed_by(passed, &piece[..n])))
}

// The instant that argument i spells, from the whole command line.
fn long_instant(rt: HostRuntime, i: usize) -> Result<u32, Fault> {
    let mut file = File::open(&rt, COMMAND_LINE)?;
    let mut passed = Passed::Before(i);
    for _ in 0..TURNS {
        match read_piece(&mut file, passed)? {
            Some(more) => passed = more,
            None => return asking::instant_told(passed),
        }
    }
    Err(Fault::Unread)
}

// An argument that fits a room is copied there; a longer one is read in pieces. One that is missing spells what an empty one does.
fn instant_asked(rt: HostRuntime, i: usize) -> Result<u32, Fault> {
    let mut room = [0u8; ROOM];
    match rt.arg(i, &mut room) {
        Ok(n) => asking::instant_of(&room[..n]),
        Err(FillError::TooLong) => long_instant(rt, i),
        Err(FillError::NotPresent) => asking::instant_of(b""),
    }
}

// A word that is put into a room: nothing, where it is missing or longer than the room. A room too short for a word of the program is refused.
fn word_asked(rt: HostRuntime, i: usize, room: &mut [u8]) -> Word<'_>
    requires { longest_word ≤ length room.old }
    ensures whole { length result.room.now ≡ length room.old }
    ensures within { result.end ≤ length room.old }
{
    let end = rt.arg(i, &mut *room).unwrap_or(0);
    Word { room, end }
}

// How many arguments there are, the program's own name among them.
fn argument_count(rt: HostRuntime) -> usize {
    let mut byte = [0u8; 1];
    for i in 0..usize::MAX {
        if let Err(FillError::NotPresent) = rt.arg(i, &mut byte) {
            return i;
        }
    }
    usize::MAX
}

// The lengths that the arguments from 2 on spell.
fn lengths_asked(rt: HostRuntime, count: usize) -> Lengths {
    let mut lengths = asking::no_lengths();
    for i in 2..count {
        lengths = asking::lengths_on(lengths, instant_asked(rt, i));
    }
    lengths
}

fn question_asked(rt: HostRuntime, count: usize, lengths: Lengths) -> Result<Asked, Fault> {
    let mut room = [0u8; WORD_ROOM];
    let mut second_room = [0u8; WORD_ROOM];
    asking::question_of(&Account {
        count,
        word: word_asked(rt, 1, &mut room),
        second: word_asked(rt, 2, &mut second_room),
        instant: instant_asked(rt, 2),
        later: instant_asked(rt, 3),
        lengths,
    })
}

fn answer(rt: HostRuntime, q: Question) {
    let mut room = [0u8; SLOT];
    let mut text = [0u8; ROOM];
    match read_input(&mut rt.stdin(), &mut room) {
        Err(e) => fail(rt, b"standard input", e),
        Ok(n) => {
            let m = put_answer_to(q, &room, n, &mut text);
            print(rt, &text[..m]);
        }
    }
}

// Salvage writes both outputs, and one of them is printed. It is called from two places, so that the compiler leaves it a function of its own:
// its rooms would else stand in the frame of `main`, under that of a walk.
fn print_output(rt: HostRuntime, o: Output) {
    let mut room = [0u8; SLOT];
    let mut text = [0u8; TEXT_ROOM];
    let mut list = [0u8; LIST_BYTES];
    match read_input(&mut rt.stdin(), &mut room) {
        Err(e) => fail(rt, b"standard input", e),
        Ok(n) => match o {
            Output::Text => {
                let m = put_left_to(&room, n, &mut text, &mut list);
                print(rt, &text[..m]);
            }
            Output::Fixes => {
                let m = put_fixes_to(&room, n, &mut text, &mut list);
                print(rt, &list[..m]);
            }
        },
    }
}

// Which text a refusal is of does not stand in what document 02 has printed.
fn tell_text(rt: HostRuntime, in_limits: bool) {
    if in_limits {
        say(rt, b"phalandrix: this refusal is of the limit text\n");
    }
}

// The margins of the table on standard input.
fn print_margin(rt: HostRuntime, limits: &[u8], m: usize)
    requires { ((Limits.limit_bytes).to < length limits.now) × (m ≤ length limits.now) }
{
    let mut room = [0u8; SLOT];
    let mut text = [0u8; MARGIN_BYTES];
    match read_input(&mut rt.stdin(), &mut room) {
        Err(e) => fail(rt, b"standard input", e),
        Ok(n) => {
            let printed = put_margin_to(&room, n, limits, m, &mut text);
            tell_text(rt, printed.in_limits);
            print(rt, &text[..printed.length]);
        }
    }
}

// A file by a name in bytes. The library opens a file by a text alone.
fn open_named(rt: HostRuntime, name: &[u8]) -> io::Result<File> {
    match str::from_utf8(name) {
        Ok(text) => File::open(&rt, text),
        Err(_) => Err(io::Error::from_raw_os_error(NO_TEXT)),
    }
}

// The file with the limits, which argument 2 names. One that cannot be opened is told. The room for its name is gone before the
// others are there: all of them would else stand in the frame of `main`, under that of every walk.
fn limits_opened(rt: HostRuntime) -> Option<File> {
    let mut name = [0u8; ROOM];
    let n = match rt.arg(2, &mut name) {
        Ok(n) => n,
        Err(FillError::TooLong) => {
            fail(
                rt,
                b"the limits",
                io::Error::from_raw_os_error(NAME_TOO_LONG),
            );
            return None;
        }
        Err(FillError::NotPresent) => 0,
    };
    match open_named(rt, &name[..n]) {
        Ok(file) => Some(file),
        Err(e) => {
            fail(rt, &name[..n], e);
            None
        }
    }
}

// Where the limits cannot be read, that is told and nothing is printed.
fn answer_margin(rt: HostRuntime) {
    if let Some(mut file) = limits_opened(rt) {
        let mut limits = [0u8; LIMITS_ROOM];
        match read_input(&mut file, &mut limits) {
            Err(e) => fail(rt, b"the limits", e),
            Ok(m) => print_margin(rt, &limits, m),
        }
    }
}

fn print_refusal(rt: HostRuntime, r: Refusal) {
    let mut text = [0u8; ROOM];
    let n = writing::refusal_length(r);
    writing::put_refusal(&mut text, r);
    print(rt, &text[..n]);
}

// Nothing is printed before it is known that the input ends where the lengths say.
fn answer_tables(rt: HostRuntime, lengths: &[usize])
    requires { length lengths.now ≤ (Limits.tables).to }
{
    let mut room = [0u8; SLOTS];
    let mut text = [0u8; ROOM];
    match take_tables(&mut rt.stdin(), lengths, &mut room) {
        Ok(()) => {
            let n = put_batch(lengths, &room, &mut text);
            print(rt, &text[..n]);
        }
        Err(Lack::Wrong) => print_refusal(rt, Refusal::WrongLengths),
        Err(Lack::Failed(e)) => fail(rt, b"standard input", e),
    }
}

// No tables at all, and more than the limit, are refused before the input is read.
fn answer_batch(rt: HostRuntime, lengths: Lengths) {
    let count = lengths.count;
    if count < Table::TABLES_FROM as usize || Table::TABLES < count {
        return print_refusal(rt, Refusal::WrongLengths);
    }
    answer_tables(rt, &lengths.list[..count])
}

// Why a long argument could not be read: the file is asked for once more. Where it opens this time, it had no end of that argument.
fn tell_unread(rt: HostRuntime) {
    let why = match File::open(&rt, COMMAND_LINE) {
        Ok(_) => io::Error::from(io::ErrorKind::UnexpectedEof),
        Err(e) => e,
    };
    fail(rt, COMMAND_LINE.as_bytes(), why);
}

fn main(rt: HostRuntime) {
    let count = argument_count(rt);
    let lengths = lengths_asked(rt, count);
    match question_asked(rt, count, lengths) {
        Ok(Asked::Answer(q)) => answer(rt, q),
        Ok(Asked::Batch) => answer_batch(rt, lengths),
        Ok(Asked::Salvage) => print_output(rt, Output::Text),
        Ok(Asked::Fixes) => print_output(rt, Output::Fixes),
        Ok(Asked::Margin) => answer_margin(rt),
        Err(Fault::Misspelled) => print_usage(rt),
        Err(Fault::Unread) => tell_unread(rt),
    }
}
