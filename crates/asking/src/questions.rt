// The question that the arguments ask.
ghost use Rattle.std.specs.Prelude.{◌≡◌, List, ℕ};
ghost use Rattle.asking.specs.Questions.{output_asked, asked, Told, question_of};

use crate::faults::Fault;
use crate::lengths::Lengths;
use crate::rooms::Word;
use crate::words::{BATCH, FIXES, MARGIN, PLAIN, REWRITE, ROW, SALVAGE, is_word};

#[derive(Clone, Copy)]
pub enum Question {
    Report,
    Row(u32),
    Rewrite,
    PlainReport,
    PlainRow(u32),
}

#[derive(Clone, Copy)]
pub enum Asked {
    Answer(Question),
    // what is left of a text, or the list of what was changed
    Salvage,
    Fixes,
    // the margins against the limits in a file, which the second argument names
    Margin,
    // several tables in one call; their lengths stand beside this
    Batch,
}

// What the system tells of the arguments.
#[derive(Clone, Copy)]
pub struct Account<'a> {
    // how many there are, the program's own name among them
    pub count: usize,
    // argument 1 and argument 2, each where it fits the room that it was put into, and else nothing
    pub word: Word<'a>,
    pub second: Word<'a>,
    // the instants that argument 2 and argument 3 spell
    pub instant: Result<u32, Fault>,
    pub later: Result<u32, Fault>,
    // the lengths that the arguments from 2 on spell
    pub lengths: Lengths,
}

// By a word that stands alone.
pub fn output_asked(word: &[u8]) -> Result<Asked, Fault>
    ensures { result ≡ output_asked word.now }
{
    if is_word(word, SALVAGE) {
        Ok(Asked::Salvage)
    } else if is_word(word, FIXES) {
        Ok(Asked::Fixes)
    } else if is_word(word, REWRITE) {
        Ok(Asked::Answer(Question::Rewrite))
    } else if is_word(word, PLAIN) {
        Ok(Asked::Answer(Question::PlainReport))
    } else {
        Err(Fault::Misspelled)
    }
}

// By a word alone, by a word and an instant or a file, by two words and an instant, or by a word and any number of lengths.
pub fn asked_by(account: &Account) -> Result<Asked, Fault>
    ensures { result ≡ asked account.now }
{
    let Account {
        count,
        word,
        second,
        instant,
        later,
        lengths,
    } = *account;
    let word = word.bytes();
    match count {
        1 => Ok(Asked::Answer(Question::Report)),
        _ if is_word(word, BATCH) => lengths.spelled().map(|()| Asked::Batch),
        2 => output_asked(word),
        3 if is_word(word, ROW) => instant.map(|t| Asked::Answer(Question::Row(t))),
        3 if is_word(word, MARGIN) => Ok(Asked::Margin),
        4 if is_word(word, PLAIN) && is_word(second.bytes(), ROW) => {
            later.map(|t| Asked::Answer(Question::PlainRow(t)))
        }
        _ => Err(Fault::Misspelled),
    }
}

// What the arguments ask, by what the system tells of them; where that is true of them, it is their question.
pub fn question_of(account: &Account) -> Result<Asked, Fault>
    ensures value { result ≡ asked account.now }
    ensures by_index { (arguments : List (List ℕ)) → Told arguments account.now → result ≡ question_of arguments }
{
    asked_by(account)
}
