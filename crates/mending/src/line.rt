// What is known of a line when some of its bytes have been read, what each byte adds to the text, and the kinds of change of a line.
ghost use Rattle.std.specs.Prelude.{◌≡◌, ◌≤◌};
ghost use Rattle.schedule.specs.Limits as Limits;
ghost use Rattle.mending.specs.Line as Lines;

use crate::fixes::Kinds;
use crate::place::Place;
use crate::text::{Added, BLANK};

// The place after the last byte that is no blank, the blanks since then, and whether the line has had a carriage return, a byte that is kept,
// and a zero that went.
#[derive(Clone, Copy)]
pub struct Line {
    pub place: Place,
    pub blanks: usize,
    pub returns: bool,
    pub kept: bool,
    pub zeros: bool,
}

impl Line {
    // Of which no byte has been read.
    pub fn fresh() -> Line
        ensures { result ≡ Lines.fresh }
    {
        Line {
            place: Place::Key,
            blanks: 0,
            returns: false,
            kept: false,
            zeros: false,
        }
    }

    // After a byte that is kept, unless it is a zero that goes later.
    fn with_byte(self, c: u8) -> Line
        ensures { result ≡ Lines.with_byte self c }
    {
        let place = self.place.settled(self.blanks);
        Line {
            place: place.next(c),
            blanks: 0,
            kept: true,
            zeros: self.zeros || place.goes(c),
            ..self
        }
    }

    // After byte c of the text.
    #[tactic(auto, unfolding(crate::specs::Line::line_after))]
    pub fn after(self, c: u8) -> Line
        requires { self.blanks ≤ (Limits.table_bytes).to }
        ensures { result ≡ Lines.line_after self c }
    {
        match c {
            b'\n' => Line::fresh(),
            b'\r' => Line {
                returns: true,
                ..self
            },
            BLANK => Line {
                blanks: self.blanks + 1,
                ..self
            },
            _ => self.with_byte(c),
        }
    }

    // What the line's end adds.
    pub fn ended(self) -> Added
        ensures { result ≡ Lines.ended self }
    {
        Added {
            zero: self.kept && self.place == Place::Zero,
            blanks: 0,
            byte: self.kept,
        }
    }

    fn added_kept(self, c: u8) -> Added
        ensures { result ≡ Lines.added_kept self c }
    {
        let place = self.place.settled(self.blanks);
        Added {
            zero: self.place == Place::Zero && !place.goes(c),
            blanks: self.blanks,
            byte: !place.holds(c),
        }
    }

    // What byte c of the text adds.
    #[tactic(auto, unfolding(crate::specs::Line::added))]
    pub fn adds(self, c: u8) -> Added
        ensures { result ≡ Lines.added self c }
    {
        match c {
            b'\n' => self.ended(),
            b'\r' | BLANK => Added::default(),
            _ => self.added_kept(c),
        }
    }

    // The kinds of a line whose bytes have been read.
    fn kinds_of(self, ended: bool) -> Kinds
        ensures { result ≡ Lines.kinds_of self ended }
    {
        Kinds {
            returns: self.returns,
            blanks: self.blanks != 0,
            empty: !self.kept,
            zeros: self.kept && self.zeros,
            unended: self.kept && !ended,
        }
    }

    // Those known when byte c of the text is read: a line's at its LF.
    #[tactic(auto, unfolding(crate::specs::Line::kinds_at))]
    pub fn kinds_at(self, c: u8) -> Kinds
        ensures { result ≡ Lines.kinds_at self c }
    {
        if c == b'\n' {
            self.kinds_of(true)
        } else {
            Kinds::default()
        }
    }

    fn begun(self) -> bool
        ensures { result ≡ Lines.begun self }
    {
        self.returns || self.kept || self.blanks != 0
    }

    // Those known when the text ends: the last line's, where it has bytes and no LF.
    #[tactic(auto, unfolding(crate::specs::Line::kinds_last))]
    pub fn kinds_last(self) -> Kinds
        ensures { result ≡ Lines.kinds_last self }
    {
        if self.begun() {
            self.kinds_of(false)
        } else {
            Kinds::default()
        }
    }
}

// The number of the line that the next byte belongs to.
#[tactic(auto, unfolding(crate::specs::Line::number_after))]
pub fn number_after(n: u32, c: u8) -> u32
    requires { n ≤ (Limits.table_bytes).to }
    ensures { result ≡ Lines.number_after n c }
{
    if c == b'\n' { n + 1 } else { n }
}
