// Where a byte of a line stands, for the zeros that go.
ghost use Rattle.std.specs.Prelude.{◌≡◌};
ghost use Rattle.mending.specs.Place as Places;

// Before the line's first `=`; after it, in no run of digits; in a run of which a digit is kept; after a zero that is held, at the start of a
// run, until it is known whether another digit follows.
#[derive(Clone, Copy, PartialEq, Eq)]
pub enum Place {
    Key,
    Outside,
    Run,
    Zero,
}

impl Place {
    // After so many blanks that are kept.
    pub fn settled(self, blanks: usize) -> Place
        ensures { result ≡ Places.settled self blanks }
    {
        match self {
            Place::Key => Place::Key,
            _ if blanks == 0 => self,
            _ => Place::Outside,
        }
    }

    // After byte c.
    pub fn next(self, c: u8) -> Place
        ensures { result ≡ Places.next self c }
    {
        match self {
            Place::Key => in_key(c),
            Place::Run => in_run(c),
            Place::Outside | Place::Zero => begins(c),
        }
    }

    // The zero that is held goes, because c is another digit.
    pub fn goes(self, c: u8) -> bool
        ensures { result ≡ Places.goes self c }
    {
        self == Place::Zero && c.is_ascii_digit()
    }

    // Byte c is a zero that is held, because a digit here starts a run.
    pub fn holds(self, c: u8) -> bool
        ensures { result ≡ Places.holds self c }
    {
        matches!(self, Place::Outside | Place::Zero) && c == b'0'
    }
}

fn begins(c: u8) -> Place
    ensures { result ≡ Places.begins c }
{
    match c {
        b'0' => Place::Zero,
        b'1'..=b'9' => Place::Run,
        _ => Place::Outside,
    }
}

fn in_key(c: u8) -> Place
    ensures { result ≡ Places.in_key c }
{
    if c == b'=' {
        Place::Outside
    } else {
        Place::Key
    }
}

fn in_run(c: u8) -> Place
    ensures { result ≡ Places.in_run c }
{
    if c.is_ascii_digit() {
        Place::Run
    } else {
        Place::Outside
    }
}
