// The lines of the list: `fix=`, the line's number, a comma and the kind.
ghost use Rattle.std.specs.Prelude.{◌≡◌, ◌≤◌, length};
ghost use Rattle.writing.specs.Written.{Written};
ghost use Rattle.salvaging.specs.Fixes.{fix, fix_if};
ghost use Rattle.mending.specs.Kind.{number_of};
ghost use Rattle.mending.specs.Line.{fixes_text};

use crate::text::length_if;
use writing::{digits, put_bytes, put_pair};

// A kind of change, by the number that the list has for it.
#[derive(Clone, Copy)]
pub enum Kind {
    Returns = 1,
    Blanks = 2,
    Empty = 3,
    Zeros = 4,
    Unended = 5,
}

impl Kind {
    fn number(self) -> u32
        ensures { result ≡ number_of self }
    {
        self as u32
    }
}

// Which kinds a line has, in their order: a line may have any of them together, so they are flags.
#[derive(Clone, Copy, Default)]
pub struct Kinds {
    pub returns: bool,
    pub blanks: bool,
    pub empty: bool,
    pub zeros: bool,
    pub unended: bool,
}

impl Kinds {
    pub fn size(self, n: u32) -> usize
        ensures { result ≡ length (fixes_text n self) }
    {
        // The line without its number.
        let marks = b"fix=,1\n";
        let one = marks.len() + digits(n);
        length_if(self.returns, one)
            + length_if(self.blanks, one)
            + length_if(self.empty, one)
            + length_if(self.zeros, one)
            + length_if(self.unended, one)
    }

    // By kind. Five calls: a loop would need the flags and the kinds side by side in arrays, and would read no plainer.
    pub fn put(self, part: &mut [u8], n: u32) -> usize
        requires { length (fixes_text n self) ≤ length part.old }
        ensures { Written (fixes_text n self) part.old part.new result }
    {
        let two = put_fix_if(&mut *part, self.returns, n, Kind::Returns);
        let three = two + put_fix_if(&mut part[two..], self.blanks, n, Kind::Blanks);
        let four = three + put_fix_if(&mut part[three..], self.empty, n, Kind::Empty);
        let five = four + put_fix_if(&mut part[four..], self.zeros, n, Kind::Zeros);
        five + put_fix_if(&mut part[five..], self.unended, n, Kind::Unended)
    }
}

fn put_fix(part: &mut [u8], n: u32, kind: Kind) -> usize
    requires { length (fix n (number_of kind)) ≤ length part.old }
    ensures { Written (fix n (number_of kind)) part.old part.new result }
{
    let at = put_bytes(&mut *part, b"fix=");
    at + put_pair(&mut part[at..], n, kind.number(), b'\n')
}

fn put_fix_if(part: &mut [u8], wanted: bool, n: u32, kind: Kind) -> usize
    requires { length (fix_if wanted n (number_of kind)) ≤ length part.old }
    ensures { Written (fix_if wanted n (number_of kind)) part.old part.new result }
{
    if wanted {
        return put_fix(part, n, kind);
    }
    0
}
