// The instant out of the command line: all arguments end to end, each ended by a zero byte, read in pieces. That is how an argument is read
// that is too long for a room of its own.
ghost use Rattle.std.specs.Prelude.{◌≡◌};
ghost use Rattle.asking.specs.Arguments.{within_on, passed_on, passed_by, instant_told};

use crate::faults::Fault;
use crate::instants::{Spelled, instant_in, spelled_on};

// How far the command line has been read: so many arguments end before the one asked for begins; within it; after it.
#[derive(Clone, Copy)]
pub enum Passed {
    Before(usize),
    Within(Spelled),
    After(Spelled),
}

pub fn within_on(s: Spelled, c: u8) -> Passed
    ensures { result ≡ within_on s c }
{
    if c == 0 {
        Passed::After(s)
    } else {
        Passed::Within(spelled_on(s, c))
    }
}

// One byte more.
pub fn passed_on(p: Passed, c: u8) -> Passed
    ensures { result ≡ passed_on p c }
{
    match p {
        Passed::Before(0) => within_on(Spelled::Nothing, c),
        Passed::Before(n) if c == 0 => Passed::Before(n - 1),
        Passed::Before(n) => Passed::Before(n),
        Passed::Within(s) => within_on(s, c),
        Passed::After(s) => Passed::After(s),
    }
}

// One piece more.
pub fn passed_by(p: Passed, piece: &[u8]) -> Passed
    ensures { result ≡ passed_by p piece.now }
{
    piece.iter().fold(p, |passed, c| passed_on(passed, *c))
}

// Only an argument that was read to its end is one.
pub fn instant_told(p: Passed) -> Result<u32, Fault>
    ensures { result ≡ instant_told p }
{
    match p {
        Passed::After(s) => instant_in(s),
        Passed::Before(_) | Passed::Within(_) => Err(Fault::Unread),
    }
}
