// Why arguments ask nothing.
ghost use Rattle.std.specs.Prelude.{◌≡◌};
ghost use Rattle.asking.specs.declared.faults.Fault.TheVariants.{Unread};

use std::io;

#[derive(Clone, Copy, Debug, PartialEq, Eq)]
pub enum Fault {
    // words that none has to ask by, or a number that is none
    Misspelled,
    // an argument that the system did not hand over
    Unread,
}

impl From<io::Error> for Fault {
    ghost from_gives = { λ _ f. f ≡ Unread };

    fn from(_error: io::Error) -> Fault {
        Fault::Unread
    }
}
