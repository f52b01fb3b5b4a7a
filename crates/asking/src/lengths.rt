// The lengths that the arguments behind `batch` spell, argument by argument.
ghost use Rattle.std.specs.Prelude.{◌≡◌};
ghost use Rattle.asking.specs.Lengths.{no_lengths, count_on, lengths_on, spelled};

use crate::faults::Fault;
use table::Table;

// How many there are, where one past the limit stands for all that are more; whether one is no number, and whether one was not handed over;
// and the first of them, with 0 for each that spells no number. What is wrong stands beside count and list, and not in their place, since
// `lengths_are` and `too_many_told` promise both where some are none, too; and the list is an array of the most tables, since there is no heap.
#[derive(Clone, Copy)]
pub struct Lengths {
    pub count: usize,
    pub misspelled: bool,
    pub unread: bool,
    pub list: [usize; Table::TABLES],
}

impl Lengths {
    // Whether all are numbers. An argument that was not handed over is told before one that is misspelled.
    pub fn spelled(&self) -> Result<(), Fault>
        ensures { result ≡ spelled self.now }
    {
        if self.unread {
            Err(Fault::Unread)
        } else if self.misspelled {
            Err(Fault::Misspelled)
        } else {
            Ok(())
        }
    }
}

pub fn no_lengths() -> Lengths
    ensures { result ≡ no_lengths }
{
    Lengths {
        count: 0,
        misspelled: false,
        unread: false,
        list: [0; Table::TABLES],
    }
}

pub fn one_more(count: usize) -> usize
    ensures { result ≡ count_on count }
{
    if count <= Table::TABLES {
        count + 1
    } else {
        count
    }
}

pub fn lengths_on(s: Lengths, instant: Result<u32, Fault>) -> Lengths
    ensures { result ≡ lengths_on s instant }
{
    let at = s.count;
    let mut t = s;
    t.count = one_more(at);
    match instant {
        Ok(v) => {
            if at < Table::TABLES {
                t.list[at] = v as usize;
            }
        }
        Err(Fault::Misspelled) => t.misspelled = true,
        Err(Fault::Unread) => t.unread = true,
    }
    t
}
