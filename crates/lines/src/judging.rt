// A line: the expected key, `=`, a value, LF; judged first for its spelling, then for its limits or the predecessor rules.
ghost use Rattle.std.specs.Prelude.{◌≡◌, drop};
ghost use Rattle.format.specs.Keys.{key_at};
ghost use Rattle.format.specs.Spelling.{heading, number, list};
ghost use Rattle.format.specs.Reading.{value_column, offending};
ghost use Rattle.schedule.specs.WellFormed.{within};
ghost use Rattle.scanning.specs.Positions.{found_of};
ghost use Rattle.scanning.specs.Masks.{mask_of, fair_list};
ghost use Rattle.lines.specs.declared.judging.Fault.TheVariants.{Misspelled};
ghost use Rattle.lines.specs.Lines.{same, always, predecessors, judge_by, closed, valued, line_judged, judged_of};

use scanning::{Wrong, byte_at, fault_at, in_order, list_at, number_at, text_at};
use table::{Key, Keyed};

// Why a line does not pass: where its spelling goes wrong; or what is at fault in a value that is outside its limits or against the
// predecessor rules. Each is a position.
#[derive(Clone, Copy)]
pub enum Fault {
    Misspelled(usize),
    Unfair(usize),
}

impl From<Wrong> for Fault {
    ghost from_gives = { λ w f. f ≡ Misspelled w.at };

    fn from(w: Wrong) -> Fault {
        Fault::Misspelled(w.at)
    }
}

// The name of key k and `=`.
pub fn heading_at<K: Keyed>(s: &[u8], at: usize, k: K) -> Result<usize, Wrong>
    ensures { found_of s.now result ≡ heading (key_at (K.key_number k)).name (drop at s.now) }
{
    let p = text_at(s, at, k.key_name())?;
    byte_at(s, p, b'=')
}

// The column of a value of key k: behind the key's name and `=`.
pub fn value_column<K: Keyed>(k: K) -> u32
    ensures { result ≡ value_column (K.key_number k) }
{
    let name = k.key_name();
    name.len() as u32 + 2
}

pub fn is_within<K: Keyed>(k: K, v: u32) -> bool
    ensures { result ≡ within (key_at (K.key_number k)).range v }
{
    k.key_range().contains(v)
}

// The LF behind a value v, which is fair or has a fault: also of one that is not fair, spelling is judged first. The value, a number or a
// mask, and the position after the line.
pub fn closed_at(
    s: &[u8],
    at: usize,
    v: u32,
    fair: bool,
    fault: usize,
) -> Result<(u32, usize), Fault>
    ensures { judged_of s.now result ≡ judge_by same (always fair) (drop fault s.now) (closed v (drop at s.now)) }
{
    let end = byte_at(s, at, b'\n')?;
    if fair {
        Ok((v, end))
    } else {
        Err(Fault::Unfair(fault))
    }
}

pub fn number_value<K: Keyed>(s: &[u8], at: usize, k: K) -> Result<(u32, usize), Fault>
    ensures { judged_of s.now result ≡ judge_by same (within (key_at (K.key_number k)).range) (drop at s.now) (valued number (drop at s.now)) }
{
    let (v, p) = number_at(s, at)?;
    closed_at(s, p, v, is_within(k, v), at)
}

// The list of the key `after`, each number within that key's limits.
pub fn list_value(s: &[u8], at: usize, own: u32) -> Result<(u32, usize), Fault>
    ensures { judged_of s.now result ≡ judge_by mask_of (fair_list predecessors own) (offending own (drop at s.now)) (valued list (drop at s.now)) }
{
    let range = Key::After.range();
    let (l, p) = list_at(s, at, range, own)?;
    if in_order(own, l) {
        closed_at(s, p, l.mask, true, at)
    } else {
        closed_at(s, p, l.mask, false, fault_at(s, at, own))
    }
}

// The line of key k; of the key `after`, for node number own.
pub fn line_from<K: Keyed>(s: &[u8], at: usize, k: K, own: u32) -> Result<(u32, usize), Fault>
    ensures { judged_of s.now result ≡ line_judged (K.key_number k) own (drop at s.now) }
{
    let p = heading_at(s, at, k)?;
    if k.is_after() {
        list_value(s, p, own)
    } else {
        number_value(s, p, k)
    }
}
