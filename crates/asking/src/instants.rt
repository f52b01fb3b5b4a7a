// The instant that an argument spells: a number as a table has it, with nothing before it and nothing after it. It is read byte by byte, so
// that an argument of any length can be read in pieces.
ghost use Rattle.std.specs.Prelude.{◌≡◌};
ghost use Rattle.asking.specs.Instants.{instant_of, spelled_on, spelled_by, instant_in};

use crate::faults::Fault;

// What the bytes so far spell.
#[derive(Clone, Copy)]
pub enum Spelled {
    Nothing,
    Zero,
    Number(u32),
    Wrong,
}

// With one byte more. After a 0 there is no other digit; and a number past every stop is kept as one that is, however many digits it has.
pub fn spelled_on(s: Spelled, c: u8) -> Spelled
    ensures { result ≡ spelled_on s c }
{
    match s {
        Spelled::Nothing if c == b'0' => Spelled::Zero,
        Spelled::Nothing if c.is_ascii_digit() => Spelled::Number(u32::from(c - b'0')),
        Spelled::Number(v) if c.is_ascii_digit() => Spelled::Number(scanning::grown(v, c - b'0')),
        _ => Spelled::Wrong,
    }
}

pub fn instant_in(s: Spelled) -> Result<u32, Fault>
    ensures { result ≡ instant_in s }
{
    match s {
        Spelled::Zero => Ok(0),
        Spelled::Number(v) => Ok(v),
        Spelled::Nothing | Spelled::Wrong => Err(Fault::Misspelled),
    }
}

// What all bytes of an argument spell.
pub fn spelled_in(s: &[u8]) -> Spelled
    ensures { result ≡ spelled_by Spelled.Nothing s.now }
{
    s.iter()
        .fold(Spelled::Nothing, |spelled, c| spelled_on(spelled, *c))
}

#[tactic(auto, using(crate::proofs::Spellings::instant_spelled))]
pub fn instant_of(s: &[u8]) -> Result<u32, Fault>
    ensures { result ≡ instant_of s.now }
{
    instant_in(spelled_in(s))
}
