// The list of a node's predecessors, taken into a mask as it is read.
ghost use Rattle.std.specs.Prelude.{◌≡◌, ◌&&◌, ltb, drop};
ghost use Rattle.format.specs.Spelling.{numbers, list};
ghost use Rattle.format.specs.Reading.{offending};
ghost use Rattle.scanning.specs.Positions.{map_scan, scanned_of};
ghost use Rattle.scanning.specs.Masks.{entered, entries, no_entries, listing, in_order};

use crate::scanners::{Wrong, next_is, number_at, text_at};
use table::Range;

// What is known of a list so far: bit p - 1 of the mask for each predecessor p, the last number, and whether all keep the rules. (The flag
// stands beside them, since the definition `in_order` counts the ones of the mask of a list that breaks the rules too.)
#[derive(Clone, Copy)]
pub struct Listing {
    pub mask: u32,
    pub last: u32,
    pub orderly: bool,
}

impl Listing {
    // What is known before the first number.
    pub const EMPTY: Listing = Listing {
        mask: 0,
        last: 0,
        orderly: true,
    };
}

// One more predecessor x of node number own, for numbers in this range.
pub fn enter(range: Range, own: u32, l: Listing, x: u32) -> Listing
    ensures { result ≡ entered range own l x }
{
    if l.orderly && range.contains(x) && rises(l.last, x, own) {
        Listing {
            mask: numbers::with(l.mask, x - 1),
            last: x,
            orderly: true,
        }
    } else {
        Listing {
            orderly: false,
            ..l
        }
    }
}

pub fn numbers_at(s: &[u8], at: usize, range: Range, own: u32) -> Result<(Listing, usize), Wrong>
    ensures { scanned_of s.now result ≡ map_scan (entries range own no_entries) (numbers (drop at s.now)) }
{
    let mut l = Listing::EMPTY;
    let mut p = at;
    loop {
        let (v, q) = number_at(s, p)?;
        l = enter(range, own, l, v);
        if !next_is(s, q, b',') {
            return Ok((l, q));
        }
        p = q + 1;
    }
}

// `none`, or one or more numbers.
pub fn list_at(s: &[u8], at: usize, range: Range, own: u32) -> Result<(Listing, usize), Wrong>
    ensures { scanned_of s.now result ≡ map_scan (listing range own) (list (drop at s.now)) }
{
    if next_is(s, at, b'n') {
        let end = text_at(s, at, b"none")?;
        Ok((Listing::EMPTY, end))
    } else {
        numbers_at(s, at, range, own)
    }
}

// A number that is above the one before it and below the node's own.
pub fn rises(last: u32, v: u32, own: u32) -> bool
    ensures { result ≡ ltb last v && ltb v own }
{
    last < v && v < own
}

// Where the first number of a list stands that breaks the rules. (In a list that keeps them, its last.)
pub fn fault_at(s: &[u8], at: usize, own: u32) -> usize
    ensures { drop result s.now ≡ offending own (drop at s.now) }
{
    let mut last: u32 = 0;
    let mut p = at;
    while let Ok((v, q)) = number_at(s, p) {
        if !rises(last, v, own) || !next_is(s, q, b',') {
            return p;
        }
        last = v;
        p = q + 1;
    }
    p
}

// The ones of the mask count the predecessors: node 1 has none, and no other node has none.
pub fn in_order(own: u32, l: Listing) -> bool
    ensures { result ≡ in_order own l }
{
    l.orderly && (numbers::ones(l.mask) != 0 || own == 1)
}
