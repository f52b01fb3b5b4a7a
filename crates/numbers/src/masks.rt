// Sets of numbers below 32: bit k of a mask is set where k is in the set. A mask is a plain u32, since a table keeps one u32 mask per node.
ghost use Rattle.std.specs.Prelude.{◌≡◌, ◌<◌};
ghost use Rattle.numbers.specs.Masks as Masks;

pub fn has(mask: u32, k: u32) -> bool
    ensures { result ≡ Masks.bit mask k }
{
    k < u32::BITS && (mask >> k) & 1 == 1
}

// The mask with bit k set; a mask has no bit 32 and above.
pub fn with(mask: u32, k: u32) -> u32
    ensures { result ≡ Masks.with mask k }
{
    if k < u32::BITS {
        mask | (1u32 << k)
    } else {
        mask
    }
}

pub fn without(mask: u32, k: u32) -> u32
    ensures { result ≡ Masks.without mask k }
{
    if has(mask, k) {
        mask ^ (1u32 << k)
    } else {
        mask
    }
}

// How many bits are set. It stays beside `count_ones`, whose clause speaks of std's definition and not of that of the rules' lists; so does
// `lowest`.
pub fn ones(mask: u32) -> u32
    ensures { result ≡ Masks.ones mask }
{
    mask.count_ones()
}

// The number of the lowest set bit; 32 where none is set.
pub fn lowest(mask: u32) -> u32
    ensures { result ≡ Masks.lowest mask }
{
    mask.trailing_zeros()
}

// Of the bits below k, those that are not set in the mask.
pub fn unset_below(mask: u32, k: u32) -> u32
    requires { k < Masks.width }
    ensures { result ≡ Masks.unset_below k mask }
{
    let all = (1u32 << k) - 1;
    all - (mask & all)
}
