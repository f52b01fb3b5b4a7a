// The greatest common divisor by Euclid's rule, and the step of the least common multiple.
ghost use Rattle.std.specs.Prelude.{◌≡◌};
ghost use Rattle.schedule.specs.Table as Rules;
ghost use Rattle.numbers.specs.Multiples.{multiple_within};

pub fn gcd(a: u32, b: u32) -> u32
    ensures { result ≡ Rules.gcd a b }
{
    if b == 0 { a } else { gcd(b, a % b) }
}

// The least common multiple where it is at most `most`. The product is taken in 64 bits, where it cannot wrap.
pub fn lcm_within(a: u32, b: u32, most: u32) -> Option<u32>
    ensures { result ≡ multiple_within most (Rules.lcm a b) }
{
    let g = gcd(a, b);
    if g == 0 {
        return Some(0);
    }
    let m = (a / g) as u64 * b as u64;
    if m <= most as u64 {
        Some(m as u32)
    } else {
        None
    }
}
