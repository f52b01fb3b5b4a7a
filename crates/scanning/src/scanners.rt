// Scanners over the lent bytes. Each starts at a position, and answers with the position after what it found, or with the one where the
// spelling first goes wrong.
ghost use Rattle.std.specs.Prelude.{◌≡◌, [], ◌∷◌, ◌+◌, ◌*◌, min, drop};
ghost use Rattle.format.specs.Spelling.{read, text, digits, number, next?};
ghost use Rattle.scanning.specs.Positions.{found_of, scanned_of, far, capped};

// Where the spelling first goes wrong.
#[derive(Clone, Copy)]
pub struct Wrong {
    pub at: usize,
}

// A fixed text.
pub fn text_at(s: &[u8], at: usize, t: &[u8]) -> Result<usize, Wrong>
    ensures { found_of s.now result ≡ text t.now (drop at s.now) }
{
    let mut p = at;
    for b in t {
        p = byte_at(s, p, *b)?;
    }
    Ok(p)
}

pub fn byte_at(s: &[u8], at: usize, b: u8) -> Result<usize, Wrong>
    ensures { found_of s.now result ≡ text (b ∷ []) (drop at s.now) }
{
    if next_is(s, at, b) {
        Ok(at + 1)
    } else {
        Err(Wrong { at })
    }
}

pub fn next_is(s: &[u8], at: usize, b: u8) -> bool
    ensures { result ≡ next? b (drop at s.now) }
{
    s.get(at) == Some(&b)
}

// Past every limit: no number is kept larger than this, however many digits it has.
const FAR: u64 = 0xffff_ffff;

// The number v with the digit d behind it, kept at FAR. (In 64 bits, with no branch; saturating in 32 takes a seventh longer to read a table.)
pub fn grown(v: u32, d: u8) -> u32
    ensures { result ≡ min (v * 10 + d) far }
{
    let w = u64::from(v) * 10 + u64::from(d);
    w.min(FAR) as u32
}

// The digits behind a number's first, and the position after them.
pub fn digits_at(s: &[u8], at: usize, first: u32) -> (u32, usize)
    ensures { read result.0 (drop result.1 s.now) ≡ capped (digits first (drop at s.now)) }
{
    let mut v = first;
    for p in at..s.len() {
        let c = s[p];
        if !c.is_ascii_digit() {
            return (v, p);
        }
        v = grown(v, c - b'0');
    }
    (v, s.len())
}

// A number and the position after it.
pub fn number_at(s: &[u8], at: usize) -> Result<(u32, usize), Wrong>
    ensures { scanned_of s.now result ≡ capped (number (drop at s.now)) }
{
    match s.get(at) {
        Some(b'0') => Ok((0, at + 1)),
        Some(c) if c.is_ascii_digit() => Ok(digits_at(s, at + 1, u32::from(*c - b'0'))),
        _ => Err(Wrong { at }),
    }
}
