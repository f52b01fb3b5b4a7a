// What a byte adds to the text: its length, and its bytes in a lent part of the buffer.
ghost use Rattle.std.specs.Prelude.{◌≡◌, ℕ, ◌≤◌, length, replicate};
ghost use Rattle.schedule.specs.Limits as Limits;
ghost use Rattle.writing.specs.Written.{Written};
ghost use Rattle.salvaging.specs.Steps.{blank};
ghost use Rattle.mending.specs.Line.{byte_if, added_text, length_if};

// A blank is a space, and nothing else is.
pub const BLANK: u8 = b' ';

// The zero that was held, the blanks before the byte, and the byte itself.
#[derive(Clone, Copy, Default)]
pub struct Added {
    pub zero: bool,
    pub blanks: usize,
    pub byte: bool,
}

impl Added {
    pub fn size(self) -> usize
        requires { self.blanks ≤ (Limits.table_bytes).to }
        ensures { (c : ℕ) → result ≡ length (added_text self c) }
    {
        length_if(self.zero, 1) + self.blanks + length_if(self.byte, 1)
    }

    pub fn put(self, part: &mut [u8], c: u8) -> usize
        requires { length (added_text self c) ≤ length part.old }
        ensures { Written (added_text self c) part.old part.new result }
    {
        let blanks_at = put_if(&mut *part, self.zero, b'0');
        let byte_at = blanks_at + put_blanks(&mut part[blanks_at..], self.blanks);
        byte_at + put_if(&mut part[byte_at..], self.byte, c)
    }
}

pub fn length_if(wanted: bool, n: usize) -> usize
    ensures { result ≡ length_if wanted n }
{
    if wanted { n } else { 0 }
}

fn put_if(part: &mut [u8], wanted: bool, c: u8) -> usize
    requires { length (byte_if wanted c) ≤ length part.old }
    ensures { Written (byte_if wanted c) part.old part.new result }
{
    if wanted {
        part[0] = c;
        return 1;
    }
    0
}

fn put_blanks(part: &mut [u8], n: usize) -> usize
    requires { n ≤ length part.old }
    ensures { Written (replicate n blank) part.old part.new result }
{
    part[..n].fill(BLANK);
    n
}
