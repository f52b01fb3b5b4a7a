// A number in decimal: how many digits it has, and its digits written.
ghost use Rattle.std.specs.Prelude.{◌≤◌, length};
ghost use Rattle.format.specs.Bytes.{decimal};
ghost use Rattle.writing.specs.Lengths.{Long, most_digits};
ghost use Rattle.writing.specs.Written.{Written};

pub fn digits(v: u32) -> usize
    ensures { Long (decimal v) most_digits result }
{
    if v < 10 { 1 } else { digits(v / 10) + 1 }
}

// The digits before the last are written first, and tell where the last one goes.
pub fn put_number(part: &mut [u8], v: u32) -> usize
    requires { length (decimal v) ≤ length part.old }
    ensures { Written (decimal v) part.old part.new result }
{
    if v < 10 {
        part[0] = b'0' + v as u8;
        return 1;
    }
    let n = put_number(&mut *part, v / 10);
    part[n] = b'0' + (v % 10) as u8;
    n + 1
}
