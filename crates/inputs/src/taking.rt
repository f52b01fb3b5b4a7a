// Tables out of an input that has them end to end.
ghost use Rattle.std.specs.Prelude.{◌≤◌, length};
ghost use Rattle.schedule.specs.Limits as Limits;
ghost use Rattle.printing.specs.Batches.{slots_bytes};
ghost use Rattle.inputs.specs.Inputs.{piece_bytes, IsLength, AreLengths};

use crate::reads::{Lack, PIECE, ended, filled, read_input};
use printing::SLOT;
use std::io::Read;

// The bytes that come next, into all of the space; and whether none comes next.
fn fill<R: Read>(source: &mut R, space: &mut [u8]) -> Result<(), Lack> {
    filled(read_input(source, space), space.len())
}

fn at_end<R: Read>(source: &mut R) -> Result<(), Lack> {
    let mut byte = [0u8; 1];
    ended(read_input(source, &mut byte))
}

// Bytes that nobody needs: a piece of them, and all.
fn skip_piece<R: Read>(source: &mut R, n: usize) -> Result<(), Lack>
    requires { n ≤ piece_bytes }
{
    let mut piece = [0u8; PIECE];
    fill(source, &mut piece[..n])
}

fn skip<R: Read>(source: &mut R, n: usize) -> Result<(), Lack> {
    let mut left = n;
    while left > 0 {
        let k = left.min(PIECE);
        skip_piece(source, k)?;
        left -= k;
    }
    Ok(())
}

// The next table of an input, of that length. Of one that is longer than its slot, what does not fit is passed over: a slot past the limit of a
// table's bytes holds enough to refuse it. The largest u32 stands for every length that is none.
fn take_table<R: Read>(source: &mut R, bytes: usize, slot: &mut [u8]) -> Result<(), Lack>
    ensures { IsLength bytes result }
{
    if u32::MAX as usize <= bytes {
        return Err(Lack::Wrong);
    }
    let size = slot.len();
    if bytes <= size {
        return fill(source, &mut slot[..bytes]);
    }
    fill(source, slot)?;
    skip(source, bytes - size)
}

// The tables of an input, each into its slot; and whether the input ends with the last.
pub fn take_tables<R: Read>(source: &mut R, lengths: &[usize], room: &mut [u8]) -> Result<(), Lack>
    requires lengths_len_bound { length lengths.now ≤ (Limits.tables).to }
    requires slots_bytes_in_bounds { slots_bytes ≤ length room.old }
    ensures { AreLengths lengths.now result }
{
    for (i, bytes) in lengths.iter().enumerate() {
        take_table(source, *bytes, &mut room[i * SLOT..(i + 1) * SLOT])?;
    }
    at_end(source)
}
