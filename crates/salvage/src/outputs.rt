// Salvage: the bytes gone over to measure the text and the list, and again to write them.
ghost use Rattle.std.specs.Prelude.{◌≡◌, ◌≤◌, length};
ghost use Rattle.schedule.specs.Limits as Limits;
ghost use Rattle.writing.specs.Written.{Written};
ghost use Rattle.salvaging.specs.Steps.{salvaged};
ghost use Rattle.salvaging.specs.Fixes.{fixes_of};
ghost use Rattle.salvaging.specs.Salvage.{salvage_call};
ghost use Rattle.salvage.specs.Call.{called, Filled};

use format::Refusal;
use mending::{Line, number_after};
use salvaging::Lengths;
use table::Table;

// `fix=`, a line number of four digits, a comma, the kind and LF.
const FIX_BYTES: usize = 11;

// No list is longer: each byte is the cause of one line of it at most, and the end of the last line of one more.
pub const LIST_BYTES: usize = FIX_BYTES * (Table::TABLE_BYTES_TO as usize + 1);

pub fn measured(bytes: &[u8]) -> Lengths
    requires { length bytes.now ≤ (Limits.table_bytes).to }
    ensures text { result.text ≡ length (salvaged bytes.now) }
    ensures list { result.list ≡ length (fixes_of bytes.now) }
{
    let mut line = Line::fresh();
    let mut n: u32 = 1;
    let mut text: usize = 0;
    let mut list: usize = 0;
    for &c in bytes {
        text += line.adds(c).size();
        list += line.kinds_at(c).size(n);
        n = number_after(n, c);
        line = line.after(c);
    }
    Lengths {
        text: text + line.ended().size(),
        list: list + line.kinds_last().size(n),
    }
}

// Both outputs fit.
pub fn put_both(bytes: &[u8], text: &mut [u8], list: &mut [u8])
    requires bytes_len_bound { length bytes.now ≤ (Limits.table_bytes).to }
    requires bytes_in_bounds { length (salvaged bytes.now) ≤ length text.old }
    requires bytes_in_bounds_2 { length (fixes_of bytes.now) ≤ length list.old }
    ensures text { Filled (salvaged bytes.now) text.old text.new }
    ensures list { Filled (fixes_of bytes.now) list.old list.new }
{
    let mut line = Line::fresh();
    let mut n: u32 = 1;
    let mut text_at: usize = 0;
    let mut list_at: usize = 0;
    for &c in bytes {
        text_at += line.adds(c).put(&mut text[text_at..], c);
        list_at += line.kinds_at(c).put(&mut list[list_at..], n);
        n = number_after(n, c);
        line = line.after(c);
    }
    line.ended().put(&mut text[text_at..], b'\n');
    line.kinds_last().put(&mut list[list_at..], n);
}

// A text mended, and the list of what was mended. Where either output does not fit, neither is written.
pub fn salvage(bytes: &[u8], text: &mut [u8], list: &mut [u8]) -> Result<Lengths, Refusal>
    ensures { called result text.new list.new ≡ salvage_call bytes.now text.old list.old }
{
    if (Table::TABLE_BYTES_TO as usize) < bytes.len() {
        return Err(Refusal::TooLong);
    }
    let n = measured(bytes);
    if (Table::TABLE_BYTES_TO as usize) < n.text {
        return Err(Refusal::TooLong);
    }
    if text.len() < n.text {
        return Err(Refusal::ShortBuffer);
    }
    if list.len() < n.list {
        return Err(Refusal::ShortBuffer);
    }
    put_both(bytes, text, list);
    Ok(n)
}
