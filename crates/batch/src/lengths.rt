// Whether a list of lengths is one of 1 to 16 tables, and adds up to the bytes.
ghost use Rattle.std.specs.Prelude.{◌≡◌, eqb};
ghost use Rattle.rules.specs.Batch.{total, add_up};

use table::Table;

// Each length is taken off the bytes that are left, so no sum can wrap.
pub fn adds_up(bytes: usize, lengths: &[usize]) -> bool
    ensures { result ≡ eqb (total lengths.now) bytes }
{
    let mut left = bytes;
    for length in lengths {
        if left < *length {
            return false;
        }
        left -= *length;
    }
    left == 0
}

pub fn is_batch(tables: &[u8], lengths: &[usize]) -> bool
    ensures { result ≡ add_up tables.now lengths.now }
{
    let count = lengths.len();
    let few = Table::TABLES_FROM as usize <= count && count <= Table::TABLES;
    few && adds_up(tables.len(), lengths)
}
