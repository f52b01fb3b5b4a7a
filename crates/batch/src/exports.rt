// The call as C takes it; phalandrix_c exports it. A slice passes as a pointer and a length, and the answers by value.
ghost use Rattle.std.specs.Prelude.{◌≡◌};
ghost use Rattle.rules.specs.Batch.{batch_of};
ghost use Rattle.batch.specs.Told.{Told, TrueReports};

use crate::lengths::is_batch;
use crate::shares::{no_answer, shared_out};
use format::Refusal;
use sheet::PhalandrixAnswer;
use table::Table;

// Number, line and column 0, with as many answers as tables; or a refusal's own, with none. The answers past the count are all zeros.
#[repr(C)]
#[derive(Clone, Copy)]
pub struct PhalandrixBatch {
    pub number: u32,
    pub line: u32,
    pub column: u32,
    pub count: usize,
    pub answers: [PhalandrixAnswer; Table::TABLES],
}

impl From<Refusal> for PhalandrixBatch {
    ghost use Rattle.batch.specs.Told.{refused_batch};

    ghost from_gives = { λ r b. b ≡ refused_batch r };

    fn from(r: Refusal) -> PhalandrixBatch {
        let none = no_answer();
        PhalandrixBatch {
            number: writing::number_of(r),
            line: writing::line_of(r),
            column: writing::column_of(r),
            count: 0,
            answers: [none; Table::TABLES],
        }
    }
}

// Refusal 11 is known before the first table is looked at. Else what it returns and leaves in each share is what the single call does for
// that table and that share; and where a table's answer is 0, its figures are the least true ones.
pub fn phalandrix_batch(tables: &[u8], lengths: &[usize], buffer: &mut [u8]) -> PhalandrixBatch
    ensures call { Told result buffer.new (batch_of tables.now lengths.now buffer.old) }
    ensures least_true { TrueReports result tables.now lengths.now }
{
    if !is_batch(tables, lengths) {
        return PhalandrixBatch::from(Refusal::WrongLengths);
    }
    shared_out(tables, lengths, buffer)
}
