// Several tables in one call.
ghost use Rattle.std.specs.Prelude.{◌≡◌};
ghost use Rattle.rules.specs.Batch.{batch_of};
ghost use Rattle.batch.specs.Told.{Told, TrueReports};

use batch::PhalandrixBatch;

#[unsafe(no_mangle)]
pub extern "C" fn phalandrix_batch(
    tables: &[u8],
    lengths: &[usize],
    buffer: &mut [u8],
) -> PhalandrixBatch
    ensures call { Told result buffer.new (batch_of tables.now lengths.now buffer.old) }
    ensures least_true { TrueReports result tables.now lengths.now }
{
    batch::phalandrix_batch(tables, lengths, buffer)
}
