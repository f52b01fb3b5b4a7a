// The margins of a table against the limits of a second text.
ghost use Rattle.std.specs.Prelude.{◌≡◌};
ghost use Rattle.margins.specs.Margins.{margin_of};
ghost use Rattle.margins.specs.Kept.{TrueMargins};
ghost use Rattle.margin.specs.Exports.{Told};

use margin::PhalandrixMargin;

#[unsafe(no_mangle)]
pub extern "C" fn phalandrix_margin(
    table: &[u8],
    limits: &[u8],
    buffer: &mut [u8],
) -> PhalandrixMargin
    ensures call { Told result buffer.old buffer.new (margin_of table.now limits.now) }
    ensures kept { result.number ≡ 0 → TrueMargins table.now limits.now }
{
    margin::phalandrix_margin(table, limits, buffer)
}
