// A text that an editor spoiled, mended, and the list of what was mended.
ghost use Rattle.std.specs.Prelude.{◌≡◌};
ghost use Rattle.salvaging.specs.Salvage.{salvage_call};
ghost use Rattle.salvage.specs.Told.{Told};

use salvage::PhalandrixSalvage;

#[unsafe(no_mangle)]
pub extern "C" fn phalandrix_salvage(
    bytes: &[u8],
    text: &mut [u8],
    list: &mut [u8],
) -> PhalandrixSalvage
    ensures { Told result text.new list.new (salvage_call bytes.now text.old list.old) }
{
    salvage::phalandrix_salvage(bytes, text, list)
}
