// The call as C takes it; phalandrix_c exports it. A slice passes as a pointer and a length, and the answer by value.
ghost use Rattle.std.specs.Prelude.{◌≡◌};
ghost use Rattle.salvaging.specs.Salvage.{salvage_call};
ghost use Rattle.salvage.specs.Told.{told_of, Told};

use crate::outputs::salvage;
use format::Refusal;
use salvaging::Lengths;

// 0, 0 and 0 with the lengths of the text and of the list; or a refusal's number, line and column with lengths 0.
#[repr(C)]
#[derive(Clone, Copy)]
pub struct PhalandrixSalvage {
    pub number: u32,
    pub line: u32,
    pub column: u32,
    pub text_length: usize,
    pub list_length: usize,
}

impl From<Result<Lengths, Refusal>> for PhalandrixSalvage {
    ghost from_gives = { λ a r. r ≡ told_of a };

    fn from(a: Result<Lengths, Refusal>) -> PhalandrixSalvage {
        match a {
            Ok(n) => PhalandrixSalvage {
                number: 0,
                line: 0,
                column: 0,
                text_length: n.text,
                list_length: n.list,
            },
            Err(f) => PhalandrixSalvage {
                number: writing::number_of(f),
                line: writing::line_of(f),
                column: writing::column_of(f),
                text_length: 0,
                list_length: 0,
            },
        }
    }
}

pub fn phalandrix_salvage(bytes: &[u8], text: &mut [u8], list: &mut [u8]) -> PhalandrixSalvage
    ensures { Told result text.new list.new (salvage_call bytes.now text.old list.old) }
{
    PhalandrixSalvage::from(salvage(bytes, text, list))
}
