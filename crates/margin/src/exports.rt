// The call as C takes it; phalandrix_c exports it. A slice passes as a pointer and a length, and the answer by value.
ghost use Rattle.std.specs.Prelude.{◌≡◌};
ghost use Rattle.margins.specs.Margins.{margin_of};
ghost use Rattle.margins.specs.Kept.{TrueMargins};
ghost use Rattle.margin.specs.Exports.{Told};

use crate::answering::{MarginAnswer, MarginRefusal, margin};
use sheet::PhalandrixAnswer;

// 0, 0 and 0 with the text's length; or a refusal's number, line and column with length 0. `in_limits` is 1 where the refusal is of the limit text, and 0 else.
#[repr(C)]
#[derive(Clone, Copy)]
pub struct PhalandrixMargin {
    pub number: u32,
    pub line: u32,
    pub column: u32,
    pub in_limits: u32,
    pub length: usize,
}

impl From<MarginAnswer> for PhalandrixMargin {
    ghost use Rattle.margin.specs.Exports.{told_of};

    ghost from_gives = { λ a p. p ≡ told_of a };

    fn from(answer: MarginAnswer) -> PhalandrixMargin {
        let (answer, in_limits) = match answer {
            Ok(length) => (Ok(length), 0),
            Err(MarginRefusal::OfTable(r)) => (Err(r), 0),
            Err(MarginRefusal::OfLimits(r)) => (Err(r), 1),
        };
        let told = PhalandrixAnswer::from(answer);
        PhalandrixMargin {
            number: told.number,
            line: told.line,
            column: told.column,
            in_limits,
            length: told.length,
        }
    }
}

pub fn phalandrix_margin(table: &[u8], limits: &[u8], buffer: &mut [u8]) -> PhalandrixMargin
    ensures call { Told result buffer.old buffer.new (margin_of table.now limits.now) }
    ensures kept { result.number ≡ 0 → TrueMargins table.now limits.now }
{
    PhalandrixMargin::from(margin(table, limits, buffer))
}
