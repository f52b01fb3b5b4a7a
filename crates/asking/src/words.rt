// The words that the program listens to.
ghost use Rattle.std.specs.Prelude.{◌≡◌};
ghost use Rattle.asking.specs.Questions.{is_word};

pub const ROW: &[u8] = b"row";

pub const BATCH: &[u8] = b"batch";

// The two outputs of salvage.
pub const SALVAGE: &[u8] = b"salvage";

pub const FIXES: &[u8] = b"fixes";

// The table read and written again (R-4).
pub const REWRITE: &[u8] = b"rewrite";

// The report, and before `row` the row, by the plain engine (R-7).
pub const PLAIN: &[u8] = b"plain";

// Before the name of the file with the limits (R-12).
pub const MARGIN: &[u8] = b"margin";

// No word of the program is longer.
pub const WORD_ROOM: usize = 8;

pub fn is_word(bytes: &[u8], word: &[u8]) -> bool
    ensures { result ≡ is_word word.now bytes.now }
{
    bytes == word
}
