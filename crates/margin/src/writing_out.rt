// The text of a settled walk's margins, where it fits.
ghost use Rattle.std.specs.Prelude.{◌≡◌, ◌≤◌, length};
ghost use Rattle.schedule.specs.Limits as Limits;
ghost use Rattle.rules.specs.Answers.{says, call_of};
ghost use Rattle.margins.specs.Margins.{margin_text};
ghost use Rattle.sheet.specs.Calls.{called};

use format::Refusal;
use rules::Answer;

// Refusal 10 is known before the first byte is written.
pub fn put_settled(
    buffer: &mut [u8],
    round: u32,
    ticks: u32,
    figures: &[u32],
    limits: &[u32],
) -> Answer
    requires { length figures.now ≤ (Limits.graphs).to }
    ensures { called result buffer.new ≡ call_of buffer.old (says (margin_text round ticks figures.now limits.now)) }
{
    let n = marginlines::margins_length(round, ticks, figures, limits);
    if buffer.len() < n {
        return Err(Refusal::ShortBuffer);
    }
    marginlines::put_margins(buffer, round, ticks, figures, limits);
    Ok(n)
}
