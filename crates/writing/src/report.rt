// The report's text: `answer=0`, `round=`, `ticks=`, then one `response=` per graph in graph order.
ghost use Rattle.std.specs.Prelude.{◌*◌, ◌≤◌, length};
ghost use Rattle.schedule.specs.Limits as Limits;
ghost use Rattle.format.specs.Bytes.{bytes};
ghost use Rattle.rules.specs.Answers.{response_lines, report_text};
ghost use Rattle.writing.specs.Lengths.{Long, longest_line, longest_report};
ghost use Rattle.writing.specs.Written.{Written};

use crate::line::{line_length, put_line};

pub fn responses_length(figures: &[u32]) -> usize
    requires { length figures.now ≤ (Limits.graphs).to }
    ensures { Long (response_lines figures.now) (length figures.now * longest_line (bytes "response")) result }
{
    let mut n: usize = 0;
    for figure in figures {
        n += line_length(b"response", *figure);
    }
    n
}

pub fn report_length(round: u32, ticks: u32, figures: &[u32]) -> usize
    requires { length figures.now ≤ (Limits.graphs).to }
    ensures { Long (report_text round ticks figures.now) longest_report result }
{
    let head = line_length(b"answer", 0)
        + line_length(b"round", round)
        + line_length(b"ticks", ticks);
    head + responses_length(figures)
}

// Each line begins where the line before it ended.
pub fn put_responses(part: &mut [u8], figures: &[u32]) -> usize
    requires { length (response_lines figures.now) ≤ length part.old }
    ensures { Written (response_lines figures.now) part.old part.new result }
{
    let mut at: usize = 0;
    for figure in figures {
        at += put_line(&mut part[at..], b"response", *figure);
    }
    at
}

pub fn put_report(buf: &mut [u8], round: u32, ticks: u32, figures: &[u32]) -> usize
    requires { length (report_text round ticks figures.now) ≤ length buf.old }
    ensures { Written (report_text round ticks figures.now) buf.old buf.new result }
{
    let round_at = put_line(&mut *buf, b"answer", 0);
    let ticks_at = round_at + put_line(&mut buf[round_at..], b"round", round);
    let responses_at = ticks_at + put_line(&mut buf[ticks_at..], b"ticks", ticks);
    responses_at + put_responses(&mut buf[responses_at..], figures)
}
