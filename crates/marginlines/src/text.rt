// The whole text: the head of a report, then the two lines of each graph in graph order.
ghost use Rattle.std.specs.Prelude.{◌≡◌, ◌*◌, ◌≤◌, length, get_or};
ghost use Rattle.schedule.specs.Limits as Limits;
ghost use Rattle.margins.specs.Margins.{margin_lines, margin_text};
ghost use Rattle.writing.specs.Lengths.{Long};
ghost use Rattle.writing.specs.Written.{Written};
ghost use Rattle.marginlines.specs.Lines.{longest_lines, most_counted};

use crate::line::{lines_length, put_lines};

// No text of margins is longer: `margin_bytes` and `every_margin_fits` of crate `margin`.
pub const MARGIN_BYTES: usize = 364;

// The limit of a graph; 0 where none stands. Limits past those of the graphs are not read.
pub fn limit_at(limits: &[u32], g: usize) -> u32
    ensures { result ≡ get_or limits.now g 0 }
{
    limits.get(g).copied().unwrap_or(0)
}

pub fn graphs_length(figures: &[u32], limits: &[u32]) -> usize
    requires { length figures.now ≤ (Limits.graphs).to }
    ensures { Long (margin_lines figures.now limits.now) (length figures.now * longest_lines) result }
{
    let mut n: usize = 0;
    for (g, figure) in figures.iter().enumerate() {
        n += lines_length(limit_at(limits, g), *figure);
    }
    n
}

// Each graph's lines begin where those of the one before it ended.
pub fn put_graphs(part: &mut [u8], figures: &[u32], limits: &[u32]) -> usize
    requires { length (margin_lines figures.now limits.now) ≤ length part.old }
    ensures { Written (margin_lines figures.now limits.now) part.old part.new result }
{
    let mut at: usize = 0;
    for (g, figure) in figures.iter().enumerate() {
        at += put_lines(&mut part[at..], limit_at(limits, g), *figure);
    }
    at
}

// The head is the report of no graph.
pub fn margins_length(round: u32, ticks: u32, figures: &[u32], limits: &[u32]) -> usize
    requires { length figures.now ≤ (Limits.graphs).to }
    ensures { Long (margin_text round ticks figures.now limits.now) most_counted result }
{
    writing::report_length(round, ticks, &[]) + graphs_length(figures, limits)
}

pub fn put_margins(buf: &mut [u8], round: u32, ticks: u32, figures: &[u32], limits: &[u32]) -> usize
    requires { length (margin_text round ticks figures.now limits.now) ≤ length buf.old }
    ensures { Written (margin_text round ticks figures.now limits.now) buf.old buf.new result }
{
    let at = writing::put_report(&mut *buf, round, ticks, &[]);
    at + put_graphs(&mut buf[at..], figures, limits)
}
