// The limit text of a table (document 02, R-12): one `limit=` line for each graph. A line of it is read as a table's is, by the same keys.
#![tactic(auto)]

ghost use Rattle.std.specs.Prelude.{◌≡◌, ◌≤◌, take};
ghost use Rattle.schedule.specs.Limits as Limits;
ghost use Rattle.lines.specs.Numbered.{map_outcome, stands, came_to, came_at};
ghost use Rattle.margins.specs.Margins.{limits_from, limits_of};

use format::Refusal;
use lines::{Lines, Place};
use table::{Key, Table};

// The lines of n graphs: the first n entries are their limits.
pub fn limits_from(lines: &mut Lines, n: usize) -> Result<[u32; Table::GRAPHS], Refusal>
    requires { n ≤ (Limits.graphs).to }
    ensures limits { map_outcome (take n) (came_to (stands lines.new) result) ≡ limits_from n (stands lines.old) }
    ensures text { lines.new.text ≡ lines.old.text }
{
    let mut limits = [0u32; Table::GRAPHS];
    for g in 0..n {
        let v = lines.line(Key::Limit, 0)?;
        limits[g] = v;
    }
    Ok(limits)
}

// The limits of a table of n graphs, in their order, and the place behind them; or refusal 1 to 3 of their text.
pub fn limits_read(s: &[u8], n: usize) -> Result<([u32; Table::GRAPHS], Place), Refusal>
    requires { n ≤ (Limits.graphs).to }
    ensures { map_outcome (take n) (came_at s.now result) ≡ limits_of n s.now }
{
    if (Table::LIMIT_BYTES_TO as usize) < s.len() {
        return Err(Refusal::TooLong);
    }
    let mut lines = Lines::new(s);
    let limits = limits_from(&mut lines, n)?;
    lines.end()?;
    Ok((limits, lines.place))
}
