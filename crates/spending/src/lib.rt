// A span: the server jobs that run stay the same up to the next release, boundary, instant asked or used-up budget. Each uses the span's
// ticks, linked or not (rule 6). Each function computes what the definition of its name in window/specs says.
#![tactic(auto)]

ghost use Rattle.std.specs.Prelude.{◌≡◌, ◌%◌, length};
ghost use Rattle.window.specs.Entries.{slots};
ghost use Rattle.window.specs.Spending as Mirror;

use table::Table;

// The ticks from t to the first of three instants; at least 1.
pub fn ticks_to(t: u32, release: u32, boundary: u32, asked: u32) -> u32
    ensures { result ≡ Mirror.ticks_to t release boundary asked }
{
    let to = release.min(boundary).min(asked);
    to.saturating_sub(t).max(1)
}

// Where the budget left of one that runs stands.
pub fn place_at(at: u16) -> usize
    ensures { result ≡ at % slots }
{
    usize::from(at) % Table::SLOTS
}

// The least budget left among those that run, or `most` where that is less; 0 is passed over.
pub fn least_left(left: &[u16; Table::SLOTS], at: &[u16], most: u32) -> u32
    ensures { result ≡ Mirror.least_left left.now at.now most (length at.now) }
{
    let mut least = most;
    for place in at {
        let x = left[place_at(*place)];
        if 0 < x {
            least = least.min(u32::from(x));
        }
    }
    least
}

// Each of those that run uses d ticks.
pub fn spend(left: &mut [u16; Table::SLOTS], at: &[u16], d: u32)
    ensures { left.new ≡ Mirror.spent left.old at.now d (length at.now) }
{
    for place in at {
        let k = place_at(*place);
        left[k] = u32::from(left[k]).saturating_sub(d) as u16;
    }
}
