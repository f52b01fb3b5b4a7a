// Rules 2 and 3: whether the next unlinked job of a node is released, and the server job that is linked to it or not.
ghost use Rattle.std.specs.Prelude.{◌≡◌};
ghost use Rattle.window.specs.Releasing as Mirror;

use table::{Pending, Table};

// The next job is released where each predecessor has fewer unfinished jobs than the node has unlinked ones, both counted before the
// releases of the instant.
pub fn all_fewer(unfinished: &[u8; Table::SERVERS], after: u32, unlinked: u8) -> bool
    ensures { result ≡ Mirror.all_fewer unfinished.now after unlinked }
{
    // The ones of the mask count the predecessors that are left: a turn for each, the lowest first.
    let mut rest = after;
    for _turn in 0..numbers::ones(after) {
        let p = numbers::lowest(rest);
        if unlinked <= unfinished[p as usize] {
            return false;
        }
        rest = numbers::without(rest, p);
    }
    true
}

// Rule 3: the server job released now, linked to the next unlinked job where that is released.
pub fn linked_now(due: bool, unlinked: u8) -> Pending
    ensures { result ≡ Mirror.linked_now due unlinked }
{
    Pending {
        behind: due.then_some(unlinked),
    }
}
