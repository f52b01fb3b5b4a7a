// The backlog test, after the releases and links of an instant.
ghost use Rattle.std.specs.Prelude.{◌≡◌};
ghost use Rattle.window.specs.Entries.{nodes_of};
ghost use Rattle.ledger.specs.Releasing as Mirror;

use ledger::Ledger;
use table::Table;
use window::Plan;

// Whether a server has more pending server jobs than are allowed or, at a sink, its graph more unfinished invocations. (The plan has the room
// of a sink there, and more room elsewhere.)
pub fn overfull(released: u32, complete: u32, finished: u32, room: u8) -> bool
    ensures { result ≡ Mirror.overfull released complete finished room }
{
    Table::PENDING < released.saturating_sub(complete)
        || u32::from(room) == Table::UNFINISHED
            && Table::UNFINISHED < released.saturating_sub(finished)
}

pub fn backlogged(plan: &Plan, l: &Ledger) -> bool
    ensures { result ≡ Mirror.backlogged l.now.released l.now.complete l.now.finished plan.now.room (nodes_of plan.now) }
{
    let n = plan.nodes.min(Table::SERVERS);
    (0..n).any(|i| overfull(l.released[i], l.complete[i], l.finished[i], plan.room[i]))
}
