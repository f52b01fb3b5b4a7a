// Instants, and where what is known of a server job stands.
ghost use Rattle.std.specs.Prelude.{◌≡◌, ◌<◌};
ghost use Rattle.window.specs.Entries.{places};
ghost use Rattle.ledger.specs.Entries as Mirror;

use ledger::Ledger;

// Rule 1: so many whole periods after the offset. Invocation j is released after j - 1 of them, and its server jobs' deadline is after j. (In 64
// bits, where it cannot wrap.)
pub fn instant_after(offset: u32, period: u32, periods: u32) -> u64
    ensures { result ≡ Mirror.instant_after offset period periods }
{
    u64::from(offset) + u64::from(periods) * u64::from(period)
}

// The slot of server job k of the server at place i.
pub fn slot(i: usize, k: u32) -> usize
    requires { i < places }
    ensures { (result ≡ Mirror.slot_at i k) × (result < Mirror.slots) }
{
    i * Ledger::ROOM + k as usize % Ledger::ROOM
}
