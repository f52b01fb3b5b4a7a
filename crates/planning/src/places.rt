// A node's predecessors by the places of their servers.
ghost use Rattle.std.specs.Prelude.{◌≡◌};
ghost use Rattle.planning.specs.Places.{at_places};

use table::Table;

// Bit first + q for each bit q of a node's mask, where `first` is the place of its graph's node 1: one turn for each predecessor.
pub fn at_places(mask: u32, first: u32) -> u32
    ensures { result ≡ at_places mask first }
{
    if Table::ALL_NODES_TO <= first {
        return 0;
    }
    // A mask has no iterator: one turn for each bit that is set.
    let mut placed: u32 = 0;
    let mut rest = mask;
    while 0 < rest {
        let q = numbers::lowest(rest);
        placed = numbers::with(placed, first + q);
        rest = numbers::without(rest, q);
    }
    placed
}
