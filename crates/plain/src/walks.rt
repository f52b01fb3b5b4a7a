// The walk of an admitted table.
ghost use Rattle.std.specs.Prelude.{◌≡◌};
ghost use Rattle.sheet.specs.Walks.{Walkable};
ghost use Rattle.plainlaws.specs.Walks.{walk_of_table};

use admission::Admitted;
use ledger::Ledger;
use window::Walk;

// To its stop, or to the instant asked before it.
pub fn walked(a: Admitted, asked: u32) -> Walk<Ledger>
    requires { Walkable a }
    ensures { result ≡ walk_of_table a asked }
{
    let table = a.table;
    let plan = planning::plan_of(table);
    let offsets = planning::offsets_of(table);
    let origin = planning::largest_offset(table);
    plainwalk::walk_to(&plan, &offsets, origin, a.hyperperiod, table.rounds, asked)
}
