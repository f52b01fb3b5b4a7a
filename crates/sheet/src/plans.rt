// What a call needs of a table, made of its bytes before the walk. The table itself is gone by then: it would lie below the walk on the stack.
ghost use Rattle.std.specs.Prelude.{◌≡◌};
ghost use Rattle.rules.specs.Admission.{admission_of};
ghost use Rattle.admission.specs.Admission.{coded_admission};
ghost use Rattle.sheet.specs.Walks.{planned_by};

use format::Refusal;
use table::{Graph, Table};
use window::Plan;

// What the walk asks for, and the graphs for the figures.
#[derive(Clone, Copy)]
pub struct Laid {
    pub plan: Plan,
    pub offsets: [u32; Table::SERVERS],
    pub origin: u32,
    pub hyperperiod: u32,
    pub rounds: u32,
    pub graphs: usize,
    pub graph: [Graph; Table::GRAPHS],
}

pub fn planned(table: &[u8]) -> Result<Laid, Refusal>
    ensures { result ≡ planned_by (coded_admission (admission_of table.now)) }
{
    let a = admission::admit(table)?;
    let t = a.table;
    let graph = t.graph;
    Ok(Laid {
        plan: planning::plan_of(t),
        offsets: planning::offsets_of(t),
        origin: planning::largest_offset(t),
        hyperperiod: a.hyperperiod,
        rounds: t.rounds,
        graphs: t.graphs,
        graph,
    })
}
