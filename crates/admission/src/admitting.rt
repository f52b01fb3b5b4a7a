// Admission: a table that is read, with its hyperperiod; or refusal 1 to 6 or 12.
ghost use Rattle.std.specs.Prelude.{◌≡◌};
ghost use Rattle.rules.specs.Admission.{admission_of};
ghost use Rattle.admission.specs.Admission.{admitted_memory, coded_admission};

use crate::loads::{hyperperiod_of, load_room};
use crate::paces::keeps_up;
use format::Refusal;
use reading::table_read;
use table::Table;

// An admitted table and its hyperperiod.
#[derive(Clone, Copy)]
pub struct Admitted {
    pub table: Table,
    pub hyperperiod: u32,
}

// Refusals 5, 6 and 12 of a table that is read.
pub fn admit_table(t: Table) -> Result<Admitted, Refusal>
    ensures { result ≡ admitted_memory t }
{
    let hyperperiod = hyperperiod_of(&t).ok_or(Refusal::LongHyperperiod)?;
    load_room(&t, hyperperiod).ok_or(Refusal::NotLoadable)?;
    if !keeps_up(&t) {
        return Err(Refusal::CannotKeepUp);
    }
    Ok(Admitted {
        table: t,
        hyperperiod,
    })
}

// The table that these bytes spell, with its hyperperiod; or refusal 1 to 6 or 12.
pub fn admit(s: &[u8]) -> Result<Admitted, Refusal>
    ensures { result ≡ coded_admission (admission_of s.now) }
{
    let (table, _) = table_read(s)?;
    admit_table(table)
}
