// A table with its cycle: what the sweep and the scan work on.
ghost use Rattle.std.specs.Prelude.{◌≡◌, Ok, Err, IfOk, IfErr};
ghost use Rattle.table.specs.Check.{rows_check};
ghost use Rattle.reserve.specs.Turns.{Ready};

use refusal::Refusal;
use table::Table;

// A table that 1 to 6 accept, with its cycle.
#[derive(Clone, Copy)]
pub(crate) struct Cycled {
    pub(crate) table: Table,
    pub(crate) cycle: u16,
    ghost ready: { Ready table cycle },
}

impl Cycled {
    // Refusals 1 to 6 of a table given as rows, or the table with its cycle.
    pub(crate) fn new(table: Table) -> Result<Self, Refusal>
        ensures passed { IfOk result (λ c. (c.table ≡ table) × (rows_check table ≡ Ok c.cycle)) }
        ensures refused { IfErr result (λ f. rows_check table ≡ Err f) }
    {
        let cycle = table::check_rows(table)?;
        Ok(Cycled { table, cycle })
    }
}
