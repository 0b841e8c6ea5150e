// The reservations of a table: whether the rule leaves a job short, which row holds each slot, and when each job's alternate must start.
#![tactic(auto)]

ghost use Rattle.std.specs.Prelude.{◌≡◌, Ok, Err, IfOk, IfErr};
ghost use Rattle.table.specs.Rows.{used};
ghost use Rattle.reserve.specs.Check.{table_check};
ghost use Rattle.reserve.specs.Standing.{from_clock};
ghost use Rattle.reserve.specs.Lists.{reservation_list, first_slots};
ghost use Rattle.reserve.specs.HandOut.{handed, handed_over};

use crate::cycled::Cycled;
use refusal::Refusal;
use table::Table;

mod cycled;
mod scan;
mod sweep;

// What the rule says from a clock on: the cycle, the first row with a job that is short, and the holder of the clock's slot; 0 for none.
#[derive(Clone, Copy, Debug, PartialEq, Eq)]
pub struct Standing {
    pub cycle: u16,
    pub short: u8,
    pub holder: u8,
}

// Refusals 1 to 7 of a table given as rows, or the table with its cycle.
fn accepted(t: Table) -> Result<Cycled, Refusal>
    ensures passed { IfOk result (λ c. (c.table ≡ t) × (table_check t ≡ Ok c.cycle)) }
    ensures refused { IfErr result (λ f. table_check t ≡ Err f) }
{
    let cycled = Cycled::new(t)?;
    match cycled.tight_row() {
        0 => Ok(cycled),
        k => Err(Refusal::Tight(k)),
    }
}

// Refusals 1 to 7 of a table given as rows, or its cycle.
pub fn check(t: Table) -> Result<u16, Refusal>
    ensures { result ≡ table_check t }
{
    Ok(accepted(t)?.cycle)
}

// What the rule says from the clock on, where `left` has what is left of the rows' current jobs, in order; or a refusal by 1 to 6.
pub fn from_clock(t: Table, clock: u16, left: [u16; 16]) -> Result<Standing, Refusal>
    ensures { result ≡ from_clock t clock left }
{
    let cycled = Cycled::new(t)?;
    let swept = cycled.down(clock, left);
    Ok(Standing {
        cycle: cycled.cycle,
        short: swept.short,
        holder: swept.holder,
    })
}

// Writes the reservation list: a byte for each slot of the cycle, 0 for free or the row. Answers how many. Later bytes stay, and a refusal writes nothing.
pub fn reservations(t: Table, out: &mut [u8]) -> Result<usize, Refusal>
    ensures answer { result ≡ handed t (reservation_list (used t)) out.old }
    ensures bytes { out.new ≡ handed_over t (reservation_list (used t)) out.old }
{
    let cycled = accepted(t)?;
    let slots = cycled.cycle as usize;
    if out.len() < slots {
        return Err(Refusal::Room);
    }
    cycled.fill(out);
    Ok(slots)
}

// Writes the first slot of each job, rows in order. Answers how many. Later places stay, and a refusal writes nothing.
pub fn first_slots(t: Table, out: &mut [u16]) -> Result<usize, Refusal>
    ensures answer { result ≡ handed t (first_slots (used t)) out.old }
    ensures places { out.new ≡ handed_over t (first_slots (used t)) out.old }
{
    let cycled = accepted(t)?;
    let jobs = cycled.count_jobs();
    if out.len() < jobs {
        return Err(Refusal::Room);
    }
    let mut list = [0u8; 4096];
    cycled.fill(&mut list);
    cycled.put_firsts(&list, out);
    Ok(jobs)
}
