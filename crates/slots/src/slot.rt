// One slot of a record.
ghost use Rattle.std.specs.Prelude.{Some, Ok, Err, IfOk, IfErr, ◌≡◌, ◌&&◌, ◌<◌, ltb, eqb};
ghost use Rattle.table.specs.Rows.{used};
ghost use Rattle.reserve.specs.Turns.{Ready};
ghost use Rattle.slots.specs.Sound.{jobs_fit, lefts, record_refusal};
ghost use Rattle.slots.specs.OneSlot.{byte_of, worked, renewed, step_by, what, holder_at};
ghost use Rattle.slots.specs.History.{work_of};
ghost use Rattle.slots.specs.Answers.{stepped_by};
ghost use Rattle.slots.specs.Turns.{Workable, Steady, members_of};

use crate::{Awaiting, Job, Record, Stepped, awaited, entry, opening, turn};
use refusal::Refusal;
use table::Table;

// A record and its table that 1 to 7 and 9 accept, with the cycle and the holder of the clock's slot.
#[derive(Clone, Copy)]
pub(crate) struct Admitted {
    pub(crate) start: Record,
    pub(crate) table: Table,
    pub(crate) cycle: u16,
    pub(crate) holder: u8,
    ghost steady: { Steady table cycle start },
    ghost held: { holder ≡ holder_at (used table) start start.clock },
}

// What is left of each entry's job.
fn left_units(jobs: [Job; 16]) -> [u16; 16]
    ensures { result ≡ lefts jobs }
{
    jobs.map(|j| j.left)
}

// Whether each row's job has what its state says.
fn all_fit(t: Table, jobs: [Job; 16]) -> bool
    ensures { result ≡ jobs_fit (used t) jobs }
{
    t.rows()
        .iter()
        .zip(&jobs)
        .all(|(row, job)| entry::fits(*row, *job))
}

// The three points of a sound record.
fn all_hold(clock: u16, cycle: u16, fit: bool, short: u8) -> bool
    ensures { result ≡ (ltb clock cycle && (fit && eqb short 0)) }
{
    clock < cycle && fit && short == 0
}

// The entries after the slot's unit and its report.
fn after_unit(t: Table, jobs: [Job; 16], ran: u8, report: u8) -> [Job; 16]
    requires { Workable t jobs ran }
    ensures { result ≡ worked (work_of ran) report (used t) jobs }
{
    let mut next = jobs;
    let at = turn::entry_of(ran) as usize;
    next[at] = turn::moved_job(t.rows[at], jobs[at], ran, report);
    next
}

// The entries as the clock comes to c: each row whose window starts there has a new job.
fn after_clock(t: Table, cycle: u16, c: u16, jobs: [Job; 16]) -> [Job; 16]
    requires { Ready t cycle }
    ensures { result ≡ renewed c (used t) jobs }
{
    let mut next = jobs;
    for (i, row) in t.rows().iter().enumerate() {
        next[i] = entry::come(*row, c, jobs[i]);
    }
    next
}

// The next record, where the byte says what ran.
fn next_record(q: Record, t: Table, cycle: u16, ran: u8, report: u8) -> Record
    requires { Ready t cycle × (q.clock < cycle) × Workable t q.jobs ran }
    ensures { result ≡ step_by (used t) q (work_of ran) report }
{
    let c = opening::wrapped(q.clock + 1, cycle);
    let worked = after_unit(t, q.jobs, ran, report);
    let jobs = after_clock(t, cycle, c, worked);
    Record { clock: c, jobs }
}

impl Admitted {
    // Refusals 1 to 7, then 9, or the record and its table with what stands before the slot.
    pub(crate) fn new(start: Record, table: Table) -> Result<Self, Refusal>
        ensures passed { IfOk result (λ a. (a.start ≡ start) × (a.table ≡ table)) }
        ensures refused { IfErr result (λ f. record_refusal table start ≡ Some f) }
    {
        reserve::check(table)?;
        let stands = reserve::from_clock(table, start.clock, left_units(start.jobs))?;
        let fit = all_fit(table, start.jobs);
        if all_hold(start.clock, stands.cycle, fit, stands.short) {
            Ok(Admitted {
                start,
                table,
                cycle: stands.cycle,
                holder: stands.holder,
            })
        } else {
            Err(Refusal::Record)
        }
    }

    // The rows waiting at the clock.
    pub(crate) fn waiting(self) -> Awaiting
        ensures { result ≡ members_of self.start.jobs self.table.n }
    {
        awaited::awaited_rows(self.start.jobs, self.table.n)
    }

    // The log's byte for what runs at the clock.
    pub(crate) fn runs(self) -> u8
        ensures { result ≡ byte_of (what (used self.table) self.start) }
    {
        turn::byte_of(self.holder, self.waiting().row)
    }

    // The slot, where its report is read.
    pub(crate) fn settle(self, report: u8) -> Stepped
        ensures { result ≡ stepped_by self.table self.start report }
    {
        let ran = self.runs();
        match turn::hear(ran, report) {
            Ok(()) => Stepped {
                refusal: None,
                next: next_record(self.start, self.table, self.cycle, ran, report),
                ran,
            },
            Err(f) => Stepped {
                refusal: Some(f),
                next: self.start,
                ran: 0,
            },
        }
    }
}
