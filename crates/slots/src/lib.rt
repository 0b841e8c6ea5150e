// The record of a table's run, by value: what stands at a clock, one slot, and a list of reports.
#![tactic(auto)]

ghost use Rattle.std.specs.Prelude.{◌≡◌};
ghost use Rattle.slots.specs.Records.{fresh_jobs, started_for};
ghost use Rattle.slots.specs.WaitingSet.{awaiting_of};
ghost use Rattle.slots.specs.Answers.{asked_of, stepped_by, ran_by, log_after, buffer_after};
ghost use Rattle.slots.specs.LostUnits.{lost_from, lost_fresh};
ghost use Rattle.slots.specs.Turns.{started_with};
ghost use Rattle.table.specs.Rows.{used};

use crate::slot::Admitted;
use refusal::Refusal;
use table::Table;

mod awaited;
mod buffer;
mod entry;
mod listed;
mod opening;
mod slot;
mod turn;

// A row's current job: its primary may still run, or has failed (reported, overrun or aborted), or is done.
#[derive(Clone, Copy, Debug, PartialEq, Eq)]
pub enum State {
    Waiting,
    Failed,
    Done,
}

// A row's current job: its state, the primary units run and the alternate units left.
#[derive(Clone, Copy, Debug, PartialEq, Eq)]
pub struct Job {
    pub state: State,
    pub run: u16,
    pub left: u16,
}

// A record: the clock, and each row's current job. Entries past the table's rows are ignored and handed back as they came.
// An array and no `Vec`: the project has no heap, and a record is a value that its caller keeps.
#[derive(Clone, Copy, Debug, PartialEq, Eq)]
pub struct Record {
    pub clock: u16,
    pub jobs: [Job; 16],
}

// The answer of `fresh`: the record to start from, also beside a refusal of the table.
// No `Result`, since what it promises of that record holds beside a refusal too (`specs::Records::started_for`).
#[derive(Clone, Copy, Debug, PartialEq, Eq)]
pub struct Started {
    pub refusal: Option<Refusal>,
    pub start: Record,
}

// The rows waiting at the clock as a set of 16 bits, row 1 in the lowest place, the row taken and the number waiting.
// The row is no `Option`: document 01 has an empty set's 'answered as 0' (`specs::WaitingSet::awaiting_of`).
#[derive(Clone, Copy, Debug, PartialEq, Eq)]
pub struct Awaiting {
    pub set: u16,
    pub row: u8,
    pub count: u8,
}

// The answer of one slot: the next record and the byte that ran; beside a refusal the record given and 0.
// No `Result`, since the record stands beside a refusal too (theorem `step_hands_back`).
#[derive(Clone, Copy, Debug, PartialEq, Eq)]
pub struct Stepped {
    pub refusal: Option<Refusal>,
    pub next: Record,
    pub ran: u8,
}

// The answer of a run: the refusal that stopped it, the slots accepted before it, and the record after them.
// No `Result`, since slots and record stand beside a refusal too (theorems `run_hands_back`, `early_hands_back`).
#[derive(Clone, Copy, Debug, PartialEq, Eq)]
pub struct Ran {
    pub refusal: Option<Refusal>,
    pub slots: usize,
    pub next: Record,
}

// The entries of a fresh record.
fn fresh_jobs(t: Table) -> [Job; 16]
    ensures { result ≡ fresh_jobs (used t) }
{
    let mut jobs = entry::no_jobs();
    for (i, row) in t.rows().iter().enumerate() {
        jobs[i] = entry::new_job(*row);
    }
    jobs
}

// A start at slot 0, beside a refusal of the table or none.
fn start_with(refusal: Option<Refusal>, jobs: [Job; 16]) -> Started
    ensures { result ≡ started_with refusal jobs }
{
    Started {
        refusal,
        start: Record { clock: 0, jobs },
    }
}

// The fresh record of a table, also where the table is refused.
pub fn fresh(t: Table) -> Started
    ensures { result ≡ started_for t }
{
    match reserve::check(t) {
        Ok(_) => start_with(None, fresh_jobs(t)),
        Err(f) => start_with(Some(f), entry::no_jobs()),
    }
}

// Lost units over a fresh start and a list of reports.
pub fn lost_fresh(t: Table, reports: &[u8]) -> Result<u64, Refusal>
    ensures { result ≡ lost_fresh t reports.now }
{
    fresh(t).start.lost(t, reports)
}

impl Record {
    // What runs at the clock, as the log's byte.
    pub fn what_runs(self, t: Table) -> Result<u8, Refusal>
        ensures { result ≡ asked_of t self }
    {
        Ok(Admitted::new(self, t)?.runs())
    }

    // The rows waiting at the clock, the lowest of them and their number.
    pub fn waiting(self, t: Table) -> Result<Awaiting, Refusal>
        ensures { result ≡ awaiting_of t self }
    {
        Ok(Admitted::new(self, t)?.waiting())
    }

    // One slot: what runs at the clock, and its report.
    pub fn step(self, t: Table, report: u8) -> Stepped
        ensures { result ≡ stepped_by t self report }
    {
        match Admitted::new(self, t) {
            Ok(admitted) => admitted.settle(report),
            Err(f) => Stepped {
                refusal: Some(f),
                next: self,
                ran: 0,
            },
        }
    }

    // A list of reports, slot by slot, with a log byte for each slot that is accepted; later bytes stay. The lent buffer, whatever it held, is left with the reservations of the
    // record handed back, a byte for each slot of the cycle; no refusal before the first slot touches it.
    pub fn run(self, t: Table, reports: &[u8], log: &mut [u8], buffer: &mut [u8]) -> Ran
        ensures answer { result ≡ ran_by t self reports.now log.old buffer.old }
        ensures bytes { log.new ≡ log_after t self reports.now log.old buffer.old }
        ensures kept { buffer.new ≡ buffer_after t self reports.now log.old buffer.old }
    {
        match Admitted::new(self, t) {
            Ok(admitted) => admitted.run(reports, log, buffer),
            Err(f) => Ran {
                refusal: Some(f),
                slots: 0,
                next: self,
            },
        }
    }

    // Lost units over a list of reports from this record: the run's own loop, with no log and a buffer of its own.
    pub fn lost(self, t: Table, reports: &[u8]) -> Result<u64, Refusal>
        ensures { result ≡ lost_from t self reports.now }
    {
        Admitted::new(self, t)?.lost(reports)
    }
}
