// A list of reports from a sound record, slot by slot, with the reservations kept in a lent buffer.
ghost use Rattle.std.specs.Prelude.{None, ◌≡◌, ◌||◌, ◌≤◌, ◌<◌, ltb, length, set};
ghost use Rattle.refusal.specs.Order.{answer};
ghost use Rattle.table.specs.Rows.{used};
ghost use Rattle.slots.specs.Reports.{run_of};
ghost use Rattle.slots.specs.Answers.{ran_by, log_after, buffer_after};
ghost use Rattle.slots.specs.LostUnits.{lost_from};
ghost use Rattle.slots.specs.Buffer.{Kept, Stale};
ghost use Rattle.slots.specs.Turns.{Steady, Standing, RunLeaves, lost_by};

use crate::slot::Admitted;
use crate::{Job, Ran, Record, awaited, buffer, entry, opening, turn};
use refusal::Refusal;
use table::Table;

// What a list has come to: the refusal that stopped it, the slots accepted, the record after them, and the units that they lost.
// No `Result`, since a run's answer has what stands beside the refusal (`Ran`).
#[derive(Clone, Copy)]
pub(crate) struct Course {
    pub refusal: Option<Refusal>,
    pub slots: usize,
    pub next: Record,
    pub lost: u64,
}

// The log's byte for the i-th slot, where the log is that long.
fn put(log: &mut [u8], i: usize, ran: u8)
    ensures { log.new ≡ set log.old i ran }
{
    if i < log.len() {
        log[i] = ran;
    }
}

// Makes the buffer true again as a stretch has ended, at the next record: it is built anew at slot 0, and refilled after a done.
fn keep(t: Table, cycle: u16, clock: u16, jobs: [Job; 16], finished: u8, kept: &mut [u8])
    requires { Steady t cycle (record { clock = clock; jobs = jobs }) × (cycle ≤ length kept.old) × Stale (used t) cycle (record { clock = clock; jobs = jobs }) finished kept.old }
    ensures { Kept (used t) cycle (record { clock = clock; jobs = jobs }) kept.old kept.new }
{
    if clock == 0 {
        buffer::build(t, cycle, clock, jobs, kept);
        return;
    }
    if finished == 0 {
        return;
    }
    let place = finished - 1;
    let end = opening::window_end(t.rows[place as usize], clock - 1);
    if clock < end {
        buffer::refill(t, cycle, clock, jobs, place, end, kept);
    }
}

// Runs the list in stretches, from the record of this clock and these entries, with its waiting set, the next slot at which a window opens, and the buffer true of it. A stretch ends
// where a window opens, after a done, and with the list: in it no row is looked at but the one that runs, and the reservations stay as they are.
fn run_stretches(
    c: u16,
    js: [Job; 16],
    set: u16,
    next: u16,
    t: Table,
    cycle: u16,
    reports: &[u8],
    log: &mut [u8],
    kept: &mut [u8],
) -> Course
    requires { Standing t cycle c js set next kept.old }
    ensures course { RunLeaves (run_of (used t) (record { clock = c; jobs = js }) reports.now) log.old result.refusal result.slots result.next log.new }
    ensures lost { result.refusal ≡ None → result.lost ≡ lost_by (used t) (record { clock = c; jobs = js }) reports.now }
    ensures kept { Kept (used t) cycle result.next kept.old kept.new }
{
    let mut jobs = js;
    let mut clock = c;
    let mut waiting = set;
    let mut opens = next;
    let mut lost: u64 = 0;
    let mut i: usize = 0;
    // two `while`s, since no `for` is plainer: a done moves the inner one's end, and the place `i` in the list and the log goes on from stretch to stretch
    while i < reports.len() {
        let mut stop = turn::stretch(i, reports.len(), opens - clock);
        let mut finished: u8 = 0;
        while i < stop {
            let report = reports[i];
            match turn::decide(kept[clock as usize], waiting, report) {
                Ok(chosen) => {
                    let at = chosen.at as usize;
                    let moved = turn::act(
                        t.rows[at], jobs[at], waiting, chosen.at, chosen.ran, report,
                    );
                    jobs[at] = moved.job;
                    waiting = moved.waiting;
                    lost += moved.lost as u64;
                    finished = moved.finished;
                    put(log, i, chosen.ran);
                    kept[clock as usize] = 0;
                    clock += 1;
                    i += 1;
                    stop = turn::cut(finished, i, stop);
                }
                Err(f) => {
                    return Course {
                        refusal: Some(f),
                        slots: i,
                        next: Record { clock, jobs },
                        lost,
                    };
                }
            }
        }
        clock = opening::wrapped(clock, cycle);
        waiting = 0;
        opens = cycle;
        for k in (0..t.n).rev() {
            let at = k as usize;
            let row = t.rows[at];
            let job = entry::come(row, clock, jobs[at]);
            jobs[at] = job;
            waiting = awaited::joined(waiting, job.state);
            opens = opens.min(opening::window_end(row, clock));
        }
        keep(t, cycle, clock, jobs, finished, kept);
    }
    Course {
        refusal: None,
        slots: i,
        next: Record { clock, jobs },
        lost,
    }
}

// Whether the log or the buffer is shorter than its use.
fn lacks_room(log: usize, reports: usize, buffer: usize, cycle: u16) -> bool
    ensures { result ≡ (ltb log reports || ltb buffer cycle) }
{
    log < reports || buffer < cycle as usize
}

// The units lost by a list that nothing stopped, or the refusal that stopped it.
// A function of its own: a sum in the place of the refusal is ruled out here, whatever the run (`lost_beside_a_refusal`).
fn lost_with(refusal: Option<Refusal>, units: u64) -> Result<u64, Refusal>
    ensures { result ≡ answer refusal units }
{
    match refusal {
        None => Ok(units),
        Some(f) => Err(f),
    }
}

impl Admitted {
    // Builds the buffer, whatever it held, and runs the list over it. The log may be shorter than the list: no byte is written past it.
    fn course(self, reports: &[u8], log: &mut [u8], kept: &mut [u8]) -> Course
        requires { self.cycle ≤ length kept.old }
        ensures course { RunLeaves (run_of (used self.table) self.start reports.now) log.old result.refusal result.slots result.next log.new }
        ensures lost { result.refusal ≡ None → result.lost ≡ lost_by (used self.table) self.start reports.now }
        ensures kept { Kept (used self.table) self.cycle result.next kept.old kept.new }
    {
        let Record { clock, jobs } = self.start;
        buffer::build(self.table, self.cycle, clock, jobs, kept);
        let waiting = awaited::waiting_set(jobs, self.table.n);
        let opens = opening::next_opening(self.table, self.cycle, clock);
        run_stretches(
            clock, jobs, waiting, opens, self.table, self.cycle, reports, log, kept,
        )
    }

    // The run: 8 where there is no room.
    pub(crate) fn run(self, reports: &[u8], log: &mut [u8], buffer: &mut [u8]) -> Ran
        ensures answer { result ≡ ran_by self.table self.start reports.now log.old buffer.old }
        ensures bytes { log.new ≡ log_after self.table self.start reports.now log.old buffer.old }
        ensures kept { buffer.new ≡ buffer_after self.table self.start reports.now log.old buffer.old }
    {
        if lacks_room(log.len(), reports.len(), buffer.len(), self.cycle) {
            return Ran {
                refusal: Some(Refusal::Room),
                slots: 0,
                next: self.start,
            };
        }
        let course = self.course(reports, log, buffer);
        Ran {
            refusal: course.refusal,
            slots: course.slots,
            next: course.next,
        }
    }

    // Lost units: the run's own loop, with no log and a buffer of its own.
    pub(crate) fn lost(self, reports: &[u8]) -> Result<u64, Refusal>
        ensures { result ≡ lost_from self.table self.start reports.now }
    {
        let mut log = [0u8; 0];
        let mut buffer = [0u8; 4096];
        let course = self.course(reports, &mut log, &mut buffer);
        lost_with(course.refusal, course.lost)
    }
}
