// One slot of a run, where the slot's holder and the waiting set are known: the body that every list of reports is run by. It works on numbers and one entry,
// and writes no log.
ghost use Rattle.std.specs.Prelude.{◌≡◌, true, cond, not, ◌&&◌, ◌-◌, ◌^◌, ◌≤◌, ◌<◌, eqb};
ghost use Rattle.refusal.specs.Order.{verdict};
ghost use Rattle.slots.specs.OneSlot.{is_waiting, reserved, unreserved, byte_of};
ghost use Rattle.slots.specs.Reports.{report_refusal};
ghost use Rattle.slots.specs.History.{work_of};
ghost use Rattle.slots.specs.Turns.{lowest_in, entry_of, moved_by, turn_of, loss_by, moved_of};

use crate::{Job, State, awaited, entry};
use refusal::Refusal;
use table::Row;

// What a slot runs: the log's byte, and the place of the entry that the unit moves; 0 where the slot is idle.
#[derive(Clone, Copy)]
pub(crate) struct Turn {
    pub ran: u8,
    pub at: u8,
}

// What the unit leaves: its entry, the waiting set, the primary units that are lost by it, and the row, counted from 1, whose job is done by it; 0 for none.
#[derive(Clone, Copy)]
pub(crate) struct Moved {
    pub job: Job,
    pub waiting: u16,
    pub lost: u16,
    pub finished: u8,
}

// The log's byte for a slot with a holder, and the lowest waiting row where it has none.
pub(crate) fn byte_of(holder: u8, row: u8) -> u8
    requires { holder ≤ 16 }
    ensures { result ≡ byte_of (reserved holder (unreserved row)) }
{
    if holder == 0 { row } else { 16 + holder }
}

// 11 where the byte is no primary unit's.
fn stray(ran: u8) -> Result<(), Refusal>
    ensures { result ≡ verdict (report_refusal (work_of ran) 1) }
{
    if 0 < ran && ran <= 16 {
        Ok(())
    } else {
        Err(Refusal::Stray)
    }
}

// The report is read: 0 going on, 1 done, 2 failed; over 2 it is refused, and 1 and 2 are for a primary unit alone.
pub(crate) fn hear(ran: u8, report: u8) -> Result<(), Refusal>
    ensures { result ≡ verdict (report_refusal (work_of ran) report) }
{
    match report {
        0 => Ok(()),
        1 | 2 => stray(ran),
        3..=255 => Err(Refusal::Report),
    }
}

// The place of the entry that a byte's unit moves.
pub(crate) fn entry_of(ran: u8) -> u8
    ensures { result ≡ entry_of (work_of ran) }
{
    if ran == 0 {
        0
    } else if ran <= 16 {
        ran - 1
    } else {
        ran - 17
    }
}

// What runs, by the slot's holder and the waiting set, or the refusal of its report.
pub(crate) fn decide(holder: u8, waiting: u16, report: u8) -> Result<Turn, Refusal>
    requires { (holder ≤ 16) × (lowest_in waiting ≤ 16) }
    ensures { result ≡ turn_of (reserved holder (unreserved (lowest_in waiting))) report }
{
    let row = awaited::lowest(waiting);
    let ran = byte_of(holder, row);
    hear(ran, report)?;
    let at = entry_of(ran);
    Ok(Turn { ran, at })
}

// The entry after the byte's unit and its report.
pub(crate) fn moved_job(r: Row, j: Job, ran: u8, report: u8) -> Job
    requires { j.run < 65535 }
    ensures { result ≡ moved_by (work_of ran) report r j }
{
    if ran == 0 {
        j
    } else if ran <= 16 {
        entry::tried(r, j, report)
    } else {
        entry::fallen_back(j)
    }
}

// The waiting set after the unit, at the place whose job was in one state and is in the other.
fn still_waiting(set: u16, at: u8, was: State, is: State) -> u16
    requires { (at < 16) × (is_waiting was ≡ true → 2 ^ at ≤ set) }
    ensures { result ≡ cond (is_waiting was && not (is_waiting is)) (set - 2 ^ at) set }
{
    if was == State::Waiting && is != State::Waiting {
        set - (1 << at)
    } else {
        set
    }
}

// The primary units that the byte's unit loses: those of a waiting job whose alternate begins.
fn lost_by(j: Job, ran: u8) -> u16
    ensures { result ≡ loss_by (work_of ran) j }
{
    if 16 < ran && j.state == State::Waiting {
        j.run
    } else {
        0
    }
}

// The row, counted from 1, whose job the report says is done; 0 where it says something else.
fn finished_by(ran: u8, report: u8) -> u8
    ensures { result ≡ cond (eqb report 1) ran 0 }
{
    if report == 1 { ran } else { 0 }
}

// The unit of the byte's row, at its entry's place, and what it leaves.
pub(crate) fn act(r: Row, j: Job, set: u16, at: u8, ran: u8, report: u8) -> Moved
    requires { (j.run < 65535) × (at < 16) × (is_waiting j.state ≡ true → 2 ^ at ≤ set) }
    ensures { result ≡ moved_of (work_of ran) report r j set at }
{
    let job = moved_job(r, j, ran, report);
    Moved {
        job,
        waiting: still_waiting(set, at, j.state, job.state),
        lost: lost_by(j, ran),
        finished: finished_by(ran, report),
    }
}

// How far the stretch goes: a done ends it before its time.
pub(crate) fn cut(finished: u8, i: usize, stop: usize) -> usize
    ensures { result ≡ cond (eqb finished 0) stop i }
{
    if finished == 0 { stop } else { i }
}

// Where the stretch that begins at the i-th report ends: after `slots` slots, or with the list.
pub(crate) fn stretch(i: usize, reports: usize, slots: u16) -> usize
    requires { (i < reports) × (0 < slots) }
    ensures { (i < result) × (result ≤ reports) × (result - i ≤ slots) }
{
    i + (reports - i).min(slots as usize)
}
