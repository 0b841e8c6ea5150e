// The reservations of a record, kept in a lent buffer: a byte for each slot of the cycle, 0 for free or the row, and 0 behind the clock.
ghost use Rattle.std.specs.Prelude.{◌≡◌, cond, ◌||◌, ◌-◌, ◌≤◌, ◌<◌, leb, eqb, length};
ghost use Rattle.table.specs.Rows.{used, cycle_of};
ghost use Rattle.table.specs.Windows.{window_end};
ghost use Rattle.reserve.specs.Turns.{Ready};
ghost use Rattle.slots.specs.OneSlot.{holder_at};
ghost use Rattle.slots.specs.Buffer.{Kept, Freed, Refilled, Written, byte_after, row_after, above_at, Holdable, Rowed};

use crate::{Job, opening};
use table::{Row, Table};

// A job takes a slot that nobody holds, and one that is its row's already.
fn open_to(b: u8, row: u8) -> bool
    ensures { result ≡ (eqb b 0 || eqb b row) }
{
    b == 0 || b == row
}

// Who holds the slot once the row has come to it.
fn taker(b: u8, row: u8) -> u8
    ensures { result ≡ cond (eqb b 0 || eqb b row) row b }
{
    if open_to(b, row) { row } else { b }
}

// What is left of the row's claim then.
fn rest(b: u8, row: u8, units: u16) -> u16
    requires { 0 < units }
    ensures { result ≡ cond (eqb b 0 || eqb b row) (units - 1) units }
{
    if open_to(b, row) { units - 1 } else { units }
}

// A job of the row reserves the latest slots of its window, which is from `first` up to, not including, `end`.
fn hold(row: u8, first: u16, end: u16, units: u16, out: &mut [u8])
    requires { (first ≤ end) × (end ≤ length out.old) }
    ensures { Written first end (byte_after row end units out.old) out.old out.new }
{
    let mut left = units;
    for s in (first..end).rev() {
        if left == 0 {
            return;
        }
        let b = out[s as usize];
        out[s as usize] = taker(b, row);
        left = rest(b, row, left);
    }
}

// Each job of the row reserves, from the clock's window to the one that slot `until` - 1 is in; `units` are left of the current job.
fn hold_row(r: Row, row: u8, clock: u16, units: u16, until: u16, out: &mut [u8])
    requires { Holdable r clock until (length out.old) }
    ensures { Written clock (window_end r (until - 1)) (row_after r row clock units out.old) out.old out.new }
{
    let end = opening::window_end(r, clock);
    hold(row, clock, end, units, out);
    for first in (end..until).step_by(r.period as usize) {
        hold(row, first, first + r.period, r.alternate, out);
    }
}

// Rows in order, from the place `from` on.
fn hold_rows(t: Table, from: u8, clock: u16, jobs: [Job; 16], until: u16, out: &mut [u8])
    requires { Ready t (cycle_of (used t)) × (from ≤ t.n) × Rowed (used t) (record { clock = clock; jobs = jobs }) until from out.old }
    ensures { Written clock until (holder_at (used t) (record { clock = clock; jobs = jobs })) out.old out.new }
{
    for i in from..t.n {
        let at = i as usize;
        hold_row(t.rows[at], i + 1, clock, jobs[at].left, until, out);
    }
}

// Builds the reservations of the record with this clock and these entries, whatever the buffer held.
pub(crate) fn build(t: Table, cycle: u16, clock: u16, jobs: [Job; 16], out: &mut [u8])
    requires { Ready t cycle × (clock < cycle) × (cycle ≤ length out.old) }
    ensures { Kept (used t) cycle (record { clock = clock; jobs = jobs }) out.old out.new }
{
    out[..cycle as usize].fill(0);
    hold_rows(t, 0, clock, jobs, cycle, out);
}

// The byte of a row above the place, 0 of any other.
fn above(b: u8, place: u8) -> u8
    ensures { result ≡ cond (leb b place) b 0 }
{
    if b <= place { b } else { 0 }
}

// The row at the place and those below it give up the slots from the clock up to, not including, `end`.
fn give_up(place: u8, clock: u16, end: u16, out: &mut [u8])
    requires { (clock ≤ end) × (end ≤ length out.old) }
    ensures { Written clock end (above_at place out.old) out.old out.new }
{
    for b in &mut out[clock as usize..end as usize] {
        *b = above(*b, place);
    }
}

// The refill after a done of the row at the place, whose window ends at `end`: the rows below it reserve anew before that end. Slots at or after it keep their bytes.
pub(crate) fn refill(
    t: Table,
    cycle: u16,
    clock: u16,
    jobs: [Job; 16],
    place: u8,
    end: u16,
    out: &mut [u8],
)
    requires { Ready t cycle × (clock < end) × (end ≤ cycle) × (cycle ≤ length out.old) × Freed (used t) cycle (record { clock = clock; jobs = jobs }) place end out.old }
    ensures { Refilled (used t) cycle (record { clock = clock; jobs = jobs }) end out.old out.new }
{
    give_up(place, clock, end, out);
    hold_rows(t, place + 1, clock, jobs, end, out);
}
