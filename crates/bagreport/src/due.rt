// Jobs whose deadline has come: each is counted once, as its window ends.
ghost use Rattle.std.specs.Prelude.{◌≡◌, cond, ℕ, ◌+◌, ◌^◌, ◌≤◌, ◌<◌, length};
ghost use Rattle.table.specs.Rows.{row_at};
ghost use Rattle.table.specs.Windows.{starts, window_end};
ghost use Rattle.bagreport.specs.Turns.{no_open, counted_by};

use crate::told::{Ended, NO_OPEN, Open};
use table::Row;

// A row's jobs whose deadline has come: all of them, those done by their primary, and those reported failed or overrun.
#[derive(Clone, Copy)]
pub(crate) struct Counts {
    pub all: usize,
    pub done: usize,
    pub fell: usize,
}

// Whether one of the row's windows starts at slot s, and so one ends before it.
pub(crate) fn starts_at(r: Row, s: usize) -> bool
    requires { 0 < r.period }
    ensures { result ≡ starts r s }
{
    s % (r.period as usize) == 0
}

// How far the end of the row's window at slot s is.
fn to_end(r: Row, s: usize) -> u16
    requires { 0 < r.period }
    ensures { (s + result ≡ window_end r s) × (0 < result) }
{
    let into = s % (r.period as usize);
    r.period - into as u16
}

// How far the nearest end of a window of these rows is.
pub(crate) fn to_nearest_end(rows: &[Row], s: usize) -> u16
    requires { (i : ℕ) → i < length rows.now → 0 < (row_at rows.now i).period }
    ensures { (0 < result) × ((i : ℕ) → i < length rows.now → s + result ≤ window_end (row_at rows.now i) s) }
{
    let mut nearest = u16::MAX;
    for row in rows {
        nearest = nearest.min(to_end(*row, s));
    }
    nearest
}

// The counts with one more job, whose primary has ended so.
fn counted(c: Counts, ended: Ended) -> Counts
    requires { (c.all + 1 < 2 ^ 64) × (c.done + 1 < 2 ^ 64) × (c.fell + 1 < 2 ^ 64) }
    ensures { result ≡ counted_by ended c }
{
    Counts {
        all: c.all + 1,
        done: c.done + usize::from(ended == Ended::Done),
        fell: c.fell + usize::from(ended == Ended::Failed),
    }
}

// The counts at slot s, which a window may end before.
pub(crate) fn counts_at(r: Row, s: usize, o: Open, c: Counts) -> Counts
    requires { (0 < r.period) × (c.all + 1 < 2 ^ 64) × (c.done + 1 < 2 ^ 64) × (c.fell + 1 < 2 ^ 64) }
    ensures { result ≡ cond (starts r s) (counted_by o.ended c) c }
{
    if starts_at(r, s) {
        counted(c, o.ended)
    } else {
        c
    }
}

// The open job at slot s, at which a new window may start.
pub(crate) fn open_at(r: Row, s: usize, o: Open) -> Open
    requires { 0 < r.period }
    ensures { result ≡ cond (starts r s) no_open o }
{
    if starts_at(r, s) { NO_OPEN } else { o }
}
