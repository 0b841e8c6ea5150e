// What stands in the body of a case, by its place. Bytes that a body doesn't have count as 0.
ghost use Rattle.std.specs.Prelude.{◌≤◌, ◌<◌, length};

use slots::{Job, Record, State};
use std::array;
use table::{Row, Table};

// The byte at a place.
pub(crate) fn byte(s: &[u8], at: usize) -> u8 {
    s.get(at).copied().unwrap_or(0)
}

// So many bytes from a place on. No place that is asked for is past the thousandth.
fn bytes<const N: usize>(s: &[u8], at: usize) -> [u8; N]
    requires { at < 1000 }
{
    array::from_fn(|i| byte(s, at + i))
}

// Two bytes, the high one first.
pub(crate) fn word(s: &[u8], at: usize) -> u16
    requires { at < 1000 }
{
    u16::from_be_bytes(bytes(s, at))
}

// Eight bytes, the high one first.
fn long(s: &[u8], at: usize) -> u64
    requires { at < 1000 }
{
    u64::from_be_bytes(bytes(s, at))
}

// How many places are lent, by the number at a place.
pub(crate) fn room(s: &[u8], at: usize) -> usize
    requires { at < 1000 }
    ensures { result ≤ 16384 }
{
    (word(s, at) as usize).min(16384)
}

// Where a list starts that stands from a place on: there, or at the body's end.
pub(crate) fn start(s: &[u8], at: usize) -> usize
    ensures { result ≤ length s.now }
{
    at.min(s.len())
}

// A row: period, p and a.
fn row_at(s: &[u8], at: usize) -> Row
    requires { at < 900 }
{
    Row {
        period: word(s, at),
        primary: word(s, at + 2),
        alternate: word(s, at + 4),
    }
}

// The table, which stands at place 4.
pub(crate) fn table_of(s: &[u8]) -> Table {
    let rows = array::from_fn(|i| row_at(s, 5 + 6 * i));
    Table {
        n: byte(s, 4),
        rows,
    }
}

// A job: its state, the units run and the units left.
fn job_at(s: &[u8], at: usize) -> Job
    requires { at < 900 }
{
    let state = match byte(s, at) {
        0 => State::Waiting,
        1 => State::Failed,
        2..=255 => State::Done,
    };
    Job {
        state,
        run: word(s, at + 1),
        left: word(s, at + 3),
    }
}

// The record, which stands at place 101.
pub(crate) fn record_of(s: &[u8]) -> Record {
    let jobs = array::from_fn(|i| job_at(s, 103 + 5 * i));
    Record {
        clock: word(s, 101),
        jobs,
    }
}

// The units left of a record's entries.
pub(crate) fn lefts_of(q: Record) -> [u16; 16] {
    q.jobs.map(|j| j.left)
}

// How many numbers the list of spans has, by the byte at 102.
pub(crate) fn numbers(s: &[u8]) -> usize
    ensures { result ≤ 64 }
{
    (byte(s, 102) as usize).min(64)
}

// The first n numbers of the list of spans, which stands at place 103.
pub(crate) fn spans_of(s: &[u8], n: usize) -> [u64; 64]
    requires { n ≤ 64 }
{
    let mut spans = [0u64; 64];
    for (i, span) in spans[..n].iter_mut().enumerate() {
        *span = long(s, 103 + 8 * i);
    }
    spans
}

// Lent bytes before the call: byte i holds (fill + i) mod 256.
pub(crate) fn fill_bytes(out: &mut [u8], fill: u8) {
    for (i, byte) in out.iter_mut().enumerate() {
        *byte = fill.wrapping_add((i % 256) as u8);
    }
}

// Lent places of two bytes before the call: place i holds (257 fill + i) mod 65,536.
// Kept beside the other fill, whose rule differs: one for both would take the rule as a closure.
pub(crate) fn fill_places(out: &mut [u16], fill: u8) {
    for (i, place) in out.iter_mut().enumerate() {
        *place = (257 * fill as u16).wrapping_add((i % 65536) as u16);
    }
}
