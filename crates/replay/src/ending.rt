// The lines after those of the slots: how the list ended, and the record after the accepted slots.
ghost use Rattle.std.specs.Prelude.{◌+◌, ◌*◌, ◌≤◌, length};
ghost use Rattle.replay.specs.Lines.{ran_line, cause_text, refused_line, clock_line, state_text, units_text, row_line, row_lines, end_line, end_lines};
ghost use Rattle.replay.specs.Turns.{Laid};

use crate::{Progress, text};
use refusal::Refusal;
use slots::{Job, State};

// 'ran 10 lost 1'
fn put_ran(out: &mut [u8], at: usize, slots: u64, lost: u64) -> usize
    requires { at + 94 ≤ length out.old }
    ensures text { Laid out.old at (ran_line slots lost) out.new result }
    ensures short { result ≤ at + 94 }
{
    let ran = text::put_named(out, at, b"ran ", slots);
    let units = text::put_named(out, ran, b" lost ", lost);
    text::put_bytes(out, units, b"\n")
}

// 'refused 11 row 0'
fn put_cause(out: &mut [u8], at: usize, f: Refusal) -> usize
    requires { at + 62 ≤ length out.old }
    ensures text { Laid out.old at (cause_text f) out.new result }
    ensures short { result ≤ at + 62 }
{
    let told = text::put_named(out, at, b"refused ", f.number() as u64);
    text::put_named(out, told, b" row ", f.named_row() as u64)
}

// 'refused 11 row 0 slots 3'
pub(crate) fn put_refused(out: &mut [u8], at: usize, f: Refusal, slots: u64) -> usize
    requires { at + 94 ≤ length out.old }
    ensures text { Laid out.old at (refused_line f slots) out.new result }
    ensures short { result ≤ at + 94 }
{
    let told = put_cause(out, at, f);
    let counted = text::put_named(out, told, b" slots ", slots);
    text::put_bytes(out, counted, b"\n")
}

// How the list ended.
fn put_outcome(out: &mut [u8], at: usize, p: Progress) -> usize
    requires { at + 94 ≤ length out.old }
    ensures text { Laid out.old at (end_line p) out.new result }
    ensures short { result ≤ at + 94 }
{
    match p.refusal {
        None => put_ran(out, at, p.slots, p.lost),
        Some(f) => put_refused(out, at, f, p.slots),
    }
}

// 'clock 10'
fn put_clock(out: &mut [u8], at: usize, clock: u16) -> usize
    requires { at + 32 ≤ length out.old }
    ensures text { Laid out.old at (clock_line clock) out.new result }
    ensures short { result ≤ at + 32 }
{
    let told = text::put_named(out, at, b"clock ", clock as u64);
    text::put_bytes(out, told, b"\n")
}

fn put_state(out: &mut [u8], at: usize, state: State) -> usize
    requires { at + 9 ≤ length out.old }
    ensures text { Laid out.old at (state_text state) out.new result }
    ensures short { result ≤ at + 9 }
{
    match state {
        State::Waiting => text::put_bytes(out, at, b" waiting "),
        State::Failed => text::put_bytes(out, at, b" failed "),
        State::Done => text::put_bytes(out, at, b" done "),
    }
}

// The primary units run and the alternate units left, and the line's end.
fn put_units(out: &mut [u8], at: usize, run: u16, left: u16) -> usize
    requires { at + 52 ≤ length out.old }
    ensures text { Laid out.old at (units_text run left) out.new result }
    ensures short { result ≤ at + 52 }
{
    let ran = text::put_number(out, at, run as u64);
    let both = text::put_named(out, ran, b" ", left as u64);
    text::put_bytes(out, both, b"\n")
}

// '2 failed 1 0': a line takes at most 81 bytes.
fn put_row(out: &mut [u8], at: usize, row: u8, j: Job) -> usize
    requires { at + 81 ≤ length out.old }
    ensures text { Laid out.old at (row_line row j) out.new result }
    ensures short { result ≤ at + 81 }
{
    let numbered = text::put_number(out, at, row as u64);
    let stated = put_state(out, numbered, j.state);
    put_units(out, stated, j.run, j.left)
}

// A line for each row.
fn put_rows(out: &mut [u8], from: usize, jobs: &[Job]) -> usize
    requires { (length jobs.now ≤ 16) × (from + 81 * length jobs.now ≤ length out.old) }
    ensures { Laid out.old from (row_lines jobs.now (length jobs.now)) out.new result }
{
    let mut at = from;
    for (i, job) in jobs.iter().enumerate() {
        at = put_row(out, at, i as u8 + 1, *job);
    }
    at
}

// All of them, for a table of n rows.
pub(crate) fn put_end(out: &mut [u8], p: Progress, n: u8) -> usize
    requires { (n ≤ 16) × (126 + 81 * n ≤ length out.old) }
    ensures { Laid out.old 0 (end_lines n p) out.new result }
{
    let ended = put_outcome(out, 0, p);
    let clock = put_clock(out, ended, p.next.clock);
    put_rows(out, clock, &p.next.jobs[..n as usize])
}
