// Reads a table file and, after it, the reports of a run from a fresh start, one byte for each slot. Prints a line for each accepted slot, how the list
// ended, and the record after the accepted slots; or the one line of a refused table.
#![tactic(auto)]

ghost use Rattle.std.specs.Prelude.{None, ◌≡◌, ◌+◌, ◌^◌, ◌≤◌, ◌<◌, length, take};
ghost use Rattle.io.specs.Counts.{IsPrefixLen};
ghost use Rattle.reserve.specs.Check.{table_refusal};
ghost use Rattle.tablefile.specs.Layout.{length_field};
ghost use Rattle.replay.specs.Chunks.{start_of};
ghost use Rattle.replay.specs.Turns.{Replayed};

use refusal::Refusal;
use slots::Record;
use table::Table;

mod chunk;
mod ending;
mod lines;
mod text;

// The descriptors that a process is started with.
const STDIN_FILENO: i32 = 0;

const STDOUT_FILENO: i32 = 1;

// What the reports so far have come to: the refusal that stopped them, the slots accepted, the lost units, 0 beside a refusal, and the record after those slots.
// No `Result`, since slots and record are told beside a refusal too (`slots::Ran`).
#[derive(Clone, Copy)]
struct Progress {
    refusal: Option<Refusal>,
    slots: u64,
    lost: u64,
    next: Record,
}

// Reads into a part of a buffer, and answers how many bytes there were. The bytes before it stay.
fn read_part(buffer: &mut [u8], from: usize, end: usize) -> usize
    requires { (from ≤ end) × (end ≤ length buffer.old) }
    ensures count { from + result ≤ end }
    ensures before { take from buffer.new ≡ take from buffer.old }
{
    io::read_full(STDIN_FILENO, &mut buffer[from..end])
}

// What the length field of a table file says.
fn length_field(file: &[u8]) -> usize
    requires { 2 ≤ length file.now }
    ensures { (result ≡ length_field file.now) × (result < 65536) }
{
    u16::from_be_bytes([file[0], file[1]]) as usize
}

// The table file: its length field, and as many bytes as that says, or as there are. What comes after them is left to the reports.
fn read_file(file: &mut [u8]) -> usize
    requires { length file.old ≡ 65537 }
    ensures count { IsPrefixLen result file.new }
    ensures file { result ≤ 2 + length_field file.new }
{
    let head = read_part(file, 0, 2);
    if head < 2 {
        return head;
    }
    let end = 2 + length_field(file);
    2 + read_part(file, 2, end)
}

// The next chunk of reports. A refusal ends them as the end of the input does.
fn read_chunk(stop: Option<Refusal>, reports: &mut [u8]) -> usize
    ensures { IsPrefixLen result reports.new }
{
    match stop {
        None => io::read_full(STDIN_FILENO, reports),
        Some(_) => 0,
    }
}

// Before the first report.
fn start(t: Table) -> Progress
    ensures { result ≡ start_of t }
{
    Progress {
        refusal: None,
        slots: 0,
        lost: 0,
        next: slots::fresh(t).start,
    }
}

// Runs the reports chunk by chunk and prints their lines. At most 2 ^ 40 chunks of 1,024 are read, more slots than any machine runs, so that the
// counters do not overflow.
fn replay(t: Table) -> Progress
    requires { table_refusal t ≡ None }
    ensures { Replayed t (2 ^ 50) result }
{
    let mut p = start(t);
    let mut reports = [0u8; 1024];
    let mut out = io::large_buffer();
    for _ in 0..1099511627776u64 {
        let n = read_chunk(p.refusal, &mut reports);
        if n == 0 {
            break;
        }
        let done = chunk::put_chunk(p, t, &reports[..n], &mut out);
        io::write_all(STDOUT_FILENO, &out[..done.used]);
        p = done.after;
    }
    p
}

// The lines after those of the slots.
fn print_end(t: Table, p: Progress)
    requires { (table_refusal t ≡ None) × Replayed t (2 ^ 50) p }
{
    let mut out = [0u8; 2048];
    let n = ending::put_end(&mut out, p, t.n);
    io::write_all(STDOUT_FILENO, &out[..n]);
}

// 'refused 7 row 2 slots 0'
fn print_refusal(f: Refusal) {
    let mut out = [0u8; 128];
    let n = ending::put_refused(&mut out, 0, f, 0);
    io::write_all(STDOUT_FILENO, &out[..n]);
}

fn main() {
    let mut file = [0u8; 65537];
    let n = read_file(&mut file);
    match tablefile::read(&file[..n]) {
        Ok(t) => print_end(t, replay(t)),
        Err(f) => print_refusal(f),
    }
}
