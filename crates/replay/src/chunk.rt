// One chunk of the reports, from the record that the chunks before it gave.
ghost use Rattle.std.specs.Prelude.{None, ◌≡◌, ◌+◌, ◌^◌, ◌≤◌, ◌<◌, length};
ghost use Rattle.reserve.specs.Check.{table_refusal};
ghost use Rattle.replay.specs.Chunks.{moved_on, onward_of, log_onward};
ghost use Rattle.replay.specs.Lines.{chunk_lines};
ghost use Rattle.replay.specs.Turns.{Laid, Replayed};

use crate::{Progress, lines};
use slots::Ran;
use table::Table;

// What a chunk comes to: the progress after it, and how many bytes its slots' lines take.
#[derive(Clone, Copy)]
pub(crate) struct Chunk {
    pub(crate) after: Progress,
    pub(crate) used: usize,
}

// Moved on by what the chunk's run and its lost units answered.
fn moved(p: Progress, ran: Ran, units: u64) -> Progress
    requires { (p.slots + ran.slots < 2 ^ 64) × (p.lost + units < 2 ^ 64) }
    ensures { result ≡ moved_on p ran units }
{
    let slots = p.slots + ran.slots as u64;
    let next = ran.next;
    match ran.refusal {
        None => Progress {
            refusal: None,
            slots,
            lost: p.lost + units,
            next,
        },
        Some(f) => Progress {
            refusal: Some(f),
            slots,
            lost: 0,
            next,
        },
    }
}

// Runs the chunk, with a log byte for each slot that is accepted and a buffer of its own, which has room for any cycle and is dropped after it. Once a report has
// been refused nothing moves.
fn onward(p: Progress, t: Table, reports: &[u8], log: &mut [u8]) -> Progress
    requires { (table_refusal t ≡ None) × Replayed t (2 ^ 60) p × (length reports.now ≤ 1024) × (length reports.now ≤ length log.old) }
    ensures answer { result ≡ onward_of t p reports.now }
    ensures bytes { log.new ≡ log_onward t p reports.now log.old }
{
    match p.refusal {
        None => {
            let mut buffer = [0u8; 4096];
            let ran = p.next.run(t, reports, log, &mut buffer);
            let lost = p.next.lost(t, reports).unwrap_or(0);
            moved(p, ran, lost)
        }
        Some(_) => p,
    }
}

// A chunk's lines, all of which fit, and the progress after it.
pub(crate) fn put_chunk(p: Progress, t: Table, reports: &[u8], out: &mut [u8]) -> Chunk
    requires { (table_refusal t ≡ None) × Replayed t (2 ^ 60) p × (length reports.now ≤ 1024) × (length out.old ≡ 65536) }
    ensures progress { result.after ≡ onward_of t p reports.now }
    ensures text { Laid out.old 0 (chunk_lines t p reports.now) out.new result.used }
{
    let mut log = [0u8; 1024];
    let after = onward(p, t, reports, &mut log);
    let count = (after.slots - p.slots) as usize;
    let used = lines::put_lines(out, p.slots, &log[..count]);
    Chunk { after, used }
}
