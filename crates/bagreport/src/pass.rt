// One pass over the reports, chunk by chunk: what is told of each slot is counted, and the bags are marked.
ghost use Rattle.std.specs.Prelude.{None, IfOk, ◌≡◌, ◌+◌, ◌≤◌, ◌<◌, length};
ghost use Rattle.std.specs.Result.{result_err};
ghost use Rattle.table.specs.Rows.{used};
ghost use Rattle.reserve.specs.Check.{table_refusal};
ghost use Rattle.slots.specs.Records.{fresh_record};
ghost use Rattle.slots.specs.Reports.{run_of};
ghost use Rattle.bagreport.specs.Turns.{Logged, Counted, Ordered, Bagged, Beyond, RunTo, TaleAt, no_tale};

use crate::due::Counts;
use crate::told::{NO_OPEN, Open};
use crate::{due, marks, told};
use refusal::Refusal;
use slots::{Ran, Record};
use table::Table;

// How many reports are run at once.
const CHUNK: usize = 262144;

// What has been told so far: each row's open job, its counts, and the bag to look at next.
#[derive(Clone, Copy)]
pub(crate) struct Tale {
    pub opens: [Open; 16],
    pub counts: [Counts; 16],
    pub bag: usize,
}

// Nothing has been told.
fn nothing_told() -> Tale
    ensures { result ≡ no_tale }
{
    Tale {
        opens: [NO_OPEN; 16],
        counts: [Counts {
            all: 0,
            done: 0,
            fell: 0,
        }; 16],
        bag: 0,
    }
}

// Tells of n slots more, of which the log has the bytes. A stretch of them ends where a window does: there jobs are counted, and the next ones open. One function, since arrays that are
// handed over at each stretch cost more than its slots.
fn tell(
    before: Tale,
    t: Table,
    reports: &[u8],
    log: &[u8],
    base: usize,
    n: usize,
    place: usize,
    spans: &[u64],
    marks: &mut [u8],
) -> Tale
    requires { (table_refusal t ≡ None) × TaleAt t reports.now spans.now base before × Logged t reports.now base n log.now × (place < length (used t)) × Ordered spans.now × Bagged t reports.now place spans.now base marks.old }
    ensures tale { TaleAt t reports.now spans.now (base + n) result }
    ensures bags { Bagged t reports.now place spans.now (base + n) marks.new }
    ensures past { Beyond spans.now marks.old marks.new }
{
    let rows = t.rows();
    let mut opens = before.opens;
    let mut counts = before.counts;
    let mut bag = before.bag;
    let mut i: usize = 0;
    // No range steps by stretches, which are of unequal lengths.
    while i < n {
        let gap = due::to_nearest_end(rows, base + i);
        let stop = i + (n - i).min(gap as usize);
        for j in i..stop {
            let ran = log[j];
            let at = told::place_of(ran);
            opens[at] = told::told(t.rows[at], opens[at], ran, reports[base + j]);
        }
        let s = base + stop;
        bag = marks::mark_job(rows[place], s, opens[place], spans, marks, bag);
        for (k, row) in rows.iter().enumerate() {
            counts[k] = due::counts_at(*row, s, opens[k], counts[k]);
            opens[k] = due::open_at(*row, s, opens[k]);
        }
        i = stop;
    }
    Tale { opens, counts, bag }
}

// Runs n reports more, from the record that those before gave, with the log's bytes from its start on.
fn run_chunk(
    q: Record,
    t: Table,
    reports: &[u8],
    at: usize,
    n: usize,
    log: &mut [u8],
    buffer: &mut [u8],
) -> Ran
    requires { RunTo t reports.now at q × (at + n ≤ length reports.now) × (n ≤ length log.old) × (length buffer.old ≡ 4096) }
    ensures stopped { (result.refusal ≡ None → ⊥) → result.refusal ≡ (run_of (used t) (fresh_record t) reports.now).refusal }
    ensures next { result.refusal ≡ None → RunTo t reports.now (at + n) result.next }
    ensures told { result.refusal ≡ None → Logged t reports.now at n log.new }
    ensures sizes { (length log.new ≡ length log.old) × (length buffer.new ≡ length buffer.old) }
{
    q.run(t, &reports[at..at + n], log, buffer)
}

// Runs all the reports from the fresh record. A job of the dosing row whose deadline comes is put to the bag that looks at it.
pub(crate) fn pass(
    start: Record,
    t: Table,
    reports: &[u8],
    place: usize,
    spans: &[u64],
    marks: &mut [u8],
) -> Result<[Counts; 16], Refusal>
    requires { (table_refusal t ≡ None) × (start ≡ fresh_record t) × (place < length (used t)) × Ordered spans.now × Bagged t reports.now place spans.now 0 marks.old }
    ensures refusal { result_err result ≡ (run_of (used t) (fresh_record t) reports.now).refusal }
    ensures counts { IfOk result (λ counts. Counted t reports.now (length reports.now) counts) }
    ensures bags { result_err result ≡ None → Bagged t reports.now place spans.now (length reports.now) marks.new }
    ensures past { Beyond spans.now marks.old marks.new }
{
    let mut log = [0u8; CHUNK];
    let mut buffer = [0u8; 4096];
    let mut q = start;
    let mut tale = nothing_told();
    for at in (0..reports.len()).step_by(CHUNK) {
        let n = (reports.len() - at).min(CHUNK);
        let ran = run_chunk(q, t, reports, at, n, &mut log, &mut buffer);
        if let Some(f) = ran.refusal {
            return Err(f);
        }
        tale = tell(tale, t, reports, &log, at, n, place, spans, marks);
        q = ran.next;
    }
    Ok(tale.counts)
}
