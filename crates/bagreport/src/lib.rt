// The bag report: how each bag of an order was dosed by one row, and each row's share of primaries done, over reports from a fresh start.
#![tactic(auto)]

ghost use Rattle.std.specs.Prelude.{Some, None, ◌≡◌, ◌++◌, ◌+◌, ◌-◌, ◌/◌, ◌^◌, ◌≤◌, ◌<◌, length, drop, replicate};
ghost use Rattle.table.specs.Rows.{used};
ghost use Rattle.reserve.specs.Check.{table_refusal};
ghost use Rattle.slots.specs.Records.{fresh_record};
ghost use Rattle.slots.specs.Reports.{run_of};
ghost use Rattle.slots.specs.History.{reported};
ghost use Rattle.share.specs.Share.{share_of};
ghost use Rattle.dosing.specs.Bags.{bag_marks};
ghost use Rattle.bagreport.specs.Answers.{desk_refusal, works_of, sixteen_shares, no_share, refused_with, report_of, marks_after};
ghost use Rattle.bagreport.specs.Turns.{Counted};

use due::Counts;
use refusal::Refusal;
use share::Share;
use slots::Record;
use table::Table;

mod due;
mod marks;
mod pass;
mod spans;
mod told;

// The answer: the refusal, or none, and each place's share. Beside a refusal every figure is 0.
// An array and no `Vec`, without a heap, and each place past the last row has its mark.
// No `Result`, since what it promises of the figures holds beside a refusal too (theorem `refused_shows_nothing`).
#[derive(Clone, Copy)]
pub struct BagReport {
    pub refusal: Option<Refusal>,
    pub shares: [Share; 16],
}

// Sixteen places with every figure 0.
fn no_shares() -> [Share; 16]
    ensures { result ≡ replicate 16 no_share }
{
    [Share {
        mark: 0,
        done: 0,
        of: 0,
        share: 0.0,
    }; 16]
}

// The answer beside a refusal.
fn refused(f: Refusal) -> BagReport
    ensures { result ≡ refused_with f }
{
    BagReport {
        refusal: Some(f),
        shares: no_shares(),
    }
}

// A row's share, by its counts.
fn row_share(c: Counts) -> Share
    requires { (c.fell + c.done ≤ c.all) × (c.all < 2 ^ 32) }
    ensures { result ≡ share_of c.done (c.all - c.fell) }
{
    share::divide(c.done as u32, (c.all - c.fell) as u32)
}

// Each place's share. The counts of a place past the last row are 0.
fn shares_of(t: Table, reports: &[u8], counts: [Counts; 16]) -> [Share; 16]
    requires { (table_refusal t ≡ None) × (length reports.now < 2 ^ 32) × Counted t reports.now (length reports.now) counts }
    ensures { result ≡ sixteen_shares t reports.now }
{
    counts.map(row_share)
}

// The second pass, where nothing is refused: it writes the bags' bytes.
fn written(
    start: Record,
    t: Table,
    reports: &[u8],
    row: u8,
    spans: &[u64],
    marks: &mut [u8],
    counts: [Counts; 16],
) -> BagReport
    requires { (table_refusal t ≡ None) × (start ≡ fresh_record t) × ((run_of (used t) (fresh_record t) reports.now).refusal ≡ None) × Counted t reports.now (length reports.now) counts × (desk_refusal t.n row (length reports.now) spans.now ≡ None) × (length spans.now / 2 ≤ length marks.old) }
    ensures answer { result ≡ record { refusal = None; shares = sixteen_shares t reports.now } }
    ensures bytes { marks.new ≡ bag_marks (used t) (works_of t reports.now) (reported reports.now) (row - 1) spans.now ++ drop (length spans.now / 2) marks.old }
{
    marks[..spans.len() / 2].fill(0);
    let place = (row - 1) as usize;
    let _ = pass::pass(start, t, reports, place, spans, marks);
    let shares = shares_of(t, reports, counts);
    BagReport {
        refusal: None,
        shares,
    }
}

// After the first pass, which refused nothing: 14, then 15.
fn judged(
    start: Record,
    t: Table,
    reports: &[u8],
    row: u8,
    spans: &[u64],
    marks: &mut [u8],
    counts: [Counts; 16],
) -> BagReport
    requires { (table_refusal t ≡ None) × (start ≡ fresh_record t) × ((run_of (used t) (fresh_record t) reports.now).refusal ≡ None) × Counted t reports.now (length reports.now) counts × (length spans.now / 2 ≤ length marks.old) }
    ensures answer { result ≡ report_of t reports.now row spans.now marks.old }
    ensures bytes { marks.new ≡ marks_after t reports.now row spans.now marks.old }
{
    match spans::desk_refusal(t.n, row, reports.len(), spans) {
        None => written(start, t, reports, row, spans, marks, counts),
        Some(f) => refused(f),
    }
}

// On a table that is accepted: 8, then the first pass, which marks no bag.
fn admitted(
    start: Record,
    t: Table,
    reports: &[u8],
    row: u8,
    spans: &[u64],
    marks: &mut [u8],
) -> BagReport
    requires { (table_refusal t ≡ None) × (start ≡ fresh_record t) }
    ensures answer { result ≡ report_of t reports.now row spans.now marks.old }
    ensures bytes { marks.new ≡ marks_after t reports.now row spans.now marks.old }
{
    if marks.len() < spans.len() / 2 {
        return refused(Refusal::Room);
    }
    let no_spans = [0u64; 0];
    let mut no_marks = [0u8; 0];
    match pass::pass(start, t, reports, 0, &no_spans, &mut no_marks) {
        Ok(counts) => judged(start, t, reports, row, spans, marks, counts),
        Err(f) => refused(f),
    }
}

// The bag report of a dosing row, counted from 1. The spans are start, end, start, end in slots from the start, end not included; each whole pair has its lent byte: 0 none, 1 modelled, 2 fixed, 3 mixed.
// Two passes over the reports: the first decides every refusal and counts, the second writes.
pub fn report(t: Table, reports: &[u8], row: u8, spans: &[u64], marks: &mut [u8]) -> BagReport
    ensures answer { result ≡ report_of t reports.now row spans.now marks.old }
    ensures bytes { marks.new ≡ marks_after t reports.now row spans.now marks.old }
{
    let started = slots::fresh(t);
    match started.refusal {
        None => admitted(started.start, t, reports, row, spans, marks),
        Some(f) => refused(f),
    }
}
