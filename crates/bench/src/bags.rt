// The bag report over bags of the same size, and the figures of its answer.
ghost use Rattle.std.specs.Prelude.{◌≡◌, ◌*◌, ◌≤◌, length, take};
ghost use Rattle.bagreport.specs.Answers.{report_of, marks_after};
ghost use Rattle.bench.specs.Bags.{even_spans, asked_spans, counts_number, bag_figure};

use bagreport::BagReport;
use share::Share;
use table::Table;

// Where bag j starts, and the bag before it ends.
fn edge(j: usize, size: u16) -> u64
    requires { j ≤ 1024 }
    ensures { result ≡ j * size }
{
    j as u64 * size as u64
}

// Fills in the spans of the first n bags.
fn fill_spans(spans: &mut [u64], n: usize, size: u16)
    requires { (n ≤ 1024) × (length spans.old ≡ 2048) }
    ensures { take (2 * n) spans.new ≡ even_spans size n }
{
    // By index: a proof knows no element of a slice that `chunks_exact_mut` has lent out (tried).
    for j in 0..n {
        spans[2 * j] = edge(j, size);
        spans[2 * j + 1] = edge(j + 1, size);
    }
}

// The report on as many bags as there are lent bytes for.
#[tactic(auto, unfolding(crate::specs::Bags::asked_spans))]
pub(crate) fn report_on(t: Table, reports: &[u8], row: u8, size: u16, marks: &mut [u8]) -> BagReport
    ensures answer { result ≡ report_of t reports.now row (asked_spans size marks.old) marks.old }
    ensures bytes { marks.new ≡ marks_after t reports.now row (asked_spans size marks.old) marks.old }
{
    let mut spans = [0u64; 2048];
    let n = marks.len().min(1024);
    fill_spans(&mut spans, n, size);
    bagreport::report(t, reports, row, &spans[..2 * n], marks)
}

// A place's two counts as one number.
#[tactic(auto, unfolding(crate::specs::Bags::counts_number))]
fn counts_number(s: Share) -> u64
    ensures { result ≡ counts_number s }
{
    s.done as u64 * 4294967296 + s.of as u64
}

// One figure of a report's answer: place i's counts for an i below 16, the refusal's number for any other.
pub(crate) fn figure(got: BagReport, i: usize) -> u64
    ensures { result ≡ bag_figure got i }
{
    if i < 16 {
        counts_number(got.shares[i])
    } else {
        refusal::number(got.refusal) as u64
    }
}
