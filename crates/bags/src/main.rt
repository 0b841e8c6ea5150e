// Reads one order from standard input: the dosing row, the bags' spans, a table file, and the reports of a run from a fresh start. Prints how each bag was dosed, how many there are
// of each kind, and each row's share; or the one line of a refusal.
#![tactic(auto)]

ghost use Rattle.std.specs.Prelude.{None, ◌≡◌, ◌≤◌, length};
ghost use Rattle.reserve.specs.Check.{table_refusal};

use bagreport::BagReport;
use refusal::Refusal;
use share::Share;
use table::Table;

mod form;
mod lines;

// The descriptors that a process is started with.
const STDIN_FILENO: i32 = 0;

pub(crate) const STDOUT_FILENO: i32 = 1;

// 'refused 15 row 0'
fn print_refusal(f: Refusal) {
    lines::print_named(b"refused ", f.number() as u64);
    lines::print_named(b" row ", f.named_row() as u64);
    io::write_all(STDOUT_FILENO, b"\n");
}

// A line for each bag, and the line that counts them.
fn print_bags(spans: &[u64], marks: &[u8]) {
    for (i, (span, mark)) in spans.chunks_exact(2).zip(marks).enumerate() {
        lines::print_bag(i + 1, span[0], span[1], *mark);
    }
    lines::print_kinds(marks);
}

// A line for each row.
fn print_shares(shares: &[Share])
    requires { length shares.now ≤ 16 }
{
    for (i, share) in shares.iter().enumerate() {
        lines::print_share(i as u8 + 1, *share);
    }
}

// The report's lines, for a table of n rows.
fn print_report(n: u8, got: BagReport, spans: &[u64], marks: &[u8])
    requires { n ≤ 16 }
{
    match got.refusal {
        None => {
            print_bags(spans, marks);
            print_shares(&got.shares[..n as usize]);
        }
        Some(f) => print_refusal(f),
    }
}

// An order on a table that is accepted.
fn report_on(t: Table, reports: &[u8], row: u8, spans: &[u64])
    requires { (table_refusal t ≡ None) × (length spans.now ≤ 2048) }
{
    let mut marks = [0u8; 1024];
    let marks = &mut marks[..spans.len() / 2];
    let got = bagreport::report(t, reports, row, spans, marks);
    print_report(t.n, got, spans, marks);
}

// The answer to an order.
fn answer(order: &[u8]) {
    let n = form::numbers(order);
    let mut spans = [0u64; 2048];
    form::fill_spans(order, &mut spans[..n]);
    let head = 3 + 8 * n;
    let size = form::word(order, head) as usize;
    let from = (head + 2).min(order.len());
    let to = (head + 2 + size).min(order.len());
    match tablefile::read(&order[from..to]) {
        Ok(t) => report_on(t, &order[to..], form::byte(order, 0), &spans[..n]),
        Err(f) => print_refusal(f),
    }
}

// An order has room for 1,024 bags, any table file and 1,000,000 reports; what comes after them is not read.
// A function of its own, since the checker ran out of stack where `main` wrote this array in place.
fn order_room() -> [u8; 1081926]
    ensures { 1081926 ≡ length result }
{
    [0; 1081926]
}

fn main() {
    let mut order = order_room();
    let n = io::read_full(STDIN_FILENO, &mut order);
    answer(&order[..n]);
}
