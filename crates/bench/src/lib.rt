// What a measurement calls from Rust: a list of reports from a table's fresh start, run at once and by single slots, and the bag report on it.
#![tactic(auto)]

ghost use Rattle.std.specs.Prelude.{◌≡◌, length};
ghost use Rattle.bench.specs.Bags.{even_report, even_marks, bag_figure};
ghost use Rattle.bench.specs.Lists.{table_in, list_ran, list_log, list_buffer, single_slots, single_log};
ghost use Rattle.bench.specs.Numbers.{state_number, job_number, figure_of};

use slots::{Job, Ran, State};
use table::Table;

mod bags;

// The table of a file, or the table of zeros for a file that is refused.
#[tactic(auto, unfolding(crate::specs::Lists::table_in))]
fn table_in(file: &[u8]) -> Table
    ensures { result ≡ table_in file.now }
{
    tablefile::or_zeros(tablefile::read(file))
}

// The run of a list over the table of a file.
#[tactic(auto, unfolding(crate::specs::Lists::start_in, crate::specs::Lists::list_ran, crate::specs::Lists::list_log, crate::specs::Lists::list_buffer))]
fn run(file: &[u8], reports: &[u8], log: &mut [u8], buffer: &mut [u8]) -> Ran
    ensures answer { result ≡ list_ran file.now reports.now log.old buffer.old }
    ensures bytes { log.new ≡ list_log file.now reports.now log.old buffer.old }
    ensures buffer { buffer.new ≡ list_buffer file.now reports.now log.old buffer.old }
{
    let t = table_in(file);
    slots::fresh(t).start.run(t, reports, log, buffer)
}

// A state as a number.
fn state_number(state: State) -> u64
    ensures { result ≡ state_number state }
{
    match state {
        State::Waiting => 0,
        State::Failed => 1,
        State::Done => 2,
    }
}

// A row's job as a number.
#[tactic(auto, unfolding(crate::specs::Numbers::job_number))]
fn job_number(j: Job) -> u64
    ensures { result ≡ job_number j }
{
    (j.left as u64 * 65536 + j.run as u64) * 3 + state_number(j.state)
}

// One figure of a run's answer: row i's job for an i below 16, the clock for 16, the slots accepted for any other.
fn figure(ran: Ran, i: usize) -> u64
    ensures { result ≡ figure_of ran i }
{
    if i < 16 {
        job_number(ran.next.jobs[i])
    } else if i < 17 {
        ran.next.clock as u64
    } else {
        ran.slots as u64
    }
}

// A run, and one figure of its answer.
pub fn bench_run(file: &[u8], reports: &[u8], log: &mut [u8], buffer: &mut [u8], i: usize) -> u64
    ensures figure { result ≡ figure_of (list_ran file.now reports.now log.old buffer.old) i }
    ensures bytes { log.new ≡ list_log file.now reports.now log.old buffer.old }
    ensures buffer { buffer.new ≡ list_buffer file.now reports.now log.old buffer.old }
{
    let ran = run(file, reports, log, buffer);
    figure(ran, i)
}

// The same slots by single ones, up to a refusal or to the log's end. Answers the slots accepted.
pub fn bench_steps(file: &[u8], reports: &[u8], log: &mut [u8]) -> usize
    ensures slots { result ≡ length (single_slots file.now reports.now log.old) }
    ensures bytes { log.new ≡ single_log file.now reports.now log.old }
{
    let t = table_in(file);
    let mut q = slots::fresh(t).start;
    for (i, report) in reports.iter().enumerate() {
        if log.len() <= i {
            return i;
        }
        let stepped = q.step(t, *report);
        if stepped.refusal.is_some() {
            return i;
        }
        log[i] = stepped.ran;
        q = stepped.next;
    }
    reports.len()
}

// The bag report over bags of the same size, one after the other from slot 0, as many as there are lent bytes, at most 1,024. Answers one figure of it: a place's two counts for an
// i below 16, the refusal's number for any other.
#[tactic(auto, unfolding(crate::specs::Bags::even_report, crate::specs::Bags::even_marks))]
pub fn bench_bags(
    file: &[u8],
    reports: &[u8],
    row: u8,
    size: u16,
    marks: &mut [u8],
    i: usize,
) -> u64
    ensures figure { result ≡ bag_figure (even_report file.now reports.now row size marks.old) i }
    ensures bytes { marks.new ≡ even_marks file.now reports.now row size marks.old }
{
    let got = bags::report_on(table_in(file), reports, row, size, marks);
    bags::figure(got, i)
}
