// What a Rust program links to measure the library: each of `bench`'s three calls under its own symbol, with its clauses.
#![tactic(auto)]

ghost use Rattle.std.specs.Prelude.{◌≡◌, length};
ghost use Rattle.bench.specs.Bags.{even_report, even_marks, bag_figure};
ghost use Rattle.bench.specs.Lists.{list_ran, list_log, list_buffer, single_slots, single_log};
ghost use Rattle.bench.specs.Numbers.{figure_of};

// A run, and one figure of its answer.
#[unsafe(no_mangle)]
pub extern "C" fn bench_run(
    file: &[u8],
    reports: &[u8],
    log: &mut [u8],
    buffer: &mut [u8],
    i: usize,
) -> u64
    ensures figure { result ≡ figure_of (list_ran file.now reports.now log.old buffer.old) i }
    ensures bytes { log.new ≡ list_log file.now reports.now log.old buffer.old }
    ensures buffer { buffer.new ≡ list_buffer file.now reports.now log.old buffer.old }
{
    bench::bench_run(file, reports, log, buffer, i)
}

// The same slots by single ones. Answers the slots accepted.
#[unsafe(no_mangle)]
pub extern "C" fn bench_steps(file: &[u8], reports: &[u8], log: &mut [u8]) -> usize
    ensures slots { result ≡ length (single_slots file.now reports.now log.old) }
    ensures bytes { log.new ≡ single_log file.now reports.now log.old }
{
    bench::bench_steps(file, reports, log)
}

// The bag report over bags of the same size, and one figure of it.
#[unsafe(no_mangle)]
pub extern "C" fn bench_bags(
    file: &[u8],
    reports: &[u8],
    row: u8,
    size: u16,
    marks: &mut [u8],
    i: usize,
) -> u64
    ensures figure { result ≡ bag_figure (even_report file.now reports.now row size marks.old) i }
    ensures bytes { marks.new ≡ even_marks file.now reports.now row size marks.old }
{
    bench::bench_bags(file, reports, row, size, marks, i)
}
