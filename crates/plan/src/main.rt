// Reads a table file from standard input and prints the cycle, the number of jobs and each job's first slot, or the one line of a refusal.
#![tactic(auto)]

ghost use Rattle.std.specs.Prelude.{None, ◌≡◌, length, get_or};
ghost use Rattle.table.specs.Rows.{used};
ghost use Rattle.reserve.specs.Check.{table_refusal};
ghost use Rattle.reserve.specs.Lists.{first_slots};
ghost use Rattle.reserve.specs.Turns.{Ready};
ghost use Rattle.plan.specs.Lines.{plan_lines, no_line, Begins};

use refusal::Refusal;
use table::Table;

// The descriptors that a process is started with.
const STDIN_FILENO: i32 = 0;

const STDOUT_FILENO: i32 = 1;

// A row, one of its jobs and the job's first slot.
#[derive(Clone, Copy)]
struct Line {
    row: u8,
    job: usize,
    first: u16,
}

// A word, and a number after it.
fn print_named(word: &[u8], n: u64) {
    io::write_all(STDOUT_FILENO, word);
    io::print_decimal(STDOUT_FILENO, n);
}

// 'refused 7 row 2'
fn print_refusal(f: Refusal) {
    print_named(b"refused ", f.number() as u64);
    print_named(b" row ", f.named_row() as u64);
    io::write_all(STDOUT_FILENO, b"\n");
}

// 'cycle 30 jobs 11'
fn print_head(cycle: u16, jobs: usize) {
    print_named(b"cycle ", cycle as u64);
    print_named(b" jobs ", jobs as u64);
    io::write_all(STDOUT_FILENO, b"\n");
}

// '1 2 9'
fn print_line(line: Line) {
    io::print_decimal(STDOUT_FILENO, line.row as u64);
    print_named(b" ", line.job as u64);
    print_named(b" ", line.first as u64);
    io::write_all(STDOUT_FILENO, b"\n");
}

// Line k, counted from 0, of a table whose first slots stand in a list.
fn line_at(t: Table, cycle: u16, firsts: &[u16], k: usize) -> Line
    requires { Ready t cycle × Begins (first_slots (used t)) firsts.now }
    ensures { result ≡ get_or (plan_lines (used t)) k no_line }
{
    let mut left = k;
    for (i, row) in t.rows().iter().enumerate() {
        let jobs = (cycle / row.period) as usize;
        if left < jobs {
            return Line {
                row: i as u8 + 1,
                job: left + 1,
                first: firsts[k],
            };
        }
        left -= jobs;
    }
    Line {
        row: 0,
        job: 0,
        first: 0,
    }
}

// Every line, in order.
fn print_lines(t: Table, cycle: u16, firsts: &[u16], jobs: usize)
    requires { Ready t cycle × Begins (first_slots (used t)) firsts.now × (jobs ≡ length (plan_lines (used t))) }
{
    for k in 0..jobs {
        print_line(line_at(t, cycle, firsts, k));
    }
}

// A table that is accepted. Its first slots always fit (`reserve` proofs/JobsFit), so none of these answers is a refusal.
fn print_plan(t: Table)
    requires { table_refusal t ≡ None }
{
    let cycle = reserve::check(t).unwrap();
    let mut firsts = [0u16; 4096];
    let jobs = reserve::first_slots(t, &mut firsts).unwrap();
    print_head(cycle, jobs);
    print_lines(t, cycle, &firsts, jobs);
}

// Every input gets its answer: no length field counts past 65,537 bytes, so one byte more is enough to take in (`tablefile` proofs/Enough).
fn main() {
    let mut input = [0u8; 65538];
    let n = io::read_full(STDIN_FILENO, &mut input);
    match tablefile::read(&input[..n]) {
        Ok(t) => print_plan(t),
        Err(f) => print_refusal(f),
    }
}
