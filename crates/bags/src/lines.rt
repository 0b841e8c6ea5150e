// The lines of a report.
ghost use Rattle.std.specs.Prelude.{◌≡◌, ◌<◌};
ghost use Rattle.bags.specs.Lines.{of_kind, millionths};

use crate::STDOUT_FILENO;
use share::Share;

// A word, and a number after it.
pub(crate) fn print_named(word: &[u8], n: u64) {
    io::write_all(STDOUT_FILENO, word);
    io::print_decimal(STDOUT_FILENO, n);
}

// How a bag was dosed.
fn print_kind(mark: u8) {
    match mark {
        0 => io::write_all(STDOUT_FILENO, b" none\n"),
        1 => io::write_all(STDOUT_FILENO, b" modelled\n"),
        2 => io::write_all(STDOUT_FILENO, b" fixed\n"),
        3..=255 => io::write_all(STDOUT_FILENO, b" mixed\n"),
    };
}

// 'bag 1 slots 0 to 30 modelled'
pub(crate) fn print_bag(bag: usize, start: u64, end: u64, mark: u8) {
    print_named(b"bag ", bag as u64);
    print_named(b" slots ", start);
    print_named(b" to ", end);
    print_kind(mark);
}

// How many of the bags are of a kind.
fn of_kind(marks: &[u8], kind: u8) -> usize
    ensures { result ≡ of_kind kind marks.now }
{
    marks.iter().filter(|mark| **mark == kind).count()
}

// '14 bags: 11 modelled, 2 fixed, 1 mixed, 0 none'
pub(crate) fn print_kinds(marks: &[u8]) {
    io::print_decimal(STDOUT_FILENO, marks.len() as u64);
    print_named(b" bags: ", of_kind(marks, 1) as u64);
    print_named(b" modelled, ", of_kind(marks, 2) as u64);
    print_named(b" fixed, ", of_kind(marks, 3) as u64);
    print_named(b" mixed, ", of_kind(marks, 0) as u64);
    io::write_all(STDOUT_FILENO, b" none\n");
}

// A share cut to six places, as a whole number of millionths.
fn in_millionths(done: u32, of: u32) -> u64
    requires { 0 < of }
    ensures { result ≡ millionths done of }
{
    done as u64 * 1000000 / of as u64
}

// Six digits, zeros before them.
fn print_six(n: u64) {
    for place in [100000, 10000, 1000, 100, 10, 1] {
        io::print_decimal(STDOUT_FILENO, n / place % 10);
    }
}

// 'row 1 share 9 of 12 0.750000', or 'row 2 no share': its mark is 16 exactly where it has no divisor.
pub(crate) fn print_share(row: u8, s: Share) {
    print_named(b"row ", row as u64);
    if s.of == 0 {
        io::write_all(STDOUT_FILENO, b" no share\n");
        return;
    }
    let millionths = in_millionths(s.done, s.of);
    print_named(b" share ", s.done as u64);
    print_named(b" of ", s.of as u64);
    print_named(b" ", millionths / 1000000);
    io::write_all(STDOUT_FILENO, b".");
    print_six(millionths);
    io::write_all(STDOUT_FILENO, b"\n");
}
