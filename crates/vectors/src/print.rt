// The text of the answers.
ghost use Rattle.vectors.specs.Shares.{Number, Numbers};

use crate::STDOUT_FILENO;
use refusal::Refusal;
use share::Share;
use slots::{Job, Record, State};
use table::Table;

pub(crate) fn text(s: &[u8]) {
    io::write_all(STDOUT_FILENO, s);
}

pub(crate) fn end() {
    text(b"\n");
}

// A field: a space and the number.
pub(crate) fn number(n: u64) {
    text(b" ");
    io::print_decimal(STDOUT_FILENO, n);
}

// The name of the kind, the number of refusal and the row named; 0 where nothing is refused.
pub(crate) fn head(name: &[u8], refusal: Option<Refusal>) {
    text(name);
    number(refusal::number(refusal) as u64);
    number(refusal::named_row(refusal) as u64);
}

// A field of so many hexadecimal digits for each place.
pub(crate) fn places<P: Copy + Into<u64>>(s: &[P], digits: usize) {
    text(b" ");
    for p in s {
        io::print_hex(STDOUT_FILENO, (*p).into(), digits);
    }
}

// A field 'period/p/a' for each of the sixteen rows.
pub(crate) fn rows(t: Table) {
    for r in t.rows {
        number(r.period as u64);
        text(b"/");
        io::print_decimal(STDOUT_FILENO, r.primary as u64);
        text(b"/");
        io::print_decimal(STDOUT_FILENO, r.alternate as u64);
    }
}

// A field of the state's letter, the units run and the units left.
fn entry(j: Job) {
    match j.state {
        State::Waiting => text(b" w"),
        State::Failed => text(b" f"),
        State::Done => text(b" d"),
    }
    io::print_decimal(STDOUT_FILENO, j.run as u64);
    text(b"/");
    io::print_decimal(STDOUT_FILENO, j.left as u64);
}

// The clock and the sixteen entries.
pub(crate) fn entries(q: Record) {
    number(q.clock as u64);
    for j in q.jobs {
        entry(j);
    }
}

// A field 'mark/done/of/BITS': the share itself by its 64 bits.
fn share_field(s: Share)
    requires { Number s }
{
    number(s.mark as u64);
    text(b"/");
    io::print_decimal(STDOUT_FILENO, s.done as u64);
    text(b"/");
    io::print_decimal(STDOUT_FILENO, s.of as u64);
    text(b"/");
    io::print_hex(STDOUT_FILENO, s.share.to_bits(), 16);
}

// A field for each of the sixteen shares.
pub(crate) fn shares(shares: [Share; 16])
    requires { Numbers shares }
{
    for s in shares {
        share_field(s);
    }
}
