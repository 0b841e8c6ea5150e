// Each kind of case: the entry called on its arguments, and the line printed of its answer.
use crate::{form, print};
use refusal::Refusal;
use reserve::Standing;
use slots::Awaiting;

fn call_gcd(s: &[u8]) {
    let g = table::gcd(form::word(s, 4), form::word(s, 6));
    print::text(b"gcd");
    print::number(g as u64);
}

// The head of an answer that is a figure or a refusal, and the figure; 0 beside a refusal.
fn print_figure(name: &[u8], got: Result<u64, Refusal>) {
    print::head(name, got.err());
    print::number(got.unwrap_or(0));
}

fn call_rows(s: &[u8]) {
    let got = table::check_rows(form::table_of(s));
    print_figure(b"rows", got.map(|cycle| cycle as u64));
}

fn call_check(s: &[u8]) {
    let got = reserve::check(form::table_of(s));
    print_figure(b"check", got.map(|cycle| cycle as u64));
}

fn call_list(s: &[u8]) {
    let room = form::room(s, 2);
    let mut lent = [0u8; 16388];
    form::fill_bytes(&mut lent, form::byte(s, 1));
    let got = reserve::reservations(form::table_of(s), &mut lent[..room]);
    print_figure(b"list", got.map(|used| used as u64));
    print::places(&lent[..room + 4], 2);
}

fn call_firsts(s: &[u8]) {
    let room = form::room(s, 2);
    let mut lent = [0u16; 16388];
    form::fill_places(&mut lent, form::byte(s, 1));
    let got = reserve::first_slots(form::table_of(s), &mut lent[..room]);
    print_figure(b"firsts", got.map(|used| used as u64));
    print::places(&lent[..room + 4], 4);
}

fn call_clock(s: &[u8]) {
    let q = form::record_of(s);
    let got = reserve::from_clock(form::table_of(s), q.clock, form::lefts_of(q));
    print::head(b"clock", got.err());
    let stands = got.unwrap_or(Standing {
        cycle: 0,
        short: 0,
        holder: 0,
    });
    print::number(stands.cycle as u64);
    print::number(stands.short as u64);
    print::number(stands.holder as u64);
}

fn call_read(s: &[u8]) {
    let at = form::start(s, 4);
    let got = tablefile::read(&s[at..]);
    print::head(b"read", got.err());
    let t = tablefile::or_zeros(got);
    print::number(t.n as u64);
    print::rows(t);
}

fn call_write(s: &[u8]) {
    let room = form::room(s, 2);
    let mut lent = [0u8; 16388];
    form::fill_bytes(&mut lent, form::byte(s, 1));
    let got = tablefile::write(form::table_of(s), &mut lent[..room]);
    print_figure(b"write", got.map(|used| used as u64));
    print::places(&lent[..room + 4], 2);
}

fn call_fresh(s: &[u8]) {
    let got = slots::fresh(form::table_of(s));
    print::head(b"fresh", got.refusal);
    print::entries(got.start);
}

fn call_asked(s: &[u8]) {
    let q = form::record_of(s);
    let got = q.what_runs(form::table_of(s));
    print_figure(b"asked", got.map(|ran| ran as u64));
}

fn call_waiting(s: &[u8]) {
    let q = form::record_of(s);
    let got = q.waiting(form::table_of(s));
    print::head(b"waiting", got.err());
    let waiting = got.unwrap_or(Awaiting {
        set: 0,
        row: 0,
        count: 0,
    });
    print::number(waiting.set as u64);
    print::number(waiting.row as u64);
    print::number(waiting.count as u64);
}

fn call_step(s: &[u8]) {
    let q = form::record_of(s);
    let got = q.step(form::table_of(s), form::byte(s, 183));
    print::head(b"step", got.refusal);
    print::number(got.ran as u64);
    print::entries(got.next);
}

fn call_run(s: &[u8]) {
    let q = form::record_of(s);
    let at = form::start(s, 185);
    let room = form::room(s, 2);
    let kept = form::room(s, 183);
    let fill = form::byte(s, 1);
    let mut log = [0u8; 16388];
    let mut buffer = [0u8; 16388];
    form::fill_bytes(&mut log, fill);
    form::fill_bytes(&mut buffer, fill);
    let got = q.run(
        form::table_of(s),
        &s[at..],
        &mut log[..room],
        &mut buffer[..kept],
    );
    print::head(b"run", got.refusal);
    print::number(got.slots as u64);
    print::entries(got.next);
    print::places(&log[..room + 4], 2);
    print::places(&buffer[..kept + 4], 2);
}

fn call_lost(s: &[u8]) {
    let q = form::record_of(s);
    let at = form::start(s, 183);
    let got = q.lost(form::table_of(s), &s[at..]);
    print_figure(b"lost", got);
}

fn call_lost_fresh(s: &[u8]) {
    let at = form::start(s, 101);
    let got = slots::lost_fresh(form::table_of(s), &s[at..]);
    print_figure(b"lostfresh", got);
}

fn call_bags(s: &[u8]) {
    let n = form::numbers(s);
    let spans = form::spans_of(s, n);
    let at = form::start(s, 103 + 8 * n);
    let room = form::room(s, 2);
    let mut lent = [0u8; 16388];
    form::fill_bytes(&mut lent, form::byte(s, 1));
    let got = bagreport::report(
        form::table_of(s),
        &s[at..],
        form::byte(s, 101),
        &spans[..n],
        &mut lent[..room],
    );
    print::head(b"bags", got.refusal);
    print::shares(got.shares);
    print::places(&lent[..room + 4], 2);
}

fn call_none(kind: u8) {
    print::text(b"unknown");
    print::number(kind as u64);
}

// The line of a case.
pub(crate) fn answer(s: &[u8]) {
    let kind = form::byte(s, 0);
    match kind {
        1 => call_gcd(s),
        2 => call_rows(s),
        3 => call_check(s),
        4 => call_list(s),
        5 => call_firsts(s),
        6 => call_clock(s),
        7 => call_read(s),
        8 => call_write(s),
        9 => call_fresh(s),
        10 => call_asked(s),
        11 => call_waiting(s),
        12 => call_step(s),
        13 => call_run(s),
        14 => call_lost(s),
        15 => call_lost_fresh(s),
        16 => call_bags(s),
        _ => call_none(kind),
    }
    print::end();
}
