// The bags' bytes, as the deadlines of the dosing row come: spans are read once, in order.
ghost use Rattle.std.specs.Prelude.{◌≡◌, ◌+◌, ◌/◌, ◌≤◌, ◌<◌, true, false, length};
ghost use Rattle.table.specs.Windows.{starts};
ghost use Rattle.bagreport.specs.Turns.{kind_of, joined_mark, Ordered, Past, Sought, Remarked};

use crate::due;
use crate::told::{Ended, Open};
use table::Row;

// The first bag from one on that does not end before slot s.
fn seek(spans: &[u64], from: usize, s: u64) -> usize
    requires { Past spans.now from s }
    ensures { Sought spans.now s result }
{
    let pairs = spans.len() / 2;
    for bag in from..pairs {
        if s <= spans[2 * bag + 1] {
            return bag;
        }
    }
    pairs
}

// How a job was dosed: 1 by its primary, 2 by its alternate.
fn kind(o: Open) -> u8
    ensures { result ≡ kind_of o.ended }
{
    match o.ended {
        Ended::Done => 1,
        _ => 2,
    }
}

// A bag's byte with one more job.
fn joined(mark: u8, kind: u8) -> u8
    ensures { result ≡ joined_mark mark kind }
{
    if mark == 0 || mark == kind { kind } else { 3 }
}

// The job whose deadline is slot s goes to the bag that looks at it, if one does. Answers from which bag on to look next.
fn put_job(spans: &[u64], marks: &mut [u8], from: usize, s: u64, k: u8) -> usize
    requires { Ordered spans.now × (length spans.now / 2 ≤ length marks.old) × Past spans.now from s }
    ensures bag { Sought spans.now s result }
    ensures bytes { Remarked spans.now s k marks.old marks.new }
{
    let bag = seek(spans, from, s);
    if bag < spans.len() / 2 && spans[2 * bag] < s {
        marks[bag] = joined(marks[bag], k);
    }
    bag
}

// At slot s, where the dosing row's window may end.
pub(crate) fn mark_job(
    r: Row,
    s: usize,
    o: Open,
    spans: &[u64],
    marks: &mut [u8],
    from: usize,
) -> usize
    requires { (0 < r.period) × Ordered spans.now × (length spans.now / 2 ≤ length marks.old) × Past spans.now from s }
    ensures bag { Past spans.now result s }
    ensures bytes { (starts r s ≡ true → Remarked spans.now s (kind_of o.ended) marks.old marks.new) × (starts r s ≡ false → marks.new ≡ marks.old) }
{
    if due::starts_at(r, s) {
        put_job(spans, marks, from, s as u64, kind(o))
    } else {
        from
    }
}
