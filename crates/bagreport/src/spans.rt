// The refusals of the order desk: the dosing row, the list of spans, and the number of reports.
ghost use Rattle.std.specs.Prelude.{◌≡◌, ◌||◌, eqb, ltb, leb};
ghost use Rattle.bagreport.specs.Answers.{desk_refusal};
ghost use Rattle.bagreport.specs.Pairs.{spans_fault};

use refusal::Refusal;

// Whether the row is outside the table.
fn no_row(n: u8, row: u8) -> bool
    ensures { result ≡ (eqb row 0 || ltb n row) }
{
    row == 0 || n < row
}

// Whether a span cannot follow the one before: it doesn't end after its start, ends past the slots run or starts before the previous end.
fn bad_span(start: u64, end: u64, slots: u64, previous: u64) -> bool
    ensures { result ≡ (leb end start || (ltb slots end || ltb start previous)) }
{
    end <= start || slots < end || start < previous
}

// Whether the list of spans can't be taken. It is read once, in order.
fn bad_spans(spans: &[u64], slots: u64) -> bool
    ensures { result ≡ spans_fault slots 0 spans.now }
{
    let mut previous = 0;
    let mut left = spans;
    while let [start, end, rest @ ..] = left {
        if bad_span(*start, *end, slots, previous) {
            return true;
        }
        previous = *end;
        left = rest;
    }
    !left.is_empty()
}

// Whether the list of spans can't be taken, or there are more reports than a count holds.
fn bad_order(spans: &[u64], slots: usize) -> bool
    ensures { result ≡ (spans_fault slots 0 spans.now || ltb 4294967295 slots) }
{
    bad_spans(spans, slots as u64) || 4294967295 < slots
}

// 14, then 15, for a table of n rows and so many slots run.
pub(crate) fn desk_refusal(n: u8, row: u8, slots: usize, spans: &[u64]) -> Option<Refusal>
    ensures { result ≡ desk_refusal n row slots spans.now }
{
    if no_row(n, row) {
        return Some(Refusal::Dosing);
    }
    if bad_order(spans, slots) {
        return Some(Refusal::Spans);
    }
    None
}
