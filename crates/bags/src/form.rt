// What stands in an order, by its place: the dosing row; two bytes, how many numbers the spans have; those numbers, eight bytes each; two bytes, the size of the table file; the
// file; then the reports. Numbers stand with the high byte first, and bytes that an order doesn't have count as 0.
ghost use Rattle.std.specs.Prelude.{◌≡◌, ◌+◌, ◌^◌, ◌≤◌, ◌<◌, length, get_or};
ghost use Rattle.bags.specs.Orders.{word_at, long_at, Spanned};

use std::array;

// The byte at a place.
pub(crate) fn byte(s: &[u8], at: usize) -> u8
    ensures { result ≡ get_or s.now at 0 }
{
    s.get(at).copied().unwrap_or(0)
}

// Two bytes from a place on.
pub(crate) fn word(s: &[u8], at: usize) -> u16
    requires { at < 2 ^ 32 }
    ensures { result ≡ word_at s.now at }
{
    u16::from_be_bytes(array::from_fn(|i| byte(s, at + i)))
}

// Eight bytes from a place on.
fn long(s: &[u8], at: usize) -> u64
    requires { at < 2 ^ 32 }
    ensures { result ≡ long_at s.now at }
{
    u64::from_be_bytes(array::from_fn(|i| byte(s, at + i)))
}

// How many numbers the spans have: a number over 2,048 counts as 2,048.
pub(crate) fn numbers(s: &[u8]) -> usize
    ensures { result ≤ 2048 }
{
    (word(s, 1) as usize).min(2048)
}

// The spans' numbers, as many as there are places.
pub(crate) fn fill_spans(s: &[u8], spans: &mut [u64])
    requires { length spans.old ≤ 2048 }
    ensures { Spanned s.now (length spans.old) spans.new }
{
    for (i, span) in spans.iter_mut().enumerate() {
        *span = long(s, 3 + 8 * i);
    }
}
