// Text laid into a lent buffer at a place, with the place after it as the answer.
ghost use Rattle.std.specs.Prelude.{◌++◌, ◌+◌, ◌≤◌, length};
ghost use Rattle.replay.specs.Texts.{decimal};
ghost use Rattle.replay.specs.Turns.{Laid};

// The bytes of a text.
pub(crate) fn put_bytes(out: &mut [u8], at: usize, text: &[u8]) -> usize
    requires { at + length text.now ≤ length out.old }
    ensures { Laid out.old at text.now out.new result }
{
    let end = at + text.len();
    out[at..end].copy_from_slice(text);
    end
}

// A number in decimal: never more than 20 digits.
pub(crate) fn put_number(out: &mut [u8], at: usize, n: u64) -> usize
    requires { at + 20 ≤ length out.old }
    ensures text { Laid out.old at (decimal n) out.new result }
    ensures short { result ≤ at + 20 }
{
    let mut digits = [0u8; 20];
    let k = io::decimal(n, &mut digits);
    put_bytes(out, at, &digits[..k])
}

// A word and a number, in at most 31 bytes.
pub(crate) fn put_named(out: &mut [u8], at: usize, word: &[u8], n: u64) -> usize
    requires { (length word.now ≤ 11) × (at + 31 ≤ length out.old) }
    ensures text { Laid out.old at (word.now ++ decimal n) out.new result }
    ensures short { result ≤ at + 31 }
{
    let said = put_bytes(out, at, word);
    put_number(out, said, n)
}
