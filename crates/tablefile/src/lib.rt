// The table file: what a dealer's table is stored in, read and written.
#![tactic(auto)]

ghost use Rattle.std.specs.Prelude.{◌≡◌, ◌+◌, ◌*◌, ◌≤◌, ◌<◌, length};
ghost use Rattle.std.proofs.lemmas.List.Edits.{sets};
ghost use Rattle.refusal.specs.Order.{answer};
ghost use Rattle.reserve.specs.HandOut.{handed, handed_over};
ghost use Rattle.tablefile.specs.Layout.{word_bytes, row_bytes, rows_bytes, file_bytes, byte_at, word_at, count_byte, row_from, rows_from, padded};
ghost use Rattle.tablefile.specs.Answers.{head_refusal, zero_table, hands_back, read_as};

use refusal::Refusal;
use table::{Row, Table};

// The table of zeros.
fn zeros() -> Table
    ensures { result ≡ zero_table }
{
    let zero = Row {
        period: 0,
        primary: 0,
        alternate: 0,
    };
    Table {
        n: 0,
        rows: [zero; 16],
    }
}

// The byte at a place, 0 past the end.
fn byte(s: &[u8], at: usize) -> u8
    ensures { result ≡ byte_at s.now at }
{
    s.get(at).copied().unwrap_or(0)
}

// The word at a place: two bytes, the high one first. No place that is asked for is past the hundredth, so none overflows.
#[tactic(auto, unfolding(crate::specs::Layout::word_at))]
fn word(s: &[u8], at: usize) -> u16
    requires { at < 100 }
    ensures { result ≡ word_at s.now at }
{
    u16::from_be_bytes([byte(s, at), byte(s, at + 1)])
}

// The row at a place: three words.
#[tactic(auto, unfolding(crate::specs::Layout::row_from))]
fn row_from(s: &[u8], at: usize) -> Row
    requires { at < 96 }
    ensures { result ≡ row_from s.now at }
{
    Row {
        period: word(s, at),
        primary: word(s, at + 2),
        alternate: word(s, at + 4),
    }
}

// The n rows of a file, and zeros past them.
fn rows_from(s: &[u8], n: u8) -> [Row; 16]
    requires { n ≤ 16 }
    ensures { result ≡ padded n (rows_from s.now 4 n) }
{
    let mut rows = zeros().rows;
    for (i, row) in rows[..n as usize].iter_mut().enumerate() {
        *row = row_from(s, 4 + 6 * i);
    }
    rows
}

// The refusals of a file that come before its rows, or the number of its rows.
fn head(s: &[u8]) -> Result<u8, Refusal>
    ensures { result ≡ answer (head_refusal s.now) (count_byte s.now) }
{
    if s.len() < 4 {
        return Err(Refusal::Size);
    }
    let follow = word(s, 0) as usize;
    if follow + 2 != s.len() {
        return Err(Refusal::Size);
    }
    if byte(s, 2) != 1 {
        return Err(Refusal::Version);
    }
    let n = byte(s, 3);
    if n == 0 {
        return Err(Refusal::Empty);
    }
    if 16 < n {
        return Err(Refusal::Many);
    }
    if follow != 2 + 6 * n as usize {
        return Err(Refusal::Size);
    }
    Ok(n)
}

// Reads a table file. Takes any bytes.
pub fn read(s: &[u8]) -> Result<Table, Refusal>
    ensures { result ≡ read_as s.now }
{
    let n = head(s)?;
    let rows = rows_from(s, n);
    let table = Table { n, rows };
    reserve::check(table)?;
    Ok(table)
}

// What a reading hands back where a table is needed either way: the table, or the table of zeros for a refusal.
pub fn or_zeros(reading: Result<Table, Refusal>) -> Table
    ensures { result ≡ hands_back reading }
{
    reading.unwrap_or(zeros())
}

// Writes a word at a place: two bytes, the high one first.
fn put_word(out: &mut [u8], at: usize, w: u16)
    requires { at + 2 ≤ length out.old }
    ensures { out.new ≡ sets out.old at (word_bytes w) }
{
    out[at..at + 2].copy_from_slice(&w.to_be_bytes());
}

// Writes a row at a place: three words.
fn put_row(out: &mut [u8], at: usize, r: Row)
    requires { at + 6 ≤ length out.old }
    ensures { out.new ≡ sets out.old at (row_bytes r) }
{
    put_word(out, at, r.period);
    put_word(out, at + 2, r.primary);
    put_word(out, at + 4, r.alternate);
}

// Writes rows after the file's first four bytes.
fn put_rows(out: &mut [u8], rows: &[Row])
    requires { 4 + 6 * length rows.now ≤ length out.old }
    ensures { out.new ≡ sets out.old 4 (rows_bytes rows.now) }
{
    for (i, row) in rows.iter().enumerate() {
        put_row(out, 4 + 6 * i, *row);
    }
}

// Writes the file of a table. Answers how many bytes. Later bytes stay, and a refusal writes nothing.
pub fn write(t: Table, out: &mut [u8]) -> Result<usize, Refusal>
    ensures answer { result ≡ handed t (file_bytes t) out.old }
    ensures bytes { out.new ≡ handed_over t (file_bytes t) out.old }
{
    reserve::check(t)?;
    let follow = 2 + 6 * t.n as u16;
    let size = follow as usize + 2;
    if out.len() < size {
        return Err(Refusal::Room);
    }
    put_word(out, 0, follow);
    out[2] = 1;
    out[3] = t.n;
    put_rows(out, t.rows());
    Ok(size)
}
