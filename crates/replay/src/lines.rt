// The lines of slots.
ghost use Rattle.std.specs.Prelude.{◌+◌, ◌*◌, ◌^◌, ◌≤◌, ◌<◌, ◌++◌, length};
ghost use Rattle.slots.specs.History.{work_of};
ghost use Rattle.replay.specs.Texts.{quoted, decimal};
ghost use Rattle.replay.specs.Lines.{work_text, slot_line, log_lines};
ghost use Rattle.replay.specs.Turns.{Laid};

use crate::text;

// ' primary 2' or ' alternate 2', by the word given, and the line's end.
fn put_unit(out: &mut [u8], at: usize, word: &[u8], row: u8) -> usize
    requires { (length word.now ≤ 11) × (at + 32 ≤ length out.old) }
    ensures text { Laid out.old at (word.now ++ decimal row ++ quoted "\n") out.new result }
    ensures short { result ≤ at + 32 }
{
    let named = text::put_named(out, at, word, row as u64);
    text::put_bytes(out, named, b"\n")
}

// What ran, by the log's byte, and the line's end.
fn put_work(out: &mut [u8], at: usize, ran: u8) -> usize
    requires { at + 32 ≤ length out.old }
    ensures text { Laid out.old at (work_text (work_of ran)) out.new result }
    ensures short { result ≤ at + 32 }
{
    match ran {
        0 => text::put_bytes(out, at, b" idle\n"),
        1..=16 => put_unit(out, at, b" primary ", ran),
        _ => put_unit(out, at, b" alternate ", ran - 16),
    }
}

// '7 primary 1': a line takes at most 52 bytes.
fn put_line(out: &mut [u8], at: usize, slot: u64, ran: u8) -> usize
    requires { at + 52 ≤ length out.old }
    ensures text { Laid out.old at (slot_line slot ran) out.new result }
    ensures short { result ≤ at + 52 }
{
    let numbered = text::put_number(out, at, slot);
    put_work(out, numbered, ran)
}

// The lines of a log whose first byte is of the slot `first`: all of them fit.
pub(crate) fn put_lines(out: &mut [u8], first: u64, log: &[u8]) -> usize
    requires { (52 * length log.now ≤ length out.old) × (first + length log.now < 2 ^ 64) }
    ensures { Laid out.old 0 (log_lines first log.now) out.new result }
{
    let mut at = 0;
    for (i, ran) in log.iter().enumerate() {
        at = put_line(out, at, first + i as u64, *ran);
    }
    at
}
