// Where windows open: the clock as it comes to such a slot, and the next one.
ghost use Rattle.std.specs.Prelude.{◌≡◌, cond, ◌<◌, eqb};
ghost use Rattle.table.specs.Rows.{used};
ghost use Rattle.table.specs.Windows.{window_end};
ghost use Rattle.reserve.specs.Turns.{Ready};
ghost use Rattle.slots.specs.Turns.{Quiet};

use table::{Row, Table};

// The clock goes to 0 at the cycle's end.
pub(crate) fn wrapped(clock: u16, cycle: u16) -> u16
    ensures { result ≡ cond (eqb clock cycle) 0 clock }
{
    if clock == cycle { 0 } else { clock }
}

// The end of the window that slot s is in.
pub(crate) fn window_end(r: Row, s: u16) -> u16
    requires { (0 < r.period) × (window_end r s < 65536) }
    ensures { result ≡ window_end r s }
{
    (s / r.period + 1) * r.period
}

// The next slot after s at which a window opens, of those up to the cycle's end.
pub(crate) fn next_opening(t: Table, cycle: u16, s: u16) -> u16
    requires { Ready t cycle × (s < cycle) }
    ensures { Quiet (used t) cycle s result }
{
    let mut opens = cycle;
    for row in t.rows() {
        opens = opens.min(window_end(*row, s));
    }
    opens
}
