// How another crate uses the library: what a controller asks before each slot.
#![tactic(auto)]

ghost use Rattle.std.specs.Prelude.{◌≡◌};
ghost use Rattle.example.specs.FixedDose.{fixed_dose};

use slots::Record;
use table::Table;

// Whether a fixed dose runs in the slot at the clock; not beside a refusal.
pub fn fixed_dose_runs(t: Table, q: Record) -> bool
    ensures { result ≡ fixed_dose t q }
{
    16 < q.what_runs(t).unwrap_or(0)
}
