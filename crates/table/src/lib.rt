// Rows, tables of rows and their cycle, with the refusals of a table that come before the reservation rule.
#![tactic(auto)]

ghost use Rattle.std.specs.Prelude.{◌≡◌, ℕ, ◌≤◌, ◌<◌, length};
ghost use Rattle.refusal.specs.Order.{verdict};
ghost use Rattle.table.specs.Gcd.{gcd_of, lcm_of};
ghost use Rattle.table.specs.Rows.{used, row_at, cycle_of, within_cycle};
ghost use Rattle.table.specs.Check.{is_zero, is_long, fault_of, faults_of, rows_check};

use refusal::Refusal;

// A periodic task: its period, and the times of its primary and of its alternate, in slots.
#[derive(Clone, Copy, Debug, PartialEq, Eq)]
pub struct Row {
    pub period: u16,
    pub primary: u16,
    pub alternate: u16,
}

// The first n places are the table's rows, and the others are ignored, whatever they hold.
// A count beside an array and no `Vec`: the project has no heap, and a count over 16 is to be refused by 2.
#[derive(Clone, Copy, Debug, PartialEq, Eq)]
pub struct Table {
    pub n: u8,
    pub rows: [Row; 16],
}

impl Table {
    // The table's rows: its first n places, or all sixteen where n is over.
    pub fn rows(&self) -> &[Row]
        ensures rows { result.now ≡ used self.now }
        ensures few { length result.now ≤ 16 }
    {
        &self.rows[..(self.n as usize).min(16)]
    }
}

// Euclid's rule.
pub fn gcd(x: u16, y: u16) -> u16
    ensures { result ≡ gcd_of x y }
{
    if y == 0 { x } else { gcd(y, x % y) }
}

// The least common multiple of c and p, where it is at most 4,096.
fn join(c: u16, p: u16) -> Option<u16>
    requires { 0 < p }
    ensures { result ≡ within_cycle (lcm_of c p) }
{
    let m = (c / gcd(c, p)) as u32 * p as u32;
    if m <= 4096 { Some(m as u16) } else { None }
}

// A period or a time of 0.
fn is_zero(r: Row) -> bool
    ensures { result ≡ is_zero r }
{
    r.period == 0 || r.primary == 0 || r.alternate == 0
}

// A time over the period.
fn is_long(r: Row) -> bool
    ensures { result ≡ is_long r }
{
    r.period < r.primary || r.period < r.alternate
}

// The first refusal of one row, the k-th, after a row with the period before.
fn fault(k: u8, before: u16, r: Row) -> Result<(), Refusal>
    ensures { result ≡ verdict (fault_of k before r) }
{
    if is_zero(r) {
        Err(Refusal::Zero(k))
    } else if is_long(r) {
        Err(Refusal::Long(k))
    } else if r.period < before {
        Err(Refusal::Order(k))
    } else {
        Ok(())
    }
}

// The first refusal of the rows, from the first.
fn faults(rows: &[Row]) -> Result<(), Refusal>
    requires { length rows.now ≤ 16 }
    ensures { result ≡ verdict (faults_of 1 0 rows.now) }
{
    let mut before: u16 = 0;
    for (i, row) in rows.iter().enumerate() {
        fault(i as u8 + 1, before, *row)?;
        before = row.period;
    }
    Ok(())
}

// The cycle, where it is at most 4,096.
fn fold(rows: &[Row]) -> Option<u16>
    requires { (i : ℕ) → i < length rows.now → 0 < (row_at rows.now i).period }
    ensures { result ≡ within_cycle (cycle_of rows.now) }
{
    let mut c: u16 = 1;
    for row in rows {
        c = join(c, row.period)?;
    }
    Some(c)
}

// Refusals 1 to 6 of a table given as rows, or its cycle.
pub fn check_rows(t: Table) -> Result<u16, Refusal>
    ensures { result ≡ rows_check t }
{
    if t.n == 0 {
        return Err(Refusal::Empty);
    }
    if 16 < t.n {
        return Err(Refusal::Many);
    }
    let rows = t.rows();
    faults(rows)?;
    fold(rows).ok_or(Refusal::Cycle)
}
