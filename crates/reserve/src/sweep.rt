// The sweep from the cycle's end down to a clock: at each slot the first row with units left of its claim takes the slot.
ghost use Rattle.std.specs.Prelude.{◌≡◌, cond, ◌&&◌, ◌||◌, ◌++◌, suc, ◌-◌, ◌≤◌, ◌<◌, ltb, eqb, length, drop};
ghost use Rattle.table.specs.Rows.{used};
ghost use Rattle.table.specs.Windows.{window_end, starts};
ghost use Rattle.rule.specs.Slots.{or_row};
ghost use Rattle.reserve.specs.Tables.{ends, claims};
ghost use Rattle.reserve.specs.Check.{tight_of};
ghost use Rattle.reserve.specs.Standing.{short_from, holder_from};
ghost use Rattle.reserve.specs.Lists.{reservation_list};
ghost use Rattle.reserve.specs.Turns.{Unspent, claim_at, lower_of, Coming, Turned};

use crate::cycled::Cycled;
use table::{Row, Table};

// What a slot's turn tells, or a sweep down to the clock: the holder of the slot passed last, and the first row that is short; 0 for none.
#[derive(Clone, Copy)]
pub(crate) struct Swept {
    pub(crate) holder: u8,
    pub(crate) short: u8,
}

// The end of the window that slot t is in.
#[tactic(auto, unfolding(table::specs::Windows::window_end))]
fn window_end(r: Row, t: u16) -> u32
    requires { 0 < r.period }
    ensures { result ≡ window_end r t }
{
    let period = r.period as u32;
    (t as u32 / period + 1) * period
}

// What the job of slot t's window claims, where `units` are left of the row's current job: those in the clock's own window, and else all of a.
#[tactic(auto, unfolding(table::specs::Windows::wants))]
fn claim(r: Row, clock: u16, units: u16, t: u16) -> u16
    requires { 0 < r.period }
    ensures { result ≡ claim_at r clock units t }
{
    if window_end(r, t) == window_end(r, clock) {
        units
    } else {
        r.alternate
    }
}

// What is left of a row's claim as the sweep comes to slot t: the whole claim at a window's last slot.
fn arrived(r: Row, clock: u16, units: u16, t: u16, rest: u16) -> u16
    requires { 0 < r.period }
    ensures { result ≡ cond (eqb (window_end r t) (suc t)) (claim_at r clock units t) rest }
{
    if window_end(r, t) == t as u32 + 1 {
        claim(r, clock, units, t)
    } else {
        rest
    }
}

// One unit less where the slot is still free.
fn spent(holder: u8, x: u16) -> u16
    ensures { result ≡ cond (eqb holder 0) (x - 1) x }
{
    if holder == 0 { x.saturating_sub(1) } else { x }
}

// The row found first.
#[tactic(auto, unfolding(rule::specs::Slots::or_row))]
fn picked(found: u8, test: bool, row: u8) -> u8
    ensures { result ≡ or_row found test row }
{
    if found == 0 && test { row } else { found }
}

// A row with y units left once slot t is passed is short there, if its first usable slot is there: the clock's, or its window's first.
#[tactic(auto, unfolding(table::specs::Windows::starts))]
fn short_here(r: Row, clock: u16, t: u16, y: u16) -> bool
    requires { 0 < r.period }
    ensures { result ≡ ((eqb t clock || starts r t) && ltb 0 y) }
{
    (t == clock || t % r.period == 0) && 0 < y
}

// The lower of two rows, where 0 is none.
#[tactic(auto, unfolding(crate::specs::Turns::lower_of))]
fn lower(a: u8, b: u8) -> u8
    ensures { result ≡ lower_of a b }
{
    match (a, b) {
        (0, _) => b,
        (_, 0) => a,
        _ => a.min(b),
    }
}

// What is left of the rows' jobs where nothing is done: each row's alternate. What places past n hold is copied too, and no sweep reads it.
fn alternates(t: Table) -> [u16; 16]
    ensures { Unspent (used t) result }
{
    t.rows.map(|row| row.alternate)
}

impl Cycled {
    // Slot s's turn: each row's rest is brought down to s, and the first row with units left takes the slot.
    fn pass(&self, clock: u16, left: &[u16; 16], s: u16, rests: &mut [u16; 16]) -> Swept
        requires { let rs = used self.now.table in (clock ≤ s) × (s < self.now.cycle) × Coming (ends rs) (claims rs clock left.now) (length rs) s rests.old }
        ensures { let rs = used self.now.table in Turned (ends rs) (claims rs clock left.now) clock (length rs) s rests.new result.holder result.short }
    {
        let mut holder: u8 = 0;
        let mut short: u8 = 0;
        for (i, row) in self.table.rows().iter().enumerate() {
            let k = i as u8 + 1;
            let x = arrived(*row, clock, left[i], s, rests[i]);
            let y = spent(holder, x);
            holder = picked(holder, 0 < x, k);
            short = picked(short, short_here(*row, clock, s, y), k);
            rests[i] = y;
        }
        Swept { holder, short }
    }

    // The sweep down to the clock: none where the clock is past the cycle.
    pub(crate) fn down(&self, clock: u16, left: [u16; 16]) -> Swept
        ensures { let rs = used self.now.table in (result.holder ≡ holder_from rs clock left) × (result.short ≡ short_from rs clock left) }
    {
        let mut rests = [0u16; 16];
        let mut holder: u8 = 0;
        let mut short: u8 = 0;
        for s in (clock..self.cycle).rev() {
            let now = self.pass(clock, &left, s, &mut rests);
            holder = now.holder;
            short = lower(now.short, short);
        }
        Swept { holder, short }
    }

    // The first row that the rule leaves a job short of, counted from 1; 0 where no job is short.
    pub(crate) fn tight_row(&self) -> u8
        ensures { result ≡ tight_of (used self.now.table) }
    {
        self.down(0, alternates(self.table)).short
    }

    // Writes each slot's holder. Bytes past the cycle stay.
    // A loop of its own beside `down`'s, since one for both would be no plainer: a closure that keeps what a turn tells wants a contract that is longer than either.
    pub(crate) fn fill(&self, out: &mut [u8])
        requires { self.now.cycle ≤ length out.old }
        ensures { out.new ≡ reservation_list (used self.now.table) ++ drop self.now.cycle out.old }
    {
        let left = alternates(self.table);
        let mut rests = [0u16; 16];
        for s in (0..self.cycle).rev() {
            let now = self.pass(0, &left, s, &mut rests);
            out[s as usize] = now.holder;
        }
    }
}
