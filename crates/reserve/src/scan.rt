// The first slots of the jobs, read off a reservation list.
ghost use Rattle.std.specs.Prelude.{◌≡◌, ◌+◌, ◌-◌, ◌≤◌, ◌<◌, eqb, get_or, length};
ghost use Rattle.std.proofs.lemmas.List.Edits.{sets};
ghost use Rattle.table.specs.Rows.{row_at, used};
ghost use Rattle.table.specs.Windows.{opens};
ghost use Rattle.rule.specs.Slots.{first_of};
ghost use Rattle.rule.specs.Rule.{first};
ghost use Rattle.reserve.specs.Tables.{ends, whole};
ghost use Rattle.reserve.specs.Lists.{jobs_of, job_firsts, first_slots};
ghost use Rattle.reserve.specs.Turns.{Listed};

use crate::cycled::Cycled;

// The first slot from `from` up to, not including, `to` that the row holds, and `to` where it holds none.
fn first_held(list: &[u8], row: u8, from: u16, to: u16) -> u16
    requires { (from ≤ to) × (to ≤ length list.now) }
    ensures { result ≡ first_of (λ s. eqb (get_or list.now s 0) row) from (to - from) }
{
    for s in from..to {
        if list[s as usize] == row {
            return s;
        }
    }
    to
}

impl Cycled {
    // How many jobs all rows have in a cycle.
    pub(crate) fn count_jobs(&self) -> usize
        ensures { result ≡ length (first_slots (used self.now.table)) }
    {
        let mut jobs: usize = 0;
        for row in self.table.rows() {
            jobs += (self.cycle / row.period) as usize;
        }
        jobs
    }

    // The first slot of the job after the first j of row i, counted from 0.
    fn job_first(&self, i: usize, j: u16, list: &[u8]) -> u16
        requires { let rs = used self.now.table in (i < length rs) × (j < jobs_of rs i) × Listed self.now.table self.now.cycle list.now }
        ensures { let rs = used self.now.table in result ≡ first (ends rs) (whole rs) i (opens (row_at rs i) (1 + j)) }
    {
        let period = self.table.rows()[i].period;
        let w = j * period;
        first_held(list, i as u8 + 1, w, w + period)
    }

    // Writes the first slots of the jobs of row i, counted from 0, from the place `at` on.
    fn put_row(&self, i: usize, list: &[u8], out: &mut [u16], at: usize)
        requires { let rs = used self.now.table in (i < length rs) × Listed self.now.table self.now.cycle list.now × (at + jobs_of rs i ≤ length out.old) }
        ensures { let rs = used self.now.table in out.new ≡ sets out.old at (job_firsts rs i 1 (jobs_of rs i)) }
    {
        let jobs = self.cycle / self.table.rows()[i].period;
        for j in 0..jobs {
            out[at + j as usize] = self.job_first(i, j, list);
        }
    }

    // Writes the first slots of all jobs, rows in order. Places past them stay.
    pub(crate) fn put_firsts(&self, list: &[u8], out: &mut [u16])
        requires { Listed self.now.table self.now.cycle list.now × (length (first_slots (used self.now.table)) ≤ length out.old) }
        ensures { out.new ≡ sets out.old 0 (first_slots (used self.now.table)) }
    {
        let mut at: usize = 0;
        for (i, row) in self.table.rows().iter().enumerate() {
            self.put_row(i, list, out, at);
            at += (self.cycle / row.period) as usize;
        }
    }
}
