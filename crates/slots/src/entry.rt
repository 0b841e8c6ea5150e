// One row's job: whether it has what its state says, and what a slot does to it.
ghost use Rattle.std.specs.Prelude.{◌≡◌, cond, ◌<◌, replicate};
ghost use Rattle.table.specs.Windows.{starts};
ghost use Rattle.slots.specs.Records.{new_job, no_job};
ghost use Rattle.slots.specs.Sound.{job_fits};
ghost use Rattle.slots.specs.OneSlot.{on_primary, on_alternate};

use crate::{Job, State};
use table::Row;

// A row's job as its window starts.
pub(crate) fn new_job(r: Row) -> Job
    ensures { result ≡ new_job r }
{
    Job {
        state: State::Waiting,
        run: 0,
        left: r.alternate,
    }
}

// The entries where no row has a job.
pub(crate) fn no_jobs() -> [Job; 16]
    ensures { result ≡ replicate 16 no_job }
{
    [Job {
        state: State::Waiting,
        run: 0,
        left: 0,
    }; 16]
}

// Whether a job has what its state says.
pub(crate) fn fits(r: Row, j: Job) -> bool
    ensures { result ≡ job_fits r j }
{
    match j.state {
        State::Waiting => j.run < r.primary && j.left == r.alternate,
        State::Failed => j.run <= r.primary && j.left <= r.alternate,
        State::Done => 1 <= j.run && j.run <= r.primary && j.left == 0,
    }
}

// The job after a unit of its alternate: a waiting one's primary is aborted.
pub(crate) fn fallen_back(j: Job) -> Job
    ensures { result ≡ on_alternate j }
{
    let state = match j.state {
        State::Waiting | State::Failed => State::Failed,
        State::Done => State::Done,
    };
    Job {
        state,
        run: j.run,
        left: j.left.saturating_sub(1),
    }
}

// The job after a unit of its primary and the report: going on, done or failed. A report over 2 was refused before.
pub(crate) fn tried(r: Row, j: Job, report: u8) -> Job
    requires { j.run < 65535 }
    ensures { result ≡ on_primary report r j }
{
    let run = j.run + 1;
    let (state, left) = match report {
        0 if run == r.primary => (State::Failed, j.left),
        0 => (State::Waiting, j.left),
        1 => (State::Done, 0),
        2..=255 => (State::Failed, j.left),
    };
    Job { state, run, left }
}

// The job as the clock comes to c: a new one where the row's window starts there.
pub(crate) fn come(r: Row, c: u16, j: Job) -> Job
    requires { 0 < r.period }
    ensures { result ≡ cond (starts r c) (new_job r) j }
{
    if c % r.period == 0 { new_job(r) } else { j }
}
