// The rows that wait, as a set of 16 bits, row 1 in the lowest place.
ghost use Rattle.std.specs.Prelude.{◌≡◌, ◌+◌, ◌*◌, ◌≤◌, ◌<◌};
ghost use Rattle.rule.specs.Slots.{unit};
ghost use Rattle.slots.specs.OneSlot.{is_waiting, waits};
ghost use Rattle.slots.specs.WaitingSet.{set_from};
ghost use Rattle.slots.specs.Turns.{members_of, lowest_in};

use crate::{Awaiting, Job, State};

// The set with one place more below the others, which is a member where its job waits.
pub(crate) fn joined(set: u16, state: State) -> u16
    requires { set < 32768 }
    ensures { result ≡ unit (is_waiting state) + 2 * set }
{
    u16::from(state == State::Waiting) + 2 * set
}

// The set of the waiting rows among the first n, built from the highest place down.
pub(crate) fn waiting_set(jobs: [Job; 16], n: u8) -> u16
    requires { n ≤ 16 }
    ensures { result ≡ set_from (waits jobs) 0 n }
{
    let mut x: u16 = 0;
    for job in jobs[..n as usize].iter().rev() {
        x = joined(x, job.state);
    }
    x
}

// The lowest member, counted from 1; 0 of the empty set.
pub(crate) fn lowest(x: u16) -> u8
    ensures { result ≡ lowest_in x }
{
    if x == 0 {
        0
    } else {
        x.trailing_zeros() as u8 + 1
    }
}

// The waiting rows among the first n: their set, its lowest member, and the count of its members.
pub(crate) fn awaited_rows(jobs: [Job; 16], n: u8) -> Awaiting
    requires { n ≤ 16 }
    ensures { result ≡ members_of jobs n }
{
    let set = waiting_set(jobs, n);
    let row = lowest(set);
    let count = set.count_ones() as u8;
    Awaiting { set, row, count }
}
