// One row's open job, slot by slot: its primary units so far, and how its primary has ended.
ghost use Rattle.std.specs.Prelude.{◌≡◌, ◌+◌, ◌%◌, ◌^◌, ◌<◌};
ghost use Rattle.slots.specs.History.{work_of};
ghost use Rattle.slots.specs.LostUnits.{by_report};
ghost use Rattle.bagreport.specs.Turns.{ended_of, or_ended, told_by};

use table::Row;

// How a job's primary has ended, if it has. One that overran is told as one reported failed.
#[derive(Clone, Copy, PartialEq, Eq)]
pub(crate) enum Ended {
    Going,
    Done,
    Failed,
    Aborted,
}

impl Ended {
    // The first ending stands.
    fn or(self, later: Ended) -> Ended
        ensures { result ≡ or_ended self later }
    {
        match self {
            Ended::Going => later,
            _ => self,
        }
    }
}

// A row's job whose deadline has not come: its primary's units, and how that has ended.
#[derive(Clone, Copy)]
pub(crate) struct Open {
    pub units: usize,
    pub ended: Ended,
}

// A job whose window has just opened.
pub(crate) const NO_OPEN: Open = Open {
    units: 0,
    ended: Ended::Going,
};

// The place of the row whose unit a log's byte tells of. An idle slot tells of none, and any place does.
pub(crate) fn place_of(ran: u8) -> usize
    ensures { (result ≡ (ran + 15) % 16) × (result < 16) }
{
    (ran as usize + 15) % 16
}

// How a primary's unit, the u-th of p, ends it by its report.
fn by_report(report: u8, p: u16, u: usize) -> Ended
    ensures { result ≡ ended_of (by_report report p u) }
{
    match report {
        0 if u == p as usize => Ended::Failed,
        0 => Ended::Going,
        1 => Ended::Done,
        2..=255 => Ended::Failed,
    }
}

// The open job of the byte's row, after its slot.
pub(crate) fn told(r: Row, o: Open, ran: u8, report: u8) -> Open
    requires { o.units + 1 < 2 ^ 64 }
    ensures { result ≡ told_by (work_of ran) report r o }
{
    match ran {
        0 => o,
        1..=16 => {
            let units = o.units + 1;
            let ended = o.ended.or(by_report(report, r.primary, units));
            Open { units, ended }
        }
        17..=255 => Open {
            units: o.units,
            ended: o.ended.or(Ended::Aborted),
        },
    }
}
