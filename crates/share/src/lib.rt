// A share of two counts: carried over to binary64 exactly and divided once.
#![tactic(auto)]

ghost use Rattle.std.specs.Prelude.{◌≡◌};
ghost use Rattle.std.specs.Float.{binary64};
ghost use Rattle.std.specs.Float.Ieee.{to_bits};
ghost use Rattle.share.specs.Share.{share_of, share_bits};

// A row's share: primaries done over the jobs that count, with both counts. Where no job counts it carries 16 beside a share of +0.0.
// No `Option` of the share, since that mark and that 0 are promised (theorems `share_marked`, `share_zero`).
#[derive(Clone, Copy)]
pub struct Share {
    pub mark: u8,
    pub done: u32,
    pub of: u32,
    pub share: f64,
}

// The share of two counts.
pub fn divide(done: u32, of: u32) -> Share
    ensures answer { result ≡ share_of done of }
    ensures bits { to_bits binary64 result.share ≡ share_bits done of }
{
    if of == 0 {
        return Share {
            mark: 16,
            done,
            of,
            share: 0.0,
        };
    }
    Share {
        mark: 0,
        done,
        of,
        share: (done as f64) / (of as f64),
    }
}
