// How many of the first records are randoms, publics and outputs, and whether that is under the ceilings.
#![tactic(auto)]

ghost use Rattle.std.specs.Prelude.{◌≡◌, ◌≤◌, length};
ghost use Rattle.counts.specs.Counting.{counts_of, with_record, Room, ceilings_met};

use data::{Kind, Wire};

// How many of the first records are randoms, publics and outputs.
#[derive(Clone, Copy, PartialEq, Eq)]
pub struct Counts {
    pub rands: usize,
    pub pubs: usize,
    pub outs: usize,
}

impl Counts {
    // The counts of no record.
    pub fn none() -> Counts
        ensures { result ≡ record { rands = 0; pubs = 0; outs = 0 } }
    {
        Counts {
            rands: 0,
            pubs: 0,
            outs: 0,
        }
    }

    // The counts with one record more.
    pub fn with(self, x: Wire) -> Counts
        requires { Room self }
        ensures { result ≡ with_record self x }
    {
        Counts {
            rands: usize::from(x.kind == Kind::Rand) + self.rands,
            pubs: usize::from(x.kind == Kind::Pub) + self.pubs,
            outs: usize::from(x.out) + self.outs,
        }
    }

    // 1.23, 1.31: no ceiling is passed.
    #[tactic(auto, unfolding(crate::specs::Counting::ceilings_met))]
    pub fn ceilings_met(self) -> bool
        ensures { result ≡ ceilings_met self }
    {
        self.rands <= 64 && self.pubs <= 16 && self.outs <= 64
    }
}

// The counts over the records.
pub fn count_records(ws: &[Wire]) -> Counts
    requires { length ws.now ≤ 128 }
    ensures { result ≡ counts_of (length ws.now) ws.now }
{
    let mut c = Counts::none();
    for x in ws {
        c = c.with(*x);
    }
    c
}
