// The judgements: the sets of a size are counted through like an odometer, from the lowest to the highest.
ghost use Rattle.std.specs.Iterator.{at_most};

use crate::adding::held;
use crate::{padding, shares};
use compare_lines::wires;
use data::{Judged, Kind, Listing, ProbeSet, Verdict, Which, Wire};

// ---- sets

pub const EMPTY: ProbeSet = ProbeSet {
    places: [0; 4],
    len: 0,
};

// The lowest set of so many of n wires, if there is one.
fn first_set(size: usize, n: usize) -> Option<ProbeSet> {
    if n < size || 4 < size {
        return None;
    }
    let mut places = [0, 1, 2, 3];
    places[size..].fill(0);
    Some(ProbeSet { places, len: size })
}

// The first place up by one, the later ones close behind it.
fn raise(places: &mut [u8], first: u8) {
    for (place, wire) in places.iter_mut().zip(first.wrapping_add(1)..) {
        *place = wire;
    }
}

// The next set: its last place that has room for itself and the later ones goes up.
fn next_set(set: ProbeSet, n: usize) -> Option<ProbeSet> {
    let mut next = set;
    let size = set.len.min(4);
    for i in (0..size).rev() {
        let wire = set.places[i];
        if usize::from(wire) + (size - i) < n {
            raise(&mut next.places[i..size], wire);
            return Some(next);
        }
    }
    None
}

// All sets of a size; 128 wires have 10,668,000 of four.
#[derive(Clone, Copy)]
pub struct Sets {
    n: usize,
    next: Option<ProbeSet>,
    left: u32,
}

impl Sets {
    pub fn of_size(size: usize, n: usize) -> Sets {
        Sets {
            n,
            next: first_set(size, n),
            left: 10668000,
        }
    }
}

impl Iterator for Sets {
    type Item = ProbeSet;

    ghost remaining = { λ s. at_most s.left };

    fn next(&mut self) -> Option<ProbeSet> {
        let set = self.next?;
        self.left = self.left.checked_sub(1)?;
        self.next = next_set(set, self.n);
        Some(set)
    }
}

// How many wires of the set are no outputs.
pub fn inner(wires: &[Wire], set: &ProbeSet) -> usize {
    held(set)
        .iter()
        .filter(|w| wires.get(usize::from(**w)).is_none_or(|x| !x.out))
        .count()
}

// ---- judgements

// What is judged, and at which order.
#[derive(Clone, Copy)]
struct Case<'a> {
    listing: &'a Listing,
    which: Which,
    t: usize,
}

impl Case<'_> {
    fn is_open(&self, set: &ProbeSet) -> bool {
        let shape = self.listing.shape;
        let wires = wires::of(self.listing);
        let live = padding::pad_all(wires, padding::probe_marks(set)).live;
        let bound = match self.which {
            Which::Plain => self.t,
            Which::Strong => inner(wires, set),
        };
        shares::is_over(shape, padding::share_word(shape, live), bound)
    }

    // The first open set of a size; the count goes up with each that is judged.
    fn first_open(&self, size: usize, count: &mut u64) -> Option<ProbeSet> {
        for set in Sets::of_size(size, self.listing.shape.n) {
            *count = count.wrapping_add(1);
            if self.is_open(&set) {
                return Some(set);
            }
        }
        None
    }
}

pub fn judge(listing: &Listing, which: Which, t: usize) -> Judged {
    if let Err(refusal) = padding::may_judge(listing, t) {
        return Judged {
            verdict: Verdict::Refused(refusal),
            set: EMPTY,
        };
    }
    let case = Case { listing, which, t };
    let mut count = 0;
    for size in 1..=t {
        if let Some(set) = case.first_open(size, &mut count) {
            return Judged {
                verdict: Verdict::Open(count),
                set,
            };
        }
    }
    Judged {
        verdict: Verdict::Pass(count),
        set: EMPTY,
    }
}

// The routine with no not that can be padded: an and of the operand with itself computes from the same wire, and no and is ever padded.
// So the sets need what they need where a not is never padded.
pub fn with_nots_kept(listing: &Listing) -> Listing {
    let mut kept = *listing;
    for x in &mut kept.wires {
        if x.kind == Kind::Not {
            x.kind = Kind::And;
            x.b = x.a;
        }
    }
    kept
}
