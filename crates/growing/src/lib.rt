// One set of a judgement: how it is grown by a wire, and the bound of what it may need.
#![tactic(auto)]

ghost use Rattle.std.specs.Prelude.{◌≡◌, ◌∷◌, [], ◌++◌, ◌≤◌, ◌<◌, true, length};
ghost use Rattle.document.specs.Routine.{records_fit};
ghost use Rattle.data.specs.ProbeSets.{held, set_of};
ghost use Rattle.cones.specs.Making.{TablesOf};

use cones::Cone;
use data::{Listing, ProbeSet, Which};

// What a search goes by from its first set to its last: the judgement, a routine that fits, the order, and the cones of its wires.
#[derive(Clone, Copy)]
pub struct Question<'a> {
    pub which: Which,
    pub listing: &'a Listing,
    pub t: usize,
    pub cones: &'a [Cone],
    pub ghost fits: { records_fit listing.now.shape listing.now.wires ≡ true },
    pub ghost tables: { TablesOf listing.now.shape listing.now.wires cones.now },
}

// An open set that a search found, and how many sets were judged up to it.
#[derive(Clone, Copy, PartialEq, Eq)]
pub struct Found {
    pub count: u64,
    pub set: ProbeSet,
}

// A growing set, and the cone of its wires.
#[derive(Clone, Copy, PartialEq, Eq)]
pub struct Grown {
    pub set: ProbeSet,
    pub cone: Cone,
}

// The set with wire w behind its last.
fn with_last(set: ProbeSet, w: usize) -> ProbeSet
    requires { (set.len < 4) × (w < 128) × (set ≡ set_of (held set)) }
    ensures { result ≡ set_of (held set ++ (w ∷ [])) }
{
    let ProbeSet { mut places, len } = set;
    places[len] = w as u8;
    ProbeSet {
        places,
        len: len + 1,
    }
}

impl Grown {
    ghost use Rattle.growing.specs.Growing.{nothing_grown, grown_by, Skipped};

    // The set without a wire yet.
    pub fn nothing() -> Grown
        ensures { result ≡ nothing_grown }
    {
        Grown {
            set: ProbeSet::empty(),
            cone: Cone::none(),
        }
    }

    // The set grown by wire w, whose cone is given.
    pub fn with(self, w: usize, cone: Cone) -> Grown
        requires { (self.set.len < 4) × (w < 128) × (self.set ≡ set_of (held self.set)) }
        ensures { result ≡ grown_by self w cone }
    {
        Grown {
            set: with_last(self.set, w),
            cone: self.cone.with(cone),
        }
    }

    // The next of n wires to grow by: where one place is left, a wire that makes a set with an own random is passed over.
    pub fn next_wire(self, places: usize, from: usize, n: usize, cones: &[Cone]) -> usize
        requires { (from ≤ n) × (n ≤ length cones.now) }
        ensures { Skipped places from n cones.now self.cone result }
    {
        if places != 1 {
            return from;
        }
        for w in from..n {
            if self.cone.own_with(cones[w]) == 0 {
                return w;
            }
        }
        n
    }
}

impl Question<'_> {
    ghost use Rattle.growing.specs.Growing.{Holding, inner_of, bound_of};

    // How many wires of the set are no outputs.
    fn inner_of(self, set: ProbeSet) -> usize
        requires { Holding self.listing.now.shape.n self.listing.now.wires set }
        ensures { result ≡ inner_of self.entry.listing.now.wires (held set) }
    {
        let mut inner = 0;
        for w in &set.places[..set.len] {
            if !self.listing.wires[usize::from(*w)].out {
                inner += 1;
            }
        }
        inner
    }

    // What the needed shares of a secret may not exceed.
    pub fn bound_of(self, set: ProbeSet) -> usize
        requires { Holding self.listing.now.shape.n self.listing.now.wires set }
        ensures { result ≡ bound_of self.entry.which self.entry.listing.now.wires self.entry.t (held set) }
    {
        match self.which {
            Which::Plain => self.t,
            Which::Strong => self.inner_of(set),
        }
    }
}
