// What each wire is computed from, as words: shares, randoms, and randoms of its own.
#![tactic(auto)]

ghost use Rattle.std.specs.Prelude.{◌≡◌, true, cond, ◌^◌, ◌<◌};
ghost use Rattle.document.specs.Routine.{is_rand, records_fit};
ghost use Rattle.cones.specs.Bits.{minus, own_with};
ghost use Rattle.cones.specs.Seen.{see, unseen};
ghost use Rattle.cones.specs.Making.{gather_of, own_from, cone_from, TablesOf};

use counts::Counts;
use data::{Kind, Listing, Shape, Wire};

// What a wire is computed from, or the wires of a set: the shares and the randoms in its cone, and the randoms that are its own.
#[derive(Clone, Copy, PartialEq, Eq)]
pub struct Cone {
    pub shares: u64,
    pub rands: u64,
    pub own: u64,
}

// The bits of x that are not in y.
pub fn without(x: u64, y: u64) -> u64
    ensures { result ≡ minus x y }
{
    x & !y
}

// The word with bit k alone, or with none.
fn bit_if(set: bool, k: usize) -> u64
    requires { set ≡ true → k < 64 }
    ensures { result ≡ cond set (2 ^ k) 0 }
{
    if set { 1 << k } else { 0 }
}

// All bits of the operands' words.
fn gathered(k: Kind, x: u64, y: u64) -> u64
    ensures { result ≡ gather_of k x y }
{
    match k {
        Kind::Xor | Kind::And => x | y,
        Kind::Not => x,
        _ => 0,
    }
}

impl Cone {
    // The cone of no wire.
    pub fn none() -> Cone
        ensures { result ≡ unseen }
    {
        Cone {
            shares: 0,
            rands: 0,
            own: 0,
        }
    }

    // The own randoms of both together: those of each that the other does not hold.
    pub fn own_with(self, other: Cone) -> u64
        ensures { result ≡ own_with self.own self.rands other.rands other.own }
    {
        without(self.own, other.rands) | without(other.own, self.rands)
    }

    // The cone of both together.
    pub fn with(self, other: Cone) -> Cone
        ensures { result ≡ see self other.shares other.rands other.own }
    {
        Cone {
            shares: self.shares | other.shares,
            rands: self.rands | other.rands,
            own: self.own_with(other),
        }
    }
}

// The own randoms of a wire, from its bit if it is a random and the cones of its operands.
fn own_of(x: Wire, rand: u64, p: Cone, q: Cone) -> u64
    ensures { result ≡ own_from x rand p q }
{
    match x.kind {
        Kind::Rand => rand,
        Kind::Xor if x.a != x.b => p.own_with(q),
        Kind::Not => p.own,
        _ => 0,
    }
}

// The cone of a wire, from its bit among the shares, its bit among the randoms and the cones of its operands.
fn cone_of(x: Wire, share: u64, rand: u64, p: Cone, q: Cone) -> Cone
    ensures { result ≡ cone_from x share rand p q }
{
    Cone {
        shares: share | gathered(x.kind, p.shares, q.shares),
        rands: rand | gathered(x.kind, p.rands, q.rands),
        own: own_of(x, rand, p, q),
    }
}

// The cones of the wires of a routine that fits.
pub fn cones_of(listing: Listing) -> [Cone; 128]
    requires { records_fit listing.shape listing.wires ≡ true }
    ensures { TablesOf listing.shape listing.wires result }
{
    let Shape { s, d, n } = listing.shape;
    let shares = s * d;
    let mut cones = [Cone::none(); 128];
    let mut counts = Counts::none();
    for (w, x) in listing.wires[..n].iter().enumerate() {
        let share = bit_if(w < shares, w);
        let rand = bit_if(x.kind == Kind::Rand, counts.rands);
        let (p, q) = (cones[usize::from(x.a)], cones[usize::from(x.b)]);
        cones[w] = cone_of(*x, share, rand, p, q);
        counts = counts.with(*x);
    }
    cones
}
