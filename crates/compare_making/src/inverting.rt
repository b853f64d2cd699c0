// Random routines with opposites: behind a random or an xor may stand a not of it, which later wires take in its place, though not always.
use crate::{chance, making};
use compare_lines::{splitting, wires};
use data::{Kind, Listing, Shape, Wire};

// A routine in the making, and which of its wires stands for each wire of the one that it is made of.
#[derive(Clone, Copy)]
struct Doubling {
    draft: Listing,
    stands: [u8; 128],
}

// The shares stand for themselves.
fn begun(s: usize, d: usize) -> Doubling {
    let mut stands = [0u8; 128];
    for (w, by) in stands.iter_mut().enumerate() {
        *by = wires::low_byte(w);
    }
    Doubling {
        draft: splitting::begun(s, d),
        stands,
    }
}

// Every second random and every third xor.
fn is_inverted(kind: Kind, seed: u64) -> bool {
    match kind {
        Kind::Rand => chance::one_in(seed, 33, 2),
        Kind::Xor => chance::one_in(seed, 33, 3),
        _ => false,
    }
}

impl Doubling {
    // The wire that stands for w; now and then, where that is an opposite, the one under it.
    fn operand(&self, w: u8, seed: u64, k: u64) -> u8 {
        let by = self.stands.get(usize::from(w)).copied().unwrap_or(0);
        let x = wires::at(&self.draft.wires, usize::from(by));
        if x.kind == Kind::Not && chance::one_in(seed, k, 8) {
            x.a
        } else {
            by
        }
    }

    // The wire again, with the operands that stand for its own; and its number.
    fn push(&mut self, x: Wire, seed: u64) -> u8 {
        let (a, b) = match x.kind {
            Kind::Rand | Kind::Pub => (0, 0),
            Kind::Not => (self.operand(x.a, seed, 31), 0),
            _ => (self.operand(x.a, seed, 31), self.operand(x.b, seed, 32)),
        };
        making::push(&mut self.draft, x.kind, a, b)
    }

    // Wire w of the routine again, and perhaps its opposite, which then stands for it and is the output if it was one.
    fn double(&mut self, x: Wire, w: usize, seed: u64) {
        let own = self.push(x, seed);
        let by = if is_inverted(x.kind, seed) {
            making::push(&mut self.draft, Kind::Not, own, 0)
        } else {
            own
        };
        if x.out {
            making::mark(&mut self.draft, usize::from(by));
        }
        if let Some(stand) = self.stands.get_mut(w) {
            *stand = by;
        }
    }
}

// The routine with opposites; where it has no room for them, without its last wires.
fn inverted(t: Listing, seed: u64) -> Listing {
    let Shape { s, d, n } = t.shape;
    let first = wires::shares(s, d);
    let mut c = begun(s, d);
    for w in first..n {
        let x = wires::at(&t.wires, w);
        c.double(x, w, chance::draw(seed, (w - first) as u64));
    }
    c.draft
}

// Of those of up to three shares every second one gets opposites; of the others, which have many more sets, every eighth.
fn perhaps_inverted(t: Listing, seed: u64) -> Listing {
    let odds = if t.shape.d < 4 { 2 } else { 8 };
    if chance::one_in(seed, 9, odds) {
        inverted(t, chance::draw(seed, 10))
    } else {
        t
    }
}

// A routine that is judged whole.
pub fn routine(seed: u64) -> Listing {
    perhaps_inverted(making::routine(seed), seed)
}

// A routine up to the ceilings.
pub fn large(seed: u64) -> Listing {
    perhaps_inverted(making::large(seed), seed)
}
