// Running a routine: the values in marks, one wire after the other.
use crate::marks::Marks;
use crate::spelling;
use compare_lines::wires;
use data::{Kind, Listing, Refusal, Wire};

// The words of bits of a run.
#[derive(Clone, Copy)]
pub struct Bits {
    pub shares: u64,
    pub randoms: u64,
    pub publics: u64,
}

// No bit at or above the count is set.
fn is_within(word: u64, count: usize) -> bool {
    (0..64).all(|k| k < count || !wires::bit(word, k))
}

// The values of the wires, a mark where it is 1; each random and each public takes the next bit of its word.
pub fn values(ws: &[Wire], bits: Bits) -> Marks<2> {
    let mut done = Marks::none();
    let mut rands: usize = 0;
    let mut pubs: usize = 0;
    for (w, x) in ws.iter().enumerate() {
        let a = done.has(usize::from(x.a));
        let b = done.has(usize::from(x.b));
        let value = match x.kind {
            Kind::Share => wires::bit(bits.shares, w),
            Kind::Rand => wires::bit(bits.randoms, rands),
            Kind::Pub => wires::bit(bits.publics, pubs),
            Kind::Xor => a != b,
            Kind::And => a && b,
            Kind::Not => !a,
        };
        if value {
            done.set(w);
        }
        rands = rands.wrapping_add(usize::from(x.kind == Kind::Rand));
        pubs = pubs.wrapping_add(usize::from(x.kind == Kind::Pub));
    }
    done
}

// `run`: how many values are in the buffer, or the refusal.
pub fn run(listing: Listing, bits: Bits, buf: &mut [u8]) -> Result<usize, Refusal> {
    if !spelling::could_be_read(listing) {
        return Err(Refusal::Records);
    }
    let ws = wires::of(&listing);
    let shape = listing.shape;
    let fits = is_within(bits.shares, wires::shares(shape.s, shape.d))
        && is_within(bits.randoms, wires::count_of(ws, Kind::Rand))
        && is_within(bits.publics, wires::count_of(ws, Kind::Pub));
    if !fits {
        return Err(Refusal::Bits);
    }
    if buf.len() < ws.len() {
        return Err(Refusal::Buffer);
    }
    let done = values(ws, bits);
    for (w, b) in buf.iter_mut().enumerate().take(ws.len()) {
        *b = u8::from(done.has(w));
    }
    Ok(ws.len())
}
