// Wire records one at a time: what they name, and what is counted of them.
use crate::parts;
use data::{Kind, Listing, Wire};

pub fn low_byte(n: usize) -> u8 {
    (n % 256) as u8
}

// ---- records

pub const BLANK: Wire = Wire {
    kind: Kind::Share,
    a: 0,
    b: 0,
    out: false,
};

// The record of wire i, a blank one beyond the list.
pub fn at(ws: &[Wire], i: usize) -> Wire {
    ws.get(i).copied().unwrap_or(BLANK)
}

// Wire i becomes x; beyond the list nothing does.
pub fn put(ws: &mut [Wire], i: usize, x: Wire) {
    if let Some(own) = ws.get_mut(i) {
        *own = x;
    }
}

// The records of the routine's wires.
pub fn of(listing: &Listing) -> &[Wire] {
    parts::first(&listing.wires, listing.shape.n)
}

// How many of the records are of this kind.
pub fn count_of(ws: &[Wire], kind: Kind) -> usize {
    ws.iter().filter(|x| x.kind == kind).count()
}

// S times D, by adding D up; 0 where S is no number of secrets.
pub fn shares(s: usize, d: usize) -> usize {
    if 8 < s {
        return 0;
    }
    let mut sum: usize = 0;
    for _ in 0..s {
        sum = sum.wrapping_add(d);
    }
    sum
}

// ---- words of bits

pub fn bit(word: u64, k: usize) -> bool {
    k < 64 && word >> k & 1 == 1
}

pub fn bit_of(on: bool, k: usize) -> u64 {
    if on && k < 64 { 1 << k } else { 0 }
}
