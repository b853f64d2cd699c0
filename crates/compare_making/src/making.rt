// Random routines: gadgets that are nearly secure, wires at random, and alterations. A routine in the making is a listing whose n goes up.
use crate::chance;
use compare_lines::{splitting, wires};
use data::{Kind, Listing, Shape, Wire};

// One wire more, none where 128 are there; and its number.
pub fn push(t: &mut Listing, kind: Kind, a: u8, b: u8) -> u8 {
    let n = t.shape.n;
    if n < 128 {
        t.wires[n] = Wire {
            kind,
            a,
            b,
            out: false,
        };
        t.shape.n = n + 1;
    }
    wires::low_byte(n)
}

// ---- bundles: the wires that hold the D shares of a value

// The input shares of secret i.
fn input(i: usize, d: usize) -> [u8; 8] {
    let first = wires::shares(i, d);
    let mut x = [0u8; 8];
    for (k, w) in x.iter_mut().enumerate().take(d) {
        *w = wires::low_byte(first.wrapping_add(k));
    }
    x
}

// The refreshing of document 003: a fresh random onto each share but the last, and onto the last one.
fn refreshed(t: &mut Listing, mut x: [u8; 8]) -> [u8; 8] {
    let last = t.shape.d.clamp(1, 8) - 1;
    for k in 0..last {
        let r = push(t, Kind::Rand, 0, 0);
        x[k] = push(t, Kind::Xor, x[k], r);
        x[last] = push(t, Kind::Xor, r, x[last]);
    }
    x
}

// A wire of this kind on each share of x and the same one of y: with xor the masked sum, with and the products of shares of one number.
fn paired(t: &mut Listing, kind: Kind, x: [u8; 8], y: [u8; 8]) -> [u8; 8] {
    let d = t.shape.d.min(8);
    let mut z = [0u8; 8];
    for k in 0..d {
        z[k] = push(t, kind, x[k], y[k]);
    }
    z
}

// The masked multiplication of document 000: of each two shares both products, with a random between them.
fn multiplied(t: &mut Listing, x: [u8; 8], y: [u8; 8]) -> [u8; 8] {
    let d = t.shape.d.min(8);
    let mut z = paired(t, Kind::And, x, y);
    for i in 0..d {
        for j in i + 1..d {
            let r = push(t, Kind::Rand, 0, 0);
            let m = push(t, Kind::And, x[i], y[j]);
            let p = push(t, Kind::Xor, r, m);
            let q = push(t, Kind::And, x[j], y[i]);
            let v = push(t, Kind::Xor, p, q);
            z[i] = push(t, Kind::Xor, z[i], r);
            z[j] = push(t, Kind::Xor, z[j], v);
        }
    }
    z
}

// ---- wires at random

// The kinds in a hat of sixteen.
fn kind_drawn(seed: u64, k: u64) -> Kind {
    match chance::below(seed, k, 16) {
        0..=2 => Kind::Rand,
        3 => Kind::Pub,
        4..=10 => Kind::Xor,
        11..=13 => Kind::And,
        _ => Kind::Not,
    }
}

// An earlier wire, mostly one of the last six.
fn operand(seed: u64, k: u64, n: usize) -> u8 {
    if n < 7 || chance::one_in(seed, k ^ 1024, 3) {
        return wires::low_byte(chance::below(seed, k, n));
    }
    wires::low_byte((n - 1).wrapping_sub(chance::below(seed, k, 6)))
}

fn push_drawn(t: &mut Listing, seed: u64, k: u64) {
    let kind = kind_drawn(seed, k);
    let a = operand(seed, k ^ 2048, t.shape.n);
    let b = operand(seed, k ^ 4096, t.shape.n);
    match kind {
        Kind::Rand | Kind::Pub => push(t, kind, 0, 0),
        Kind::Not => push(t, kind, a, 0),
        _ if chance::one_in(seed, k ^ 8192, 12) => push(t, kind, a, a),
        _ => push(t, kind, a, b),
    };
}

// So many wires at random, as long as the ceilings on randoms and publics are met.
fn push_many_drawn(t: &mut Listing, seed: u64, count: u64) {
    for k in 0..count {
        let ws = wires::of(t);
        if wires::count_of(ws, Kind::Rand) < 64 && wires::count_of(ws, Kind::Pub) < 16 {
            push_drawn(t, seed, k);
        }
    }
}

// ---- alterations: the routine stays one that a read could give

// One wire of two operands takes another operand, its operands become equal, or its kind changes.
fn altered(x: Wire, w: usize, seed: u64) -> Wire {
    let other = wires::low_byte(chance::below(seed, 2, w));
    match chance::below(seed, 1, 5) {
        0 => Wire { a: other, ..x },
        1 => Wire { b: other, ..x },
        2 => Wire { b: x.a, ..x },
        3 => Wire {
            kind: Kind::And,
            ..x
        },
        _ => Wire {
            kind: Kind::Not,
            b: 0,
            ..x
        },
    }
}

fn alter(t: &mut Listing, seed: u64) {
    let w = chance::below(seed, 0, t.shape.n);
    if let Some(x) = t.wires.get_mut(w) {
        if matches!(x.kind, Kind::Xor | Kind::And) {
            *x = altered(*x, w, seed);
        }
    }
}

fn alter_often(t: &mut Listing, seed: u64, count: u64) {
    for k in 0..count {
        alter(t, chance::draw(seed, k));
    }
}

// ---- outputs

pub fn mark(t: &mut Listing, w: usize) {
    if let Some(x) = t.wires.get_mut(w) {
        x.out = true;
    }
}

// So many outputs.
fn mark_first(t: &mut Listing, count: usize) {
    for x in t.wires.iter_mut().take(count) {
        x.out = true;
    }
}

// Each of the first 64 wires becomes an output with one chance in `odds`, so that at most 64 do.
fn mark_some(t: &mut Listing, seed: u64, odds: usize) {
    for w in 0..t.shape.n.min(64) {
        if chance::one_in(seed, w as u64, odds) {
            mark(t, w);
        }
    }
}

// ---- families

// What is put on the shares.
#[derive(Clone, Copy, PartialEq, Eq)]
enum Gadget {
    Refreshing,
    Sum,
    Product,
}

const GADGETS: [Gadget; 3] = [Gadget::Refreshing, Gadget::Sum, Gadget::Product];

// A refreshing, one with a sum or another one behind it, or a multiplication of up to three shares: few enough sets to judge them all.
fn push_gadget(t: &mut Listing, gadget: Gadget) {
    let Shape { s, d, .. } = t.shape;
    let x = input(0, d);
    let y = input(1, d);
    if gadget == Gadget::Refreshing || 4 < d {
        refreshed(t, x);
    } else if s < 2 {
        let z = refreshed(t, x);
        refreshed(t, z);
    } else if gadget == Gadget::Sum || 3 < d {
        let z = refreshed(t, x);
        paired(t, Kind::Xor, z, y);
    } else {
        multiplied(t, x, y);
    }
}

// S, and D, of a routine that is judged whole.
fn secrets_drawn(seed: u64) -> usize {
    match chance::below(seed, 2, 8) {
        0..=3 => 1,
        4..=6 => 2,
        _ => 3,
    }
}

fn shares_drawn(seed: u64, s: usize) -> usize {
    match (s, chance::below(seed, 3, 4)) {
        (2, 3) => 3,
        (1 | 2, x) => x.wrapping_add(2),
        _ => 2,
    }
}

// A routine that is judged whole: a gadget, altered or not, with a few wires at random behind it, or only these.
pub fn routine(seed: u64) -> Listing {
    let family = chance::below(seed, 1, 5);
    let s = secrets_drawn(seed);
    let few = chance::draw(seed, 4) % 4;
    let mut t = splitting::begun(s, shares_drawn(seed, s));
    if let Some(gadget) = GADGETS.get(family) {
        push_gadget(&mut t, *gadget);
        alter_often(&mut t, chance::draw(seed, 5), few);
        push_many_drawn(&mut t, chance::draw(seed, 6), few / 2);
        mark_some(&mut t, chance::draw(seed, 7), 4);
    } else {
        push_many_drawn(&mut t, chance::draw(seed, 6), few * 2 + 4);
        mark_some(&mut t, chance::draw(seed, 7), 5);
    }
    t
}

// A routine up to the ceilings, for the calls that judge no or one set.
pub fn large(seed: u64) -> Listing {
    let s = chance::below(seed, 2, 8).wrapping_add(1);
    let d = chance::below(seed, 3, 7).wrapping_add(2);
    let mut t = splitting::begun(s, d);
    push_gadget(&mut t, GADGETS[chance::below(seed, 4, 3) % 3]);
    push_many_drawn(&mut t, chance::draw(seed, 6), chance::draw(seed, 5) % 128);
    let odds = chance::below(seed, 8, 3).wrapping_add(1);
    mark_some(&mut t, chance::draw(seed, 7), odds);
    t
}

// So many wires of one kind.
fn push_many(t: &mut Listing, kind: Kind, count: usize) {
    for _ in 0..count {
        push(t, kind, 0, 0);
    }
}

// A routine about a ceiling: 63 to 66 randoms, 15 to 18 publics, 126 to 128 wires, or 63 to 66 outputs.
pub fn crowded(seed: u64) -> Listing {
    let which = chance::below(seed, 1, 4);
    let more = chance::below(seed, 2, 4);
    let mut t = splitting::begun(1, 2);
    match which {
        0 => push_many(&mut t, Kind::Rand, more.wrapping_add(63)),
        1 => push_many(&mut t, Kind::Pub, more.wrapping_add(15)),
        _ => push_many(&mut t, Kind::Not, more.wrapping_add(124)),
    }
    if which == 3 {
        mark_first(&mut t, chance::below(seed, 3, 4).wrapping_add(63));
    }
    t
}
