// Records and sizes that mostly no read gives.
use crate::chance;
use compare_lines::wires;
use data::{Kind, Listing, Shape, Wire};

const KINDS: [Kind; 6] = [
    Kind::Share,
    Kind::Rand,
    Kind::Pub,
    Kind::Xor,
    Kind::And,
    Kind::Not,
];

// A number near this one, or any small one.
fn near(seed: u64, n: usize) -> usize {
    match chance::below(seed, 47, 4) {
        0 => n.wrapping_add(1),
        1 => n.wrapping_sub(1),
        2 => chance::below(seed, 48, 256),
        _ => chance::below(seed, 48, 10),
    }
}

fn near_byte(seed: u64, b: u8) -> u8 {
    wires::low_byte(near(seed, usize::from(b)))
}

fn other_wire(x: Wire, w: usize, seed: u64) -> Wire {
    let own = wires::low_byte(w);
    match chance::below(seed, 49, 6) {
        0 => Wire {
            kind: KINDS[chance::below(seed, 50, 6) % 6],
            ..x
        },
        1 => Wire {
            a: near_byte(seed, x.a),
            ..x
        },
        2 => Wire {
            b: near_byte(seed, x.b),
            ..x
        },
        3 => Wire { a: own, ..x },
        4 => Wire { b: own, ..x },
        _ => Wire { out: !x.out, ..x },
    }
}

// S, D, n or one record changed, an operand to the wire itself too: mostly what no read gives.
pub fn spoiled(mut t: Listing, seed: u64) -> Listing {
    let Shape { s, d, n } = t.shape;
    match chance::below(seed, 51, 8) {
        0 => t.shape.s = near(seed, s),
        1 => t.shape.d = near(seed, d),
        2 => t.shape.n = near(seed, n),
        _ => {
            let w = chance::below(seed, 52, n);
            if let Some(x) = t.wires.get_mut(w) {
                *x = other_wire(*x, w, seed);
            }
        }
    }
    t
}
