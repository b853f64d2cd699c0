// What a pass means by counting: every start of a small routine is run. For each set it is counted, under each choice of the secrets, from how
// many starts all its wires are 1 (a plain pass); and for each share word, with how many drawings it shows each pattern (a strong one).
use crate::adding::held;
use crate::shares;
use compare_lines::wires;
use compare_texts::marks::Marks;
use compare_texts::running;
use compare_texts::running::Bits;
use data::{Kind, Listing, ProbeSet, Shape};

// ---- routines

// A small routine; how many shares, randoms and starts it has.
#[derive(Clone, Copy)]
pub struct Small {
    pub listing: Listing,
    pub total: usize,
    pub randoms: usize,
    pub starts: usize,
}

// The routine, if its starts can be counted: at most 512 of them, 40 wires and two publics.
pub fn starts_of(listing: &Listing) -> Option<Small> {
    let Shape { s, d, n } = listing.shape;
    let ws = wires::of(listing);
    let total = wires::shares(s, d);
    let randoms = wires::count_of(ws, Kind::Rand);
    let bits = total.wrapping_add(randoms);
    if 9 < bits || 2 < wires::count_of(ws, Kind::Pub) || 40 < n {
        return None;
    }
    Some(Small {
        listing: *listing,
        total,
        randoms,
        starts: 1 << bits,
    })
}

// The secrets of a share word: bit i is the xor of the shares of secret i.
fn secrets(shape: Shape, word: u64) -> u64 {
    shares::word_of(shape.s, |i| shares::count_of(word, shape.d, i) % 2 == 1)
}

fn low_bits(x: u64, count: usize) -> u64 {
    if count < 64 {
        x & (1u64 << count).wrapping_sub(1)
    } else {
        x
    }
}

fn high_bits(x: u64, count: usize) -> u64 {
    if count < 64 { x >> count } else { 0 }
}

// ---- starts

// All starts of a routine that have the same publics, up to 512, a mark for each: from which each wire is 1, and which have each choice of the secrets.
#[derive(Clone, Copy)]
pub struct Table {
    all: Marks<8>,
    ones: [Marks<8>; 64],
    chosen: [Marks<8>; 64],
}

fn choices(s: usize) -> usize {
    1 << s.min(5)
}

impl Table {
    // Runs every start.
    pub fn of(r: &Small, publics: u64) -> Table {
        let mut table = Table {
            all: Marks::none(),
            ones: [Marks::none(); 64],
            chosen: [Marks::none(); 64],
        };
        let shape = r.listing.shape;
        let ws = wires::of(&r.listing);
        for x in 0..r.starts {
            let word = low_bits(x as u64, r.total);
            let randoms = high_bits(x as u64, r.total);
            let bits = Bits {
                shares: word,
                randoms,
                publics,
            };
            let values = running::values(ws, bits);
            table.note(x, &values, secrets(shape, word));
        }
        table
    }

    // Notes start x with the values and the secrets that it gives.
    fn note(&mut self, x: usize, values: &Marks<2>, secrets: u64) {
        self.all.set(x);
        self.chosen[(secrets % 64) as usize].set(x);
        for (w, ones) in self.ones.iter_mut().enumerate() {
            if values.has(w) {
                ones.set(x);
            }
        }
    }

    fn ones_of(&self, w: u8) -> &Marks<8> {
        &self.ones[usize::from(w % 64)]
    }

    // The starts from which all wires of the set are 1.
    fn all_one(&self, set: &ProbeSet) -> Marks<8> {
        let mut all = self.all;
        for w in held(set) {
            all.keep(self.ones_of(*w));
        }
        all
    }

    // Whether each choice of s secrets has as many starts from which all wires of the set are 1 as the first one has.
    // Where it is so of every smaller set too, then of each pattern of the set: how often one comes is a sum of such numbers and their opposites.
    pub fn is_even(&self, s: usize, set: &ProbeSet) -> bool {
        let all = self.all_one(set);
        let first = all.count_both(&self.chosen[0]);
        self.chosen
            .iter()
            .take(choices(s))
            .all(|chosen| all.count_both(chosen) == first)
    }

    // The place of what the set shows from start x: `width` times the pattern, read as a number.
    fn place_of(&self, set: &ProbeSet, width: usize, x: usize) -> usize {
        let mut place = 0;
        for w in held(set) {
            place = place % 64 * 2;
            if self.ones_of(*w).has(x) {
                place += width % 64;
            }
        }
        place
    }

    // For each share word, with how many of the drawings the set shows each pattern, one number beside the other in a word: a place is a bit
    // wider than the randoms are many, and a set that is judged has fewer wires than a secret has shares. So of m randoms and k wires there are 2^k places
    // of m + 1 bits, where m + k + 1 is at most 8: 64 bits.
    fn draws(&self, r: &Small, set: &ProbeSet) -> [u64; 512] {
        let width = r.randoms.wrapping_add(1);
        let mut counts = [0u64; 512];
        for x in 0..r.starts {
            let place = self.place_of(set, width, x);
            let count = &mut counts[(low_bits(x as u64, r.total) % 512) as usize];
            *count = count.wrapping_add(1 << (place % 64));
        }
        counts
    }

    // The word of the shares on which it depends how often the randoms give each pattern of the set.
    pub fn dependent(&self, r: &Small, set: &ProbeSet) -> u64 {
        let counts = self.draws(r, set);
        shares::word_of(r.total, |k| depends_on(&counts, r.total, k))
    }
}

// ---- drawings

// Whether the drawings of a routine can be counted: it has at most 256 starts, so that the numbers below fit.
pub fn can_draw(r: &Small) -> bool {
    r.starts <= 256
}

// Whether another value of share k changes how often the randoms give some pattern, whatever the other shares are.
fn depends_on(counts: &[u64; 512], total: usize, k: usize) -> bool {
    let words: usize = 1 << (total % 10);
    let other: usize = 1 << (k % 10);
    (0..words).any(|x| counts[x % 512] != counts[(x ^ other) % 512])
}
