// Random numbers from a fixed seed: each is made of the seed and the number of the draw, so that no state goes along.

// A xorshift round; the sum keeps it from being linear.
fn stirred(x: u64) -> u64 {
    let a = x ^ x << 13;
    let b = a ^ a >> 7;
    let c = b ^ b << 17;
    c.wrapping_add(0x9e37_79b9_7f4a_7c15)
}

pub fn draw(seed: u64, k: u64) -> u64 {
    let x = stirred(stirred(seed) ^ k);
    stirred(stirred(x) ^ k << 32)
}

// A number below `n`, or 0 where there is none.
pub fn below(seed: u64, k: u64, n: usize) -> usize {
    if n == 0 {
        return 0;
    }
    (draw(seed, k) >> 8) as usize % n
}

pub fn one_in(seed: u64, k: u64, n: usize) -> bool {
    below(seed, k, n) == 0
}
