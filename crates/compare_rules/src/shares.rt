// Words with a bit for each share, and the shares of one secret in them.
use compare_lines::wires;
use data::Shape;

// The word of those bits below `count` that are on.
pub fn word_of<F: Fn(usize) -> bool>(count: usize, is_on: F) -> u64
    requires { F.IsAlwaysCallable is_on }
{
    let mut word = 0;
    for k in 0..count {
        word |= wires::bit_of(is_on(k), k);
    }
    word
}

// How many shares of the secret are in the word, counted share by share.
pub fn count_of(word: u64, d: usize, secret: usize) -> usize {
    let first = wires::shares(secret, d);
    (0..d)
        .filter(|k| wires::bit(word, first.wrapping_add(*k)))
        .count()
}

// Whether some secret has more than `bound` of its shares in the word.
pub fn is_over(shape: Shape, word: u64, bound: usize) -> bool {
    (0..shape.s).any(|secret| bound < count_of(word, shape.d, secret))
}
