// The fields of a line of a routine text: the parts between separators, and a field as a number or a word.
#![tactic(auto)]

ghost use Rattle.std.specs.Prelude.{◌≡◌, ◌∷◌, ◌++◌, [], MatchOption, IfSome, position, eqb};
ghost use Rattle.document.specs.Lines.{cut, number, word_of};

use data::{Word, ZERO};

// The first digit and the last, as numbers.
pub const DIGIT_ZERO: usize = 48;

pub const DIGIT_NINE: usize = 57;

// The place of the first sep.
fn place_of(xs: &[u8], sep: u8) -> Option<usize>
    ensures { result ≡ position (λ b. eqb b sep) xs.now }
{
    xs.iter().position(|b| *b == sep)
}

// The bytes before the first sep and those behind it, where there is one.
#[tactic(auto, using(crate::proofs::Laws::cut_some, crate::proofs::Laws::cut_none))]
pub fn split_once(xs: &[u8], sep: u8) -> Option<(&[u8], &[u8])>
    ensures cut { MatchOption result (cut sep xs.now ≡ xs.now ∷ []) (λ p. cut sep xs.now ≡ p.0.now ∷ cut sep p.1.now) }
    ensures parts { IfSome result (λ p. xs.now ≡ p.0.now ++ sep ∷ p.1.now) }
{
    let n = place_of(xs, sep)?;
    Some((&xs[..n], &xs[n + 1..]))
}

// A field as a number.
#[tactic(auto, using(crate::proofs::Laws::numbers))]
pub fn number_of(f: &[u8]) -> Option<usize>
    ensures { result ≡ number f.now }
{
    match f {
        [a @ b'0'..=b'9'] => Some(usize::from(*a - ZERO)),
        [a @ b'1'..=b'9', b @ b'0'..=b'9'] => {
            Some(usize::from(*a - ZERO) * 10 + usize::from(*b - ZERO))
        }
        [a @ b'1'..=b'9', b @ b'0'..=b'9', c @ b'0'..=b'9'] => {
            Some(
                usize::from(*a - ZERO) * 100 + usize::from(*b - ZERO) * 10 + usize::from(*c - ZERO),
            )
        }
        _ => None,
    }
}

// A field as a word.
#[tactic(auto, using(crate::proofs::Laws::spellings), unfolding(document::specs::Lines::word_of))]
pub fn word_of(f: &[u8]) -> Option<Word>
    ensures { result ≡ word_of f.now }
{
    match f {
        b"rand" => Some(Word::Rand),
        b"pub" => Some(Word::Pub),
        b"xor" => Some(Word::Xor),
        b"and" => Some(Word::And),
        b"not" => Some(Word::Not),
        b"out" => Some(Word::Out),
        b"routine" => Some(Word::Routine),
        _ => None,
    }
}
