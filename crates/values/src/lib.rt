// The bits that a run deals with: those of the lent words, and what a wire gives.
#![tactic(auto)]

ghost use Rattle.std.specs.Prelude.{◌≡◌, ◌^◌, ◌≤◌, ltb, get_or};
ghost use Rattle.document.specs.Running.{bit, gives, bits};
ghost use Rattle.values.specs.Words.{SmallCounts, words_fit};

use counts::Counts;
use data::Kind;

// 2.2: the words lent to a run: in each the bits of the shares, the randoms or the publics, the first in bit 0.
#[derive(Clone, Copy, PartialEq, Eq)]
pub struct Inputs {
    pub shares: u64,
    pub randoms: u64,
    pub publics: u64,
}

// Bit k of the word; beyond its 64 bits it has none set.
pub fn bit_at(word: u64, k: usize) -> u8
    ensures { result ≡ get_or (bits 64 word) k 0 }
{
    if k < 64 { (word >> k & 1) as u8 } else { 0 }
}

// The word has no bit set from bit k on; a shift by 64 is none, and every word has 64 bits.
#[tactic(auto, using(crate::proofs::Laws::Bits::none_from))]
fn word_fits(word: u64, k: usize) -> bool
    requires { k ≤ 64 }
    ensures { result ≡ ltb word (2 ^ k) }
{
    k == 64 || word >> k == 0
}

impl Inputs {
    // What wire w gives, with c counted before it, from its own bit or the values of its operands.
    #[tactic(auto, unfolding(document::specs::Running::gives))]
    pub fn value(self, kind: Kind, w: usize, c: Counts, a: u8, b: u8) -> u8
        ensures { result ≡ gives bit kind (get_or (bits 64 self.shares) w 0) (get_or (bits 64 self.randoms) c.rands 0)
            (get_or (bits 64 self.publics) c.pubs 0) a b }
    {
        match kind {
            Kind::Share => bit_at(self.shares, w),
            Kind::Rand => bit_at(self.randoms, c.rands),
            Kind::Pub => bit_at(self.publics, c.pubs),
            Kind::Xor => a ^ b,
            Kind::And => a & b,
            // the other bit
            Kind::Not => 1u8.saturating_sub(a),
        }
    }

    // 2.6: no share, random or public bit is set beyond the routine's own.
    #[tactic(auto, unfolding(crate::specs::Words::words_fit))]
    pub fn fit(self, first: usize, c: Counts) -> bool
        requires { SmallCounts first c }
        ensures { result ≡ words_fit first c self.shares self.randoms self.publics }
    {
        word_fits(self.shares, first)
            && word_fits(self.randoms, c.rands)
            && word_fits(self.publics, c.pubs)
    }
}
