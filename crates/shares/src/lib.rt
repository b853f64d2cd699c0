// The word of the live shares, and how many shares each secret has in it.
#![tactic(auto)]

ghost use Rattle.std.specs.Prelude.{◌≡◌, ◌+◌, ◌*◌, ◌≤◌};
ghost use Rattle.data.specs.Basics.{at};
ghost use Rattle.document.specs.Padding.{word};
ghost use Rattle.shares.specs.Words.{Shares, ones_of, some_over};

// Bit k for each live wire k below m.
#[tactic(auto, using(crate::proofs::Laws::Words::word_none, crate::proofs::Laws::Words::word_on, crate::proofs::Laws::Words::word_fits, crate::proofs::Laws::Words::word_off))]
pub fn share_word(alive: &[bool; 128], m: usize) -> u64
    requires { m ≤ 64 }
    ensures { result ≡ word m (at alive.now) }
{
    let mut shares = 0u64;
    for k in 0..m {
        if alive[k] {
            shares += 1 << k;
        }
    }
    shares
}

// How many shares of secret i are in the word.
fn count_of(d: usize, i: usize, shares: u64) -> u32
    requires { (1 ≤ d) × (d ≤ 8) × (i * d + d ≤ 64) }
    ensures { result ≡ ones_of d i shares }
{
    let mask = ((1u64 << d) - 1) << (i * d);
    (shares & mask).count_ones()
}

// Some secret has more shares in the word than the bound.
#[tactic(auto, using(crate::proofs::Laws::Words::over_none, crate::proofs::Laws::Words::over_here, crate::proofs::Laws::Words::over_on))]
pub fn over(s: usize, d: usize, shares: u64, bound: usize) -> bool
    requires { Shares s d }
    ensures { result ≡ some_over s d shares bound }
{
    for i in 0..s {
        if bound < count_of(d, i, shares) as usize {
            return true;
        }
    }
    false
}
