// The bytes that a text may have.
#![tactic(auto)]

ghost use Rattle.std.specs.Prelude.{◌≡◌};
ghost use Rattle.data.specs.Basics.{each};
ghost use Rattle.document.specs.Reading.{letter};

use data::{LF, TAB};

// a to z, 0 to 9, tab, LF.
#[tactic(auto, using(std::proofs::lemmas::Bool::Decides::nat_tests))]
fn is_letter(c: u8) -> bool
    ensures { result ≡ letter c }
{
    matches!(c, b'a'..=b'z' | b'0'..=b'9' | TAB | LF)
}

pub fn all_letters(text: &[u8]) -> bool
    ensures { result ≡ each letter text.now }
{
    text.iter().all(|c| is_letter(*c))
}
