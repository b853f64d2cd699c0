// The README's example of use as a library: a caller that reads a text and asks whether it passes the plain judgement of order 2.
#![tactic(auto)]

ghost use Rattle.std.specs.Prelude.{◌≡◌};
ghost use Rattle.document.specs.Judgements.{told};
ghost use Rattle.test_library.specs.Passing.{passes_plain2};

use data::{Verdict, Which};

fn is_pass(verdict: Verdict) -> bool
    ensures { result ≡ (told verdict).passes }
{
    matches!(verdict, Verdict::Pass(_))
}

// The text is a routine that passes the plain judgement of order 2.
pub fn passes(text: &[u8]) -> bool
    ensures { result ≡ passes_plain2 text.now }
{
    let got = reader::read(text);
    let answer = judge::judge(got.listing, Which::Plain, 2);
    is_pass(answer.verdict)
}
